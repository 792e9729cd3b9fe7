// A line handed back as a part of one of the two lent texts, with the answer and the mark beside it in one struct; `locate` and `part` are
// its two steps.
ghost use Rattle.std.specs.Prelude.{◌≡◌};
ghost use Rattle.transcripts.specs.Finding.{Finds};

use super::finding::{Located, locate, part};

// The line's own bytes, and beside them the answer and which part of which text they are.
#[derive(Clone, Copy)]
pub struct Found<'a> {
    pub part: &'a [u8],
    pub located: Located,
}

// The line with this key and occurrence, from 1: from the original if it is there, else from the copy. 3 for an empty key or occurrence 0,
// 17 where it is in neither; both hand back the empty front of the original.
pub fn find<'a>(original: &'a [u8], copy: &'a [u8], key: &[u8], occurrence: u64) -> Found<'a>
    ensures { Finds original.entry copy.entry key.now occurrence result }
{
    let located = locate(original, copy, key, occurrence);
    let part = part(original, copy, located.place);
    Found { part, located }
}
