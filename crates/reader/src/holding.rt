// A reader that keeps the lent page and its place in it: a thin layer over the cursor form.
ghost use Rattle.std.specs.Prelude.{◌≡◌, drop};
ghost use Rattle.tables.specs.Calls.{told};
ghost use Rattle.reader.specs.Reading.{reading};

use super::read_from;
use tables::Outcome;

// A page and a place in it.
#[derive(Clone, Copy)]
pub struct Reader<'a> {
    pub page: &'a [u8],
    pub at: usize,
}

// The page at its beginning.
pub fn open<'a>(page: &'a [u8]) -> Reader<'a>
    ensures { (result.page ≡ page.entry) × (result.at ≡ 0) }
{
    Reader { page, at: 0 }
}

// The same page at another place.
pub fn moved<'a>(r: Reader<'a>, at: usize) -> Reader<'a>
    ensures { (result.page ≡ r.entry.page) × (result.at ≡ at) }
{
    Reader { page: r.page, at }
}

// The page that stands from its place on.
pub fn read<'a>(r: Reader<'a>) -> Outcome
    ensures { told result ≡ reading (drop r.entry.at r.entry.page.now) }
{
    read_from(r.page, r.at)
}

// Reads a page back.
pub fn read_page(page: &[u8]) -> Outcome
    ensures { told result ≡ reading page.now }
{
    read(open(page))
}
