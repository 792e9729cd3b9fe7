// A line that goes on behind the block.
ghost use Rattle.std.specs.Prelude.{◌≡◌};
ghost use Rattle.blocks.specs.Blocks.{carried};

use limits::LONGEST_LINE;

// So many bytes of a line are enough, since a longer line is not understood whatever its bytes are.
const MOST_HELD: usize = LONGEST_LINE + 1;

// What the block has of the line, from `from` to `to`, goes to the front, as far as it is held.
pub fn carry(block: &mut [u8], from: usize, to: usize) -> usize
    ensures { record { held = result; block = block.new } ≡ carried block.old from to }
{
    if to < from || block.len() < to {
        return 0;
    }
    let n = (to - from).min(MOST_HELD);
    block.copy_within(from..from + n, 0);
    n
}
