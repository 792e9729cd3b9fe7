// The lines of a block of bytes.
ghost use Rattle.std.specs.Prelude.{◌≡◌};
ghost use Rattle.console.specs.Sheet.{line_end};

// Where the line that begins at `from` ends: at the next byte 10, or at the end of the block.
pub fn line_end(block: &[u8], from: usize) -> usize
    ensures { result ≡ line_end block.now from }
{
    if block.len() < from {
        return block.len();
    }
    text::part_end(block, from, 10)
}
