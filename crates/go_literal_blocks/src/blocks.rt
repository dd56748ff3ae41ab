//! Blocks of function literals and of bodies, by their places.
ghost use Rattle.std.specs.Prelude.{◌≡◌, ◌<◌, true, length, get_or};
ghost use Rattle.go_literal_blocks.specs.Blocks.{FindsBlock, Rising};
ghost use Rattle.go_syntax.specs.declared.statement.LiteralBlock as b;

use go_syntax::statement::{LiteralBlock, Stmt};

/// Blocks, and whether each begins behind the one before, as those of a file do.
#[derive(Drop)]
pub struct Blocks<'a> {
    pub list: &'a [LiteralBlock],
    rising: bool,
    ghost told: { rising ≡ true → Rising list.now },
}

// Whether each block begins behind the one before.
fn is_rising(blocks: &[LiteralBlock]) -> bool
    ensures { result ≡ true → Rising blocks.now }
{
    let mut first = 0u64;
    for block in blocks {
        let start = block.start as u64;
        if start < first {
            return false;
        }
        first = start + 1;
    }
    true
}

// The first block at an offset, among any.
fn scanned(blocks: &[LiteralBlock], start: u32) -> Option<usize>
    ensures { FindsBlock blocks.now start result }
{
    for at in 0..blocks.len() {
        let block = &blocks[at];
        let found = block.start == start;
        if found {
            return Some(at);
        }
    }
    None
}

// The block at an offset, among those that rise.
fn bisected(blocks: &[LiteralBlock], start: u32) -> Option<usize>
    requires { Rising blocks.now }
    ensures { FindsBlock blocks.now start result }
{
    let mut low = 0usize;
    let mut high = blocks.len();
    while low < high {
        let middle = low + (high - low) / 2;
        let block = &blocks[middle];
        let found = block.start == start;
        if found {
            return Some(middle);
        }
        let before = block.start < start;
        if before {
            low = middle + 1;
        } else {
            high = middle;
        }
    }
    None
}

impl<'a> Blocks<'a> {
    /// These blocks, in any order. Those of a file, in the order of their places, are found fast.
    pub fn new(list: &'a [LiteralBlock]) -> Blocks<'a>
        ensures { result.list.now ≡ list.now }
    {
        let rising = is_rising(list);
        Blocks { list, rising }
    }

    /// The number of the first block at an offset.
    pub fn find(&self, start: u32) -> Option<usize>
        ensures { FindsBlock self.now.list.now start result }
    {
        if self.rising {
            bisected(self.list, start)
        } else {
            scanned(self.list, start)
        }
    }

    /// The statements of the block of a number.
    pub fn statements(&self, at: usize) -> &'a [Stmt]
        requires { at < length self.now.list.now }
        ensures { (l : b.LiteralBlock) → l ≡ get_or self.now.list.now at l → result.now ≡ l.block }
    {
        let list = self.list;
        let block = &list[at];
        block.block.items()
    }
}
