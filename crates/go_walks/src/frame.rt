//! The function in which statements are typed.
ghost use Rattle.std.specs.Prelude.{◌≡◌, ◌+◌};
ghost use Rattle.go_model.specs.types.Terms.{error_type};

use go_literal_blocks::blocks::Blocks;
use go_model::types::package::Defined;
use go_model::types::term::Term;
use std::alloc::Global;

/// The function in which statements are typed: its results, and the first offset at which the block of a function literal in it may
/// begin; with the blocks of all, and the predeclared `error`.
#[derive(Drop)]
pub struct Frame<'a> {
    pub alloc: Global,
    pub blocks: &'a Blocks<'a>,
    pub error: &'a Defined,
    pub results: &'a [Term],
    pub first: u64,
    ghost predeclared: { error.now ≡ error_type },
}

impl<'a> Frame<'a> {
    /// A function with these results, in which the block of a function literal may begin at an offset or behind it.
    pub fn new(
        alloc: Global,
        blocks: &'a Blocks<'a>,
        error: &'a Defined,
        results: &'a [Term],
        first: u64,
    ) -> Frame<'a>
        requires { error.now ≡ error_type }
        ensures blocks { result.blocks.now ≡ blocks.now }
        ensures results { result.results.now ≡ results.now }
        ensures first { result.first ≡ first }
    {
        Frame {
            alloc,
            blocks,
            error,
            results,
            first,
        }
    }

    /// A function inside of it, whose block begins at an offset.
    pub fn inner<'b>(&'b self, results: &'b [Term], start: u32) -> Frame<'b>
        ensures blocks { result.blocks.now ≡ self.now.blocks.now }
        ensures results { result.results.now ≡ results.now }
        ensures first { result.first ≡ start + 1 }
    {
        Frame {
            alloc: self.alloc,
            blocks: self.blocks,
            error: self.error,
            results,
            first: start as u64 + 1,
        }
    }
}
