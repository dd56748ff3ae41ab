//! Where a function literal stands.
ghost use Rattle.std.specs.Prelude.{◌≡◌};
ghost use Rattle.go_function_literals.specs.Places as places;

use go_syntax::body::BodyRange;

/// The body of a function literal, and the height that it may have.
#[derive(Clone, Copy, Debug)]
pub struct LiteralPlace {
    pub body: BodyRange,
    pub height: usize,
}

/// The height of the parts of a tree of this height.
#[tactic(auto, using(crate::proofs::Heights::below_is))]
pub fn below(height: usize) -> usize
    ensures { result ≡ places.below height }
{
    if height == 0 { 0 } else { height - 1 }
}
