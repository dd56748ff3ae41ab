//! What is told of a client.
use go_syntax::name::Place;

/// What is told of a client of a module.
#[derive(Clone, Copy, Debug, PartialEq, Eq)]
pub enum Vetted {
    /// It is typed, and takes no step that the profile bars.
    InProfile,
    /// It is typed, but not without such a step.
    TypedOutsideProfile,
    /// It isn't typed: where a name is declared twice, else an import isn't found, else a declaration has no typing, else a statement isn't typed.
    Untyped(Place),
}
