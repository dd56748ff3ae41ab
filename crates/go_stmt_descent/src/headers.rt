//! The headers of `for`.

/// What the header of a `for` is.
#[derive(Clone, Copy)]
pub enum ForHeader {
    /// A condition alone, or none.
    Condition,
    Range,
    RangeAssign,
    RangeDefine,
    /// With semicolons.
    Clauses,
}
