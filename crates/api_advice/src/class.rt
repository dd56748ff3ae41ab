//! How much a release changes.

/// The class of a release, from the greatest change down.
#[derive(Clone, Copy, Debug, PartialEq, Eq)]
pub enum Class {
    /// A break on some platform.
    Major,
    /// No break, and other feature lines on some platform.
    Minor,
    /// Neither.
    Patch,
}
