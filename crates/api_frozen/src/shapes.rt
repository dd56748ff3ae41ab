//! What is told apart while lines are read.

/// What ends a word: a blank or a comma ends a path, and a closing parenthesis a context.
#[derive(Clone, Copy, Debug, PartialEq, Eq)]
pub(crate) enum End {
    Path,
    Context,
}

/// What a line of a file is.
#[derive(Drop)]
pub(crate) enum Reading<'a> {
    /// A comment or blank.
    Skipped,
    /// A feature line, without the number of an issue.
    Feature(&'a [u8]),
    Bad,
}
