//! What is asked of trees.

/// What is asked of trees.
#[derive(Clone, Copy)]
pub enum Question {
    /// Their units.
    Units,
    /// The features of their public packages.
    Features,
}
