//! Where the bodies of functions stand.

/// The body of a function: the byte offsets of its `{` and after its `}`.
#[derive(Clone, Copy, Debug)]
pub struct BodyRange {
    pub start: u32,
    pub end: u32,
}
