//! Why a file has no outline.

pub use go_cursor::error::ParseError;
