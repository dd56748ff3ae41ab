//! Names and places.
use go_base::text::Text;

/// A name, and the byte offset at which it begins in its file.
#[derive(Debug, Drop)]
pub struct Name {
    pub text: Text,
    pub place: u32,
}

/// A place in a package's source: the number of the file, from 0, and the byte offset in it.
#[derive(Clone, Copy, Debug, PartialEq, Eq)]
pub struct Place {
    pub file: u32,
    pub offset: u32,
}

/// A type's name, or a name of an imported package: `io.Writer`.
#[derive(Debug, Drop)]
pub struct QualifiedName {
    pub qualifier: Option<Name>,
    pub name: Name,
}
