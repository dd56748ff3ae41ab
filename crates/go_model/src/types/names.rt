//! Names of types, and selectors.
ghost use Rattle.std.specs.Prelude.{◌≡◌};
ghost use Rattle.go_model.specs.types.Imports.{is_imported};

use go_base::text::Text;

/// The name of a defined type: the import path of its package, and the name in it. The predeclared
/// `error` has an empty path.
#[derive(Debug, PartialEq, Eq, PartialOrd, Ord)]
pub struct TypeName {
    pub path: Text,
    pub name: Text,
}

impl TypeName {
    /// Its path and its name, moved out.
    pub fn into_parts(self) -> (Text, Text)
        ensures { result ≡ record { 0 = self.path; 1 = self.name } }
    {
        let TypeName { path, name } = self;
        (path, name)
    }
}

impl Drop for TypeName {
    fn drop(self) {
        let TypeName { path: _, name: _ } = self;
    }
}

/// Whether a type is of another package than a client's, and not predeclared.
pub fn is_imported(name: &TypeName) -> bool
    ensures { result ≡ is_imported name.now }
{
    name.path.bytes() != b"".as_slice() && name.path.bytes() != b"-client".as_slice()
}

/// A selector: the name of a field or method, and the import path of the package that declares it,
/// which is empty for an exported name. Selectors are ordered by name and then by package.
#[derive(Debug, PartialEq, Eq, PartialOrd, Ord)]
pub struct Sel {
    pub name: Text,
    pub package: Text,
}

impl Drop for Sel {
    fn drop(self) {
        let Sel {
            name: _,
            package: _,
        } = self;
    }
}
