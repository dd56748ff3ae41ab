//! Tables of defined types.
ghost use Rattle.std.specs.Prelude.{◌≡◌};
ghost use Rattle.go_model.specs.types.DeclaredMethods.{TellsMethod, with_sel};
ghost use Rattle.go_model.specs.types.Tables.{Table, entry_of};
ghost use Rattle.go_model.specs.types.Underlying.{methods_of_entry};

use crate::types::declared_method::DeclaredMethod;
use crate::types::names::{Sel, TypeName};
use crate::types::package::Defined;

/// A finite map from names to defined types. Whatever it holds for the predeclared `error`, that
/// type is `interface{ Error() string }`.
pub trait TypeTable {
    /// What it holds.
    ghost lookup: { Self → Table };

    /// The defined type of a name.
    fn defined(&self, name: &TypeName) -> Option<&Defined>
        ensures { entry_of result ≡ lookup self.now name.now };

    /// The method of a selector that is declared for the defined type of a name, where the table tells it without a
    /// walk through all of them.
    fn declared(&self, name: &TypeName, sel: &Sel) -> DeclaredMethod<'_>
        ensures { TellsMethod (with_sel sel.now (methods_of_entry (lookup self.now name.now))) result };
}
