//! The base types of receivers in turn. Methods of one type mostly stand together, so the last one is kept.
ghost use Rattle.std.specs.Prelude.{◌≡◌, List, Some, true};
ghost use Rattle.go_declarations.specs.Listings.{declarations_of};
ghost use Rattle.go_declarations.specs.go_typings.Declarations.{Declaration as Declared};
ghost use Rattle.go_declarations.specs.go_typings.Receivers.{base};
ghost use Rattle.go_declared.specs.AliasEnds.{AreEnds};
ghost use Rattle.go_declared.specs.NameTables.{AreDeclared};
ghost use Rattle.go_declared.specs.ReceiverNames.{text_of};
ghost use Rattle.go_declared.specs.inner.LastBases.{IsLast};

use crate::bases::base;
use crate::names::DeclaredNames;
use crate::receivers::receiver_name;
use go_base::text::Text;
use go_declarations::listing::Declaration;
use go_syntax::name::QualifiedName;
use go_syntax::types::ParameterDecl;

/// The name by which a receiver's type was written last, and its base type.
#[derive(Clone, Copy)]
pub(crate) struct LastBase<'a> {
    pub name: Option<&'a Text>,
    pub base: Option<&'a Text>,
}

/// No name yet.
pub(crate) fn no_base<'a>() -> LastBase<'a>
    ensures { (ds : List Declared) → IsLast ds result }
{
    LastBase {
        name: None,
        base: None,
    }
}

fn is_last(last: LastBase<'_>, name: &Text) -> bool
    ensures { result ≡ true → text_of last.entry.name ≡ Some name.now }
{
    match last.name {
        None => false,
        Some(other) => other == name,
    }
}

/// The defined type of the package of which a receiver is, or to which it points, as `base` tells it.
pub(crate) fn base_in_turn<'a>(
    declarations: &[Declaration<'a>],
    names: &DeclaredNames,
    ends: &[Option<&'a QualifiedName>],
    last: &mut LastBase<'a>,
    receiver: &'a ParameterDecl,
) -> Option<&'a Text>
    requires names { AreDeclared (declarations_of declarations.now) names.now }
    requires ends { AreEnds (declarations_of declarations.now) ends.now }
    requires last { IsLast (declarations_of declarations.now) last.old }
    ensures base { text_of result ≡ base (declarations_of declarations.now) receiver.now }
    ensures last { IsLast (declarations_of declarations.now) last.new }
{
    match receiver_name(receiver) {
        None => None,
        Some(name) => {
            if is_last(*last, name) {
                return last.base;
            }
            let found = base(declarations, names, ends, receiver);
            *last = LastBase {
                name: Some(name),
                base: found,
            };
            found
        }
    }
}
