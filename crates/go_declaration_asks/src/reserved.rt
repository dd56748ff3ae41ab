//! The names `init` and `main`.
ghost use Rattle.std.specs.Prelude.{◌≡◌, ◌||◌};
ghost use Rattle.go_base.specs.Lists.{Each};
ghost use Rattle.go_declaration_asks.specs.inner.Names.{IsBareWhereSpecial, IsFreeName, is_main_of};
ghost use Rattle.go_selectors.specs.Answers.{Decides};
ghost use Rattle.go_typings.specs.DeclarationAsks.{IsBare};
ghost use Rattle.go_typings.specs.Declarations.{is_init};

use go_base::text::Text;
use go_syntax::declaration::Func;
use go_syntax::name::Name;
use go_syntax::types::Signature;

fn is_init(name: &Text) -> bool
    ensures { result ≡ is_init name.now }
{
    name.bytes() == b"init".as_slice()
}

// Whether it is `main` in a package of this name.
fn is_main_of(package_name: &[u8], name: &Text) -> bool
    ensures { result ≡ is_main_of package_name.now name.now }
{
    name.bytes() == b"main".as_slice() && package_name == b"main".as_slice()
}

/// Whether in a package of this name more than functions may be named so.
pub(crate) fn is_free(package_name: &[u8], name: &Name) -> bool
    ensures { Decides result (IsFreeName package_name.now name.now) }
{
    if is_init(&name.text) {
        return false;
    }
    !is_main_of(package_name, &name.text)
}

/// The same of several names.
pub(crate) fn are_free(package_name: &[u8], names: &[Name]) -> bool
    ensures { Decides result (Each (IsFreeName package_name.now) names.now) }
{
    for name in names {
        if !is_free(package_name, name) {
            return false;
        }
    }
    true
}

fn is_bare(signature: &Signature) -> bool
    ensures { Decides result (IsBare signature.now) }
{
    signature.parameters.items().is_empty() && signature.result.is_none()
}

// Whether a function of this name is called by itself.
fn is_special(package_name: &[u8], name: &Text) -> bool
    ensures { result ≡ (is_init name.now || is_main_of package_name.now name.now) }
{
    is_init(name) || is_main_of(package_name, name)
}

/// Whether in a package of this name a function has neither parameters nor results, where it is called by
/// itself.
pub(crate) fn is_bare_where_special(package_name: &[u8], func: &Func) -> bool
    ensures { Decides result (IsBareWhereSpecial package_name.now func.now) }
{
    if !is_special(package_name, &func.name.text) {
        return true;
    }
    is_bare(&func.signature)
}
