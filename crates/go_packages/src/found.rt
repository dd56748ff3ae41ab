//! Where names are declared, with the forms of their declarations.
ghost use Rattle.std.specs.Prelude.{◌≡◌};
ghost use Rattle.go_declarations.specs.Listings.{declarations_of};
ghost use Rattle.go_packages.specs.inner.FoundNames.{IsPlaced, declared_of};
ghost use Rattle.go_typings.specs.Declarations.{declared};

use go_declarations::form::Form;
use go_declarations::listing::Declaration;
use go_declared::bases::form_there;
use go_declared::names::ListedName;

/// Where a name is declared first: the number of the declaration, the place of the name among those that it declares, and
/// its form.
#[derive(Clone, Copy)]
pub(crate) struct FoundName<'a> {
    pub number: usize,
    pub place: usize,
    pub form: Form<'a>,
}

/// Where a name is declared that is listed with its place.
pub(crate) fn found<'a>(
    declarations: &[Declaration<'a>],
    listed: ListedName<'_>,
) -> Option<FoundName<'a>>
    requires { IsPlaced (declarations_of declarations.now) listed }
    ensures { declared_of result ≡ declared (declarations_of declarations.now) listed.entry.name.now }
{
    match form_there(declarations, listed.place) {
        None => None,
        Some(form) => Some(FoundName {
            number: listed.place.number,
            place: listed.place.place,
            form,
        }),
    }
}
