//! Which declarations of a package other modules can name.
ghost use Rattle.std.specs.Prelude.{◌≡◌, length, map, IfOk};
ghost use Rattle.std.specs.List.{list_any};
ghost use Rattle.go_declarations.specs.Forms.{form_of};
ghost use Rattle.go_declarations.specs.Listings.{declaration_of, declarations_of};
ghost use Rattle.go_exposed.specs.ExposedDeclarations.{is_exported_name};
ghost use Rattle.go_graphs.specs.Flags.{AreFlagsOf};
ghost use Rattle.go_sources.specs.UnitSources.{source_of};
ghost use Rattle.go_typings.specs.Declarations.{declarations as all_declarations, names_of};
ghost use Rattle.go_seen.specs.Offered.{IsOfferedAt, offers};

use crate::publics::is_public;
use go_base::memory::NoMemory;
use go_declarations::form::Form;
use go_declarations::listing::Declaration;
use go_rules::exports::is_exported;
use go_syntax::name::Name;
use go_units::unit::Unit;
use std::alloc::Global;

fn is_exported_name(name: &Name) -> bool
    ensures { result ≡ is_exported_name name.now }
{
    is_exported(name.text.bytes())
}

// Whether one of the names is exported.
fn has_exported(names: &[Name]) -> bool
    ensures { result ≡ list_any is_exported_name names.now }
{
    for name in names {
        if is_exported_name(name) {
            return true;
        }
    }
    false
}

// Whether one of the names that are declared is exported.
fn declares_exported(form: &Form<'_>) -> bool
    ensures { result ≡ list_any is_exported_name (names_of (form_of form.now)) }
{
    match form {
        Form::Constants(constants) => has_exported(constants.names),
        Form::Variables(spec) => has_exported(spec.names.items()),
        Form::Alias(spec) => is_exported_name(&spec.name),
        Form::Definition(spec) => is_exported_name(&spec.name),
        Form::Function(func) => is_exported_name(&func.name),
        Form::Method(_, _) => false,
    }
}

// Whether a declaration is offered, in a package of the standard library or not, public or not.
fn offers(from_std: bool, public: bool, declaration: &Declaration<'_>) -> bool
    ensures { result ≡ offers from_std public (declaration_of declaration.now) }
{
    if from_std {
        return true;
    }
    if !public {
        return false;
    }
    declares_exported(&declaration.form)
}

fn flags_of_offered(
    alloc: Global,
    from_std: bool,
    public: bool,
    declarations: &[Declaration<'_>],
) -> Result<Vec<bool>, NoMemory>
    ensures { IfOk result (λ flags. flags.items ≡ map (offers from_std public) (declarations_of declarations.now)) }
{
    let mut flags = Vec::new(alloc);
    for declaration in declarations {
        flags.push(offers(from_std, public, declaration))?;
    }
    Ok(flags)
}

/// Flags of the declarations of a package that are offered to other modules: those with an exported name where the package is public,
/// and all where it is of the standard library.
pub fn offered(
    alloc: Global,
    unit: &Unit,
    declarations: &[Declaration<'_>],
) -> Result<Vec<bool>, NoMemory>
    requires { declarations_of declarations.now ≡ all_declarations (source_of unit.now) }
    ensures { IfOk result (λ flags. AreFlagsOf (length (all_declarations (source_of unit.now))) (IsOfferedAt (source_of unit.now)) flags.items) }
{
    let public = is_public(unit);
    let flags = flags_of_offered(alloc, unit.from_std, public, declarations)?;
    Ok(flags)
}
