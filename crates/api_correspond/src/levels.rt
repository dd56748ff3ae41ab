//! What types have at their outermost level, and underneath in a world.
ghost use Rattle.std.specs.Prelude.{◌≡◌, IfOk};
ghost use Rattle.go_model.specs.types.MethodSets.{IsMethodSet};
ghost use Rattle.go_model.specs.types.Terms.{error_type};
ghost use Rattle.go_model.specs.types.Underlying.{under, fields_of, methods_of};
ghost use Rattle.go_model.specs.declared.types.term.Term.{out-Term};
ghost use Rattle.go_type_images.specs.Levels.{struct_layer, interface_layer};
ghost use Rattle.api_correspond.specs.Publics.{types_of};

use go_base::list::List;
use go_base::memory::NoMemory;
use go_model::types::package::Defined;
use go_model::types::term::{Field, Method, Term};
use go_model::types::world::World;
use go_selectors::lookup::Lookup;
use std::alloc::Global;

/// Whether a type is a struct type.
pub fn is_struct(term: &Term) -> bool
    ensures { result ≡ struct_layer (out-Term term.now) }
{
    matches!(term, Term::Struct(_))
}

/// Whether a type is an interface type.
pub fn is_interface(term: &Term) -> bool
    ensures { result ≡ interface_layer (out-Term term.now) }
{
    matches!(term, Term::Interface(_))
}

/// The fields of a struct type; none of another one.
pub fn fields_of(term: &Term) -> &[Field]
    ensures { result.now ≡ fields_of (out-Term term.now) }
{
    match term {
        Term::Struct(fields) => fields.items(),
        _ => &[],
    }
}

/// The methods of an interface type; none of another one.
pub fn methods_of(term: &Term) -> &[Method]
    ensures { result.now ≡ methods_of (out-Term term.now) }
{
    match term {
        Term::Interface(methods) => methods.items(),
        _ => &[],
    }
}

/// What is underneath a type in a world.
pub fn under<'a>(error: &'a Defined, world: &'a World, term: &'a Term) -> &'a Term
    requires { error.now ≡ error_type }
    ensures { out-Term result.now ≡ under (types_of world.now) term.now }
{
    Lookup::new(world, error).under(term)
}

/// The method set of a type in a world.
pub fn method_set<'a>(
    alloc: Global,
    error: &'a Defined,
    world: &'a World,
    term: &'a Term,
) -> Result<List<Method>, NoMemory>
    requires { error.now ≡ error_type }
    ensures { IfOk result (IsMethodSet (types_of world.now) term.now) }
{
    let methods = Lookup::new(world, error).method_set(alloc, term)?;
    Ok(methods)
}
