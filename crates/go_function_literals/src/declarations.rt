//! The function literals of the declarations of a file that stand in no body, and the bodies of its functions.
ghost use Rattle.std.specs.Prelude.{◌≡◌, ◌++◌, map, IfOk, OnOk};
ghost use Rattle.go_function_literals.specs.DeclarationPlaces as places;
ghost use Rattle.go_function_literals.specs.DeclarationPlaces.{decl_places, type_spec_places};
ghost use Rattle.go_function_literals.specs.Places.{joined};

use crate::expressions::{add_consts, add_literal, add_signature, add_type, add_vars};
use crate::place::LiteralPlace;
use go_base::list::List;
use go_base::memory::NoMemory;
use go_syntax::body::BodyRange;
use go_syntax::declaration::{Decl, File, Func, TypeSpec};
use go_syntax::types::ParameterDecl;
use std::alloc::Global;

fn add_type_specs(
    found: &mut List<LiteralPlace>,
    specs: &[TypeSpec],
    height: usize,
) -> Result<(), NoMemory>
    ensures { OnOk result (found.new ≡ found.old ++ joined (map type_spec_places specs.now) height) }
{
    for spec in specs {
        add_type(found, &spec.type_, height)?;
    }
    Ok(())
}

fn add_receiver(
    found: &mut List<LiteralPlace>,
    receiver: &Option<ParameterDecl>,
    height: usize,
) -> Result<(), NoMemory>
    ensures { OnOk result (found.new ≡ found.old ++ places.receiver_places receiver.now height) }
{
    match receiver {
        None => Ok(()),
        Some(receiver) => add_type(found, &receiver.type_, height),
    }
}

fn add_body(
    found: &mut List<LiteralPlace>,
    body: Option<BodyRange>,
    height: usize,
) -> Result<(), NoMemory>
    ensures { OnOk result (found.new ≡ found.old ++ places.body_places body height) }
{
    match body {
        None => Ok(()),
        Some(body) => add_literal(found, body, height),
    }
}

fn add_func(found: &mut List<LiteralPlace>, func: &Func, height: usize) -> Result<(), NoMemory>
    ensures { OnOk result (found.new ≡ found.old ++ places.func_places func.now height) }
{
    add_receiver(found, &func.receiver, height)?;
    add_signature(found, &func.signature, height)?;
    add_body(found, func.body, height)
}

fn add_decl(found: &mut List<LiteralPlace>, decl: &Decl, height: usize) -> Result<(), NoMemory>
    ensures { OnOk result (found.new ≡ found.old ++ decl_places decl.now height) }
{
    match decl {
        Decl::ConstGroup(specs) => add_consts(found, specs.items(), height),
        Decl::VarGroup(specs) => add_vars(found, specs.items(), height),
        Decl::TypeGroup(specs) => add_type_specs(found, specs.items(), height),
        Decl::FuncDecl(func) => add_func(found, func.value(), height),
    }
}

fn add_decls(found: &mut List<LiteralPlace>, decls: &[Decl], height: usize) -> Result<(), NoMemory>
    ensures { OnOk result (found.new ≡ found.old ++ joined (map decl_places decls.now) height) }
{
    for decl in decls {
        add_decl(found, decl, height)?;
    }
    Ok(())
}

/// The bodies of a file that stand in no other, in order.
pub fn bodies_of(alloc: Global, file: &File, height: usize) -> Result<List<LiteralPlace>, NoMemory>
    ensures { IfOk result (λ found. found ≡ places.file_places file.now height) }
{
    let mut found = List::new(alloc);
    add_decls(&mut found, file.decls.items(), height)?;
    Ok(found)
}
