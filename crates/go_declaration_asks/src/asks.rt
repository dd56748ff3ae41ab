//! What a declaration is asked besides what it is given.
ghost use Rattle.std.specs.Prelude.{◌≡◌, ℕ, IfOk};
ghost use Rattle.go_base.specs.Lists.{Each};
ghost use Rattle.go_declaration_asks.specs.Bases.{TellsBase};
ghost use Rattle.go_declarations.specs.Forms.{form_of};
ghost use Rattle.go_rules.specs.Asks.{Meets};
ghost use Rattle.go_selectors.specs.Answers.{Decides};
ghost use Rattle.go_type_terms.specs.Answers.{env_in};
ghost use Rattle.go_typings.specs.DeclarationAsks.{Asks};
ghost use Rattle.go_typings.specs.DeclarationNodes.{nodes};
ghost use Rattle.go_typings.specs.Sources.{PackageSource};

use crate::base::Base;
use crate::forms::form_meets;
use go_asks::meets::meet;
use go_base::memory::NoMemory;
use go_declarations::form::Form;
use go_nodes::declarations::trees_of;
use go_type_terms::go_usability::context::Context;
use std::alloc::Global;

// Whether all that is asked in the types, values and signatures of a declaration is met.
fn nodes_meet(context: &Context<'_>, alloc: Global, form: Form<'_>) -> Result<bool, NoMemory>
    ensures { IfOk result (λ answer. Decides answer (Each (Meets (env_in context.now)) (nodes (form_of form.entry)))) }
{
    let trees = trees_of(alloc, form)?;
    let met = meet(context, alloc, trees)?;
    Ok(met)
}

/// Whether the declaration of a number in a package of this name and of the path of a context's environment
/// meets what it is asked there. For a method it is told of which defined type of the package it is, and whether
/// no other method of that has its name.
pub fn asks(
    context: &Context<'_>,
    alloc: Global,
    package_name: &[u8],
    base: Option<Base<'_>>,
    form: Form<'_>,
) -> Result<bool, NoMemory>
    ensures { IfOk result (λ answer. (u : PackageSource) (number : ℕ) → u.name ≡ package_name.now → u.path ≡ (env_in context.now).path → TellsBase u number (form_of form.entry) base.entry → Decides answer (Asks (env_in context.now) u number (form_of form.entry))) }
{
    if !form_meets(context, alloc, package_name, base, form)? {
        return Ok(false);
    }
    let met = nodes_meet(context, alloc, form)?;
    Ok(met)
}
