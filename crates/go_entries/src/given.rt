//! What a declaration is given in the environment of a context.
ghost use Rattle.std.specs.Prelude.{List};
ghost use Rattle.go_declarations.specs.Forms.{form_of};
ghost use Rattle.go_entries.specs.Entries.{TellsQualified, entry_of};
ghost use Rattle.go_type_terms.specs.Answers.{Tells, env_in};
ghost use Rattle.go_typings.specs.DeclarationRules.{Gives};
ghost use Rattle.go_typings.specs.Declarations.{Declaration};

use crate::constants::constants;
use crate::entry::{Entry, objects, signed, underlying};
use crate::functions::{function, signature};
use crate::types::{alias, definition};
use crate::variables::variables;
use go_declarations::form::Form;
use go_expr::go_usability::context::Context;
use go_type_terms::error::ExprError;
use std::alloc::Global;

/// What a declaration is given in the environment of a context; `Untyped` exactly where it is given nothing. For the definition
/// of a type in a client of the profile it is told whether the type is written as a name that after the aliases of the
/// package is one of another package.
pub fn entry(
    context: &Context<'_>,
    alloc: Global,
    qualified: bool,
    form: &Form<'_>,
) -> Result<Entry, ExprError>
    ensures { (ds : List Declaration) → TellsQualified (env_in context.now) ds (form_of form.now) qualified → Tells (λ entry. Gives (env_in context.now) ds (form_of form.now) (entry_of entry)) result }
{
    match form {
        Form::Constants(spec) => objects(constants(context, alloc, spec)),
        Form::Variables(spec) => objects(variables(context, alloc, spec)),
        Form::Alias(spec) => objects(alias(context, alloc, &spec.type_)),
        Form::Definition(spec) => { underlying(definition(context, alloc, &spec.type_, qualified)) }
        Form::Function(func) => objects(function(context, alloc, &func.signature)),
        Form::Method(_, func) => signed(signature(context, alloc, &func.signature)),
    }
}
