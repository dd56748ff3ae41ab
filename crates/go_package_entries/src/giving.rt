//! What a declaration is given under what is had of its package.
ghost use Rattle.std.specs.Prelude.{◌≡◌};
ghost use Rattle.go_declarations.specs.Forms.{form_of};
ghost use Rattle.go_declarations.specs.Listings.{declaration_of, declarations_of};
ghost use Rattle.go_declared.specs.AliasEnds.{AreEnds};
ghost use Rattle.go_declared.specs.NameTables.{AreDeclared};
ghost use Rattle.go_entries.specs.Entries.{TellsQualified, entry_of};
ghost use Rattle.go_model.specs.types.Terms.{error_type};
ghost use Rattle.go_package_scopes.specs.PackageScopes.{at_declaration};
ghost use Rattle.go_rules.specs.Environments.{Env as Environment};
ghost use Rattle.go_rules.specs.Scopes.{env_of};
ghost use Rattle.go_type_terms.specs.Answers.{Tells};
ghost use Rattle.go_typings.specs.DeclarationRules.{Gives};

use crate::tables::Tables;
use go_declarations::form::Form;
use go_declarations::listing::Declaration;
use go_declared::bases::is_qualified;
use go_entries::entry::Entry;
use go_entries::given::entry;
use go_model::types::package::Defined;
use go_rules::env::Env;
use go_type_terms::error::ExprError;
use go_type_terms::go_usability::context::Context;
use std::alloc::Global;

// Whether a type is defined by a name that after the aliases of the package is one of another package.
fn is_qualified_form(tables: &Tables<'_>, form: &Form<'_>) -> bool
    requires names { AreDeclared (declarations_of tables.now.declarations.now) tables.now.names.now }
    requires ends { AreEnds (declarations_of tables.now.declarations.now) tables.now.ends.items }
    ensures { (E : Environment) → TellsQualified E (declarations_of tables.now.declarations.now) (form_of form.now) result }
{
    match form {
        Form::Definition(spec) => is_qualified(tables.names, &tables.ends, &spec.type_),
        _ => false,
    }
}

/// What a declaration is given where it stands.
pub(crate) fn give(
    env: &mut Env<'_>,
    alloc: Global,
    error: &Defined,
    tables: &Tables<'_>,
    declaration: &Declaration<'_>,
) -> Result<Entry, ExprError>
    requires error { error.now ≡ error_type }
    requires names { AreDeclared (declarations_of tables.now.declarations.now) tables.now.names.now }
    requires ends { AreEnds (declarations_of tables.now.declarations.now) tables.now.ends.items }
    ensures moved { env.new ≡ at_declaration env.old (declaration_of declaration.now) }
    ensures given { Tells (λ x. Gives (env_of (at_declaration env.old (declaration_of declaration.now))) (declarations_of tables.now.declarations.now) (form_of declaration.now.form) (entry_of x)) result }
{
    env.turn_to(declaration.file);
    env.set_iota(declaration.form.iota());
    let qualified = is_qualified_form(tables, &declaration.form);
    let context = Context::new(env, error);
    entry(&context, alloc, qualified, &declaration.form)
}
