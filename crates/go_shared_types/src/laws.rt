//! Laws of tables and environments that share types: they keep them for a client.
ghost use Rattle.std.specs.Prelude.{Bool, []};
ghost use Rattle.go_model.specs.declared.types.names.Sel.{Sel};
ghost use Rattle.go_model.specs.declared.types.names.TypeName.{TypeName};
ghost use Rattle.go_model.specs.types.Tables.{Table};
ghost use Rattle.go_model.specs.types.Terms.{is_error};
ghost use Rattle.go_rules.specs.Environments.{Env};
ghost use Rattle.go_client_types.specs.Keeping.{Keeps};
ghost use Rattle.go_client_types.specs.Preserving.{Preserves};
ghost use Rattle.go_shared_types.specs.Scopes.{SharesScope};
ghost use Rattle.go_shared_types.specs.Sharing.{IsShared, is_exported_sel};

/// Tables that share the types of a set of names preserve them, each as it is. Any two tables so preserve the predeclared types,
/// and what is made of them.
pub fn shared_types()
    ensures shared { (T U : Table) (std : TypeName → Bool) (is_open : Sel → Bool) → IsShared T U std is_open → Preserves T U (λ n. n) [] std is_open }
    ensures predeclared { (T U : Table) → Preserves T U (λ n. n) [] is_error is_exported_sel }
{}

/// Where a client has no type of its own yet, and its names mean the same in two environments whose tables share types, the one keeps
/// the other.
pub fn shared_scopes()
    ensures { (E F : Env) (std : TypeName → Bool) (is_open : Sel → Bool) → SharesScope E F std is_open → Keeps E F (λ n. n) [] std is_open }
{}
