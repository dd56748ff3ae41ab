//! The law of statements of a client in two environments, of which the new one keeps what the old one gives.
ghost use Rattle.std.specs.Prelude.{◌≡◌, List, Bool, Some};
ghost use Rattle.go_model.specs.declared.types.names.Sel.{Sel};
ghost use Rattle.go_model.specs.declared.types.names.TypeName.{TypeName};
ghost use Rattle.go_rules.specs.Asks.{Meets};
ghost use Rattle.go_rules.specs.Environments.{Env};
ghost use Rattle.go_rules.specs.Nodes.{Node, signature, type};
ghost use Rattle.go_statement_rules.specs.Bodies.{AreTypedOutside, IsTypedBody};
ghost use Rattle.go_statement_rules.specs.Functions.{Enclosing};
ghost use Rattle.go_statement_rules.specs.Scopes.{Scopes};
ghost use Rattle.go_statement_rules.specs.Statements.{AreTyped};
ghost use Rattle.go_syntax.specs.declared.declaration.Func.{Func};
ghost use Rattle.go_syntax.specs.declared.statement.LiteralBlock.{LiteralBlock};
ghost use Rattle.go_syntax.specs.declared.statement.Stmt.{Stmt};
ghost use Rattle.go_syntax.specs.declared.types.ParameterDecl.{ParameterDecl, out-ParameterDecl};
ghost use Rattle.go_type_images.specs.Images.{Naming};
ghost use Rattle.go_type_images.specs.declared.pair.TypePair.{TypePair};
ghost use Rattle.go_client_types.specs.Keeping.{Keeps};
ghost use Rattle.go_client_statements.specs.LocalScopes.{ResultsReached, ScopesReached, enclosing_to, scopes_to};

/// Statements of a client that are typed on the old side, in scopes of types that it reaches, are typed on the new side in the images of the
/// scopes, and leave the images of the scopes that they leave, of types that it reaches. So is the body of a function or method of which the
/// receiver and the signature meet what they are asked, and so are the function literals that stand in a tree outside of bodies that meets it.
pub fn kept_blocks()
    ensures statements { (E F : Env) (r : Naming) (pairs : List TypePair) (std : TypeName → Bool) (is_open : Sel → Bool) → Keeps E F r pairs std is_open → (blocks : List LiteralBlock) (f : Enclosing) (s t : Scopes) (ss : List Stmt)
        → ResultsReached pairs std is_open f → ScopesReached pairs std is_open s → AreTyped E blocks f s ss t → AreTyped F blocks (enclosing_to r f) (scopes_to r s) ss (scopes_to r t) × ScopesReached pairs std is_open t }
    ensures bodies { (E F : Env) (r : Naming) (pairs : List TypePair) (std : TypeName → Bool) (is_open : Sel → Bool) → Keeps E F r pairs std is_open → (blocks : List LiteralBlock) (f : Func)
        → ((p : ParameterDecl) → f.receiver ≡ Some p → Meets E (type (out-ParameterDecl p).type_)) → Meets E (signature f.signature) → IsTypedBody E blocks f → IsTypedBody F blocks f }
    ensures outside { (E F : Env) (r : Naming) (pairs : List TypePair) (std : TypeName → Bool) (is_open : Sel → Bool) → Keeps E F r pairs std is_open → (blocks : List LiteralBlock) (at : Node)
        → Meets E at → AreTypedOutside E blocks at → AreTypedOutside F blocks at }
{}
