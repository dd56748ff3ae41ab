//! Laws of typed statements and bodies, and of the place of those that aren't.
ghost use Rattle.std.specs.Prelude.{◌≡◌, ℕ, List, map};
ghost use Rattle.go_base.specs.Lists.{Once};
ghost use Rattle.go_typings.specs.go_rules.Environments.{Env};
ghost use Rattle.go_typings.specs.go_rules.Growth.{Grows};
ghost use Rattle.go_typings.specs.go_rules.Nodes.{Node};
ghost use Rattle.go_statement_rules.specs.Bodies.{AreTypedOutside, IsTypedBody, IsTypedRun};
ghost use Rattle.go_statement_rules.specs.Functions.{Enclosing, EntersBody, EntersFunction, IsBlockAt, Run};
ghost use Rattle.go_statement_rules.specs.Places.{IsUntypedPlace};
ghost use Rattle.go_statement_rules.specs.Scopes.{Scopes};
ghost use Rattle.go_statement_rules.specs.Statements.{AreTyped, IsTypedFunction};
ghost use Rattle.go_syntax.specs.declared.body.BodyRange.{BodyRange};
ghost use Rattle.go_syntax.specs.declared.declaration.Func.{Func};
ghost use Rattle.go_syntax.specs.declared.statement.LiteralBlock.{LiteralBlock};
ghost use Rattle.go_syntax.specs.declared.statement.Stmt.{Stmt};
ghost use Rattle.go_syntax.specs.declared.types.Signature.{Signature as Sig};
ghost use Rattle.go_syntax.specs.grammar.ParsedBodies.{HasBlock, start_of_block};

/// Statements leave one list of scopes.
pub fn one_scope()
    ensures { (E : Env) (blocks : List LiteralBlock) (r : Enclosing) (s t u : Scopes) (ss : List Stmt) → AreTyped E blocks r s ss t → AreTyped E blocks r s ss u → t ≡ u }
{}

/// What is typed in an environment is typed in one that has what it has, may have more and bars no more: so also without
/// the profile's flag.
pub fn grow()
    ensures statements { (E F : Env) (blocks : List LiteralBlock) (r : Enclosing) (s t : Scopes) (ss : List Stmt) → Grows E F → AreTyped E blocks r s ss t → AreTyped F blocks r s ss t }
    ensures bodies { (E F : Env) (blocks : List LiteralBlock) (f : Func) → Grows E F → IsTypedBody E blocks f → IsTypedBody F blocks f }
    ensures outside { (E F : Env) (blocks : List LiteralBlock) (at : Node) → Grows E F → AreTypedOutside E blocks at → AreTypedOutside F blocks at }
{}

/// What is typed with the blocks of a list is typed with those of a list that has them too.
pub fn more_blocks()
    ensures statements { (E : Env) (a b : List LiteralBlock) (r : Enclosing) (s t : Scopes) (ss : List Stmt) → ((start : ℕ) (xs : List Stmt) → IsBlockAt a start xs → IsBlockAt b start xs) → AreTyped E a r s ss t → AreTyped E b r s ss t }
    ensures bodies { (E : Env) (a b : List LiteralBlock) (f : Func) → ((start : ℕ) (xs : List Stmt) → IsBlockAt a start xs → IsBlockAt b start xs) → IsTypedBody E a f → IsTypedBody E b f }
    ensures outside { (E : Env) (a b : List LiteralBlock) (at : Node) → ((start : ℕ) (xs : List Stmt) → IsBlockAt a start xs → IsBlockAt b start xs) → AreTypedOutside E a at → AreTypedOutside E b at }
{}

/// A block that is found by its place is of the list; and one of the list is found by its place, where no place stands twice
/// in it, as in a parsed body.
pub fn found_block()
    ensures of_list { (blocks : List LiteralBlock) (start : ℕ) (ss : List Stmt) → IsBlockAt blocks start ss → HasBlock blocks start ss }
    ensures by_place { (blocks : List LiteralBlock) (start : ℕ) (ss : List Stmt) → Once (map start_of_block blocks) → HasBlock blocks start ss → IsBlockAt blocks start ss }
{}

/// A body, and a function literal, has one run of statements: it is typed exactly where that is.
pub fn one_run()
    ensures body { (E : Env) (blocks : List LiteralBlock) (f : Func) (v w : Run) → EntersBody E blocks f v → EntersBody E blocks f w → v ≡ w }
    ensures literal { (E : Env) (blocks : List LiteralBlock) (r : Enclosing) (s : Scopes) (g : Sig) (b : BodyRange) (v w : Run) → EntersFunction E blocks r s g b v → EntersFunction E blocks r s g b w → v ≡ w }
    ensures typed_body { (E : Env) (blocks : List LiteralBlock) (f : Func) (w : Run) → EntersBody E blocks f w → IsTypedBody E blocks f → IsTypedRun E blocks w }
    ensures typed_literal { (E : Env) (blocks : List LiteralBlock) (r : Enclosing) (s : Scopes) (g : Sig) (b : BodyRange) (w : Run) → EntersFunction E blocks r s g b w → IsTypedFunction E blocks r s g b → IsTypedRun E blocks w }
{}

/// Statements are typed, or have exactly one untyped place: not two, not one where they are typed, and it can't be that they
/// are untyped and have none.
pub fn one_answer()
    ensures one { (E : Env) (blocks : List LiteralBlock) (w : Run) (p q : ℕ) → IsUntypedPlace E blocks w p → IsUntypedPlace E blocks w q → p ≡ q }
    ensures not_both { (E : Env) (blocks : List LiteralBlock) (w : Run) (p : ℕ) → IsTypedRun E blocks w → IsUntypedPlace E blocks w p → ⊥ }
    ensures not_neither { (E : Env) (blocks : List LiteralBlock) (w : Run) → (IsTypedRun E blocks w → ⊥) → ((p : ℕ) → IsUntypedPlace E blocks w p → ⊥) → ⊥ }
{}
