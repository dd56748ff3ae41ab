//! From which places that of statements comes.
ghost use Rattle.std.specs.Prelude.{◌≤◌, ℕ, List, [], ◌∷◌, Option};
ghost use Rattle.go_rules.specs.Environments.{Env};
ghost use Rattle.go_statement_rules.specs.Bodies.{IsTypedRun};
ghost use Rattle.go_statement_rules.specs.Contexts.{Inside};
ghost use Rattle.go_statement_rules.specs.Functions.{Enclosing, Run, run};
ghost use Rattle.go_statement_rules.specs.Places.{IsUntypedPlace};
ghost use Rattle.go_statement_rules.specs.Scopes.{Scopes};
ghost use Rattle.go_statement_rules.specs.Statements.{KindLayer, Leaves, kind_of};
ghost use Rattle.go_syntax.specs.declared.statement.LiteralBlock.{LiteralBlock};
ghost use Rattle.go_syntax.specs.declared.statement.Stmt.{Stmt, out-Stmt};
ghost use Rattle.go_untyped_places.specs.Parts.{IsPart};
ghost use Rattle.go_untyped_places.specs.Surveys.{Surveyed, place_or};

/// The untyped place of a statement that isn't typed is that of it and whatever follows it.
pub fn first_untyped()
    ensures { (E : Env) (blocks : List LiteralBlock) (r : Enclosing) (s : Scopes) (x : Stmt) (xs : List Stmt) (p : ℕ) → ((t : Scopes) → Leaves E blocks r s (kind_of x) t → ⊥)
        → IsUntypedPlace E blocks (run r s (x ∷ [])) p → IsUntypedPlace E blocks (run r s (x ∷ xs)) p }
{}

/// The untyped place of statements behind one that is typed is that of it and them.
pub fn later_untyped()
    ensures { (E : Env) (blocks : List LiteralBlock) (r : Enclosing) (s t : Scopes) (x : Stmt) (xs : List Stmt) (p : ℕ) → Leaves E blocks r s (kind_of x) t
        → IsUntypedPlace E blocks (run r t xs) p → IsUntypedPlace E blocks (run r s (x ∷ xs)) p }
{}

/// A statement that isn't typed, while all that stands inside of it is, is itself the place.
pub fn itself_untyped()
    ensures { (E : Env) (blocks : List LiteralBlock) (r : Enclosing) (s : Scopes) (x : Stmt) → ((t : Scopes) → Leaves E blocks r s (kind_of x) t → ⊥)
        → ((v : Run) → Inside E blocks r s (kind_of x) v → IsTypedRun E blocks v) → IsUntypedPlace E blocks (run r s (x ∷ [])) (out-Stmt x).start }
{}

/// Else the place is the least of those of what stands inside of it; and it isn't typed.
pub fn inside_untyped()
    ensures place { (E : Env) (blocks : List LiteralBlock) (r : Enclosing) (s : Scopes) (x : Stmt) (v : Run) (p : ℕ) → Inside E blocks r s (kind_of x) v → IsUntypedPlace E blocks v p
        → ((w : Run) (q : ℕ) → Inside E blocks r s (kind_of x) w → IsUntypedPlace E blocks w q → p ≤ q) → IsUntypedPlace E blocks (run r s (x ∷ [])) p }
    ensures untyped { (E : Env) (blocks : List LiteralBlock) (r : Enclosing) (s t : Scopes) (x : Stmt) (v : Run) (p : ℕ) → Inside E blocks r s (kind_of x) v → IsUntypedPlace E blocks v p
        → Leaves E blocks r s (kind_of x) t → ⊥ }
{}

/// So the place of a statement that isn't typed is the least that is found inside of it, else its own.
pub fn surveyed()
    ensures { (E : Env) (blocks : List LiteralBlock) (r : Enclosing) (s : Scopes) (x : Stmt) (a : Option ℕ) → ((t : Scopes) → Leaves E blocks r s (kind_of x) t → ⊥)
        → Surveyed E blocks (Inside E blocks r s (kind_of x)) a → IsUntypedPlace E blocks (run r s (x ∷ [])) (place_or (out-Stmt x).start a) }
{}

/// The runs inside of a statement are its parts, by its kind.
pub fn parts()
    ensures only { (E : Env) (blocks : List LiteralBlock) (r : Enclosing) (s : Scopes) (k : KindLayer) (v : Run) → Inside E blocks r s k v → IsPart E blocks r s k v }
    ensures each { (E : Env) (blocks : List LiteralBlock) (r : Enclosing) (s : Scopes) (k : KindLayer) (v : Run) → IsPart E blocks r s k v → Inside E blocks r s k v }
{}
