//! Laws of names, operators and indices of a client in two environments, of which the new one keeps what the old one gives.
ghost use Rattle.std.specs.Prelude.{ℕ, List, Bool, Option, map};
ghost use Rattle.go_base.specs.Lists.{Has as HasItem};
ghost use Rattle.go_base.specs.declared.operator.CompareOp.{CompareOp};
ghost use Rattle.go_model.specs.declared.constants.value.BinaryOp.{BinaryOp};
ghost use Rattle.go_model.specs.declared.constants.value.Value.{Value};
ghost use Rattle.go_model.specs.declared.types.names.Sel.{Sel};
ghost use Rattle.go_model.specs.declared.types.names.TypeName.{TypeName};
ghost use Rattle.go_model.specs.declared.types.term.Term.{Term};
ghost use Rattle.go_model.specs.types.Underlying.{under};
ghost use Rattle.go_rules.specs.Environments.{Env};
ghost use Rattle.go_rules.specs.Expressions.{ArgumentsFit, Computes, Converts, Denotes, DenotesImported, Equates, IsArray, IsComparison, IsCount, IsIndex, IsPrinted, IsString, Makes, MayHold, ProductComputes, ProductKind, Slices};
ghost use Rattle.go_rules.specs.declared.operand.Operand.{Operand};
ghost use Rattle.go_syntax.specs.declared.name.Name.{Name};
ghost use Rattle.go_type_images.specs.Images.{Naming, image, same_sels};
ghost use Rattle.go_type_images.specs.declared.pair.TypePair.{TypePair};
ghost use Rattle.go_client_types.specs.Following.{After};
ghost use Rattle.go_client_types.specs.Keeping.{Keeps};
ghost use Rattle.go_client_types.specs.Reached.{IsReached};
ghost use Rattle.go_client_operators.specs.FollowedOperands.{AreAfter};

/// What a name denotes on the old side follows on the new one, and so does what a name of an imported package denotes.
pub fn kept_names()
    ensures own { (E F : Env) (r : Naming) (pairs : List TypePair) (std : TypeName → Bool) (is_open : Sel → Bool) → Keeps E F r pairs std is_open → (n : Name) (o : Operand) → Denotes E n o
        → (p : Operand) × Denotes F n p × After r pairs std is_open o p }
    ensures imported { (E F : Env) (r : Naming) (pairs : List TypePair) (std : TypeName → Bool) (is_open : Sel → Bool) → Keeps E F r pairs std is_open → (q n : Name) (o : Operand) → DenotesImported E q n o
        → (p : Operand) × DenotesImported F q n p × After r pairs std is_open o p }
{}

/// An operator gives of operands of the new side what follows what it gave of those of the old one: of two that match, of a product or a
/// shift, and of a comparison.
pub fn kept_operators()
    ensures computes { (E F : Env) (r : Naming) (pairs : List TypePair) (std : TypeName → Bool) (is_open : Sel → Bool) → Keeps E F r pairs std is_open → (op : BinaryOp) (left right new_left new_right result : Operand)
        → After r pairs std is_open left new_left → After r pairs std is_open right new_right → Computes E op left right result → (p : Operand) × Computes F op new_left new_right p × After r pairs std is_open result p }
    ensures product { (E F : Env) (r : Naming) (pairs : List TypePair) (std : TypeName → Bool) (is_open : Sel → Bool) → Keeps E F r pairs std is_open → (kind : ProductKind) (left right new_left new_right result : Operand)
        → After r pairs std is_open left new_left → After r pairs std is_open right new_right → ProductComputes E kind left right result → (p : Operand) × ProductComputes F kind new_left new_right p × After r pairs std is_open result p }
    ensures comparison { (E F : Env) (r : Naming) (pairs : List TypePair) (std : TypeName → Bool) (is_open : Sel → Bool) → Keeps E F r pairs std is_open → (op : CompareOp) (left right new_left new_right result : Operand)
        → After r pairs std is_open left new_left → After r pairs std is_open right new_right → IsComparison E op left right result → (p : Operand) × IsComparison F op new_left new_right p × After r pairs std is_open result p }
{}

/// An operand that counts a shift, is an index or a string does so on the new side, with the same value, and an array or a pointer to one
/// has its length there.
pub fn kept_operands()
    ensures count { (E F : Env) (r : Naming) (pairs : List TypePair) (std : TypeName → Bool) (is_open : Sel → Bool) → Keeps E F r pairs std is_open → (o p : Operand) (v : Option Value) → After r pairs std is_open o p → IsCount E o v → IsCount F p v }
    ensures index { (E F : Env) (r : Naming) (pairs : List TypePair) (std : TypeName → Bool) (is_open : Sel → Bool) → Keeps E F r pairs std is_open → (o p : Operand) (n : Option ℕ) → After r pairs std is_open o p → IsIndex E o n → IsIndex F p n }
    ensures string { (E F : Env) (r : Naming) (pairs : List TypePair) (std : TypeName → Bool) (is_open : Sel → Bool) → Keeps E F r pairs std is_open → (o p : Operand) (n : Option ℕ) → After r pairs std is_open o p → IsString E o n → IsString F p n }
    ensures array { (E F : Env) (r : Naming) (pairs : List TypePair) (std : TypeName → Bool) (is_open : Sel → Bool) → Keeps E F r pairs std is_open → (t e : Term) (pointer : Bool) (n : ℕ) → IsReached pairs std is_open t → IsArray E t pointer n e
        → IsArray F (image r same_sels t) pointer n (image r same_sels e) × IsReached pairs std is_open e }
    ensures equates { (E F : Env) (r : Naming) (pairs : List TypePair) (std : TypeName → Bool) (is_open : Sel → Bool) → Keeps E F r pairs std is_open → (left right new_left new_right : Operand)
        → After r pairs std is_open left new_left → After r pairs std is_open right new_right → Equates E left right → Equates F new_left new_right }
{}

/// A conversion and a slice expression give on the new side what follows what they gave on the old one. What a value of an interface type may
/// be, it may be there; a type takes as many sizes in `make`; what can be printed can be; and arguments may be passed where they could.
pub fn kept_calls()
    ensures converts { (E F : Env) (r : Naming) (pairs : List TypePair) (std : TypeName → Bool) (is_open : Sel → Bool) → Keeps E F r pairs std is_open → (o p result : Operand) (t : Term) → After r pairs std is_open o p → IsReached pairs std is_open t → Converts E o t result
        → (q : Operand) × Converts F p (image r same_sels t) q × After r pairs std is_open result q }
    ensures slices { (E F : Env) (r : Naming) (pairs : List TypePair) (std : TypeName → Bool) (is_open : Sel → Bool) → Keeps E F r pairs std is_open → (simple : Bool) (o p result : Operand) (n : Option ℕ) → After r pairs std is_open o p → Slices E simple o n result → (q : Operand) × Slices F simple p n q × After r pairs std is_open result q }
    ensures may_hold { (E F : Env) (r : Naming) (pairs : List TypePair) (std : TypeName → Bool) (is_open : Sel → Bool) → Keeps E F r pairs std is_open → (t u : Term) → IsReached pairs std is_open t → IsReached pairs std is_open u → MayHold E t u → MayHold F (image r same_sels t) (image r same_sels u) }
    ensures makes { (E F : Env) (r : Naming) (pairs : List TypePair) (std : TypeName → Bool) (is_open : Sel → Bool) → Keeps E F r pairs std is_open → (t : Term) (n : ℕ) → IsReached pairs std is_open t → Makes (under E.table t) n → Makes (under F.table (image r same_sels t)) n }
    ensures printed { (E F : Env) (r : Naming) (pairs : List TypePair) (std : TypeName → Bool) (is_open : Sel → Bool) → Keeps E F r pairs std is_open → (o p : Operand) → After r pairs std is_open o p → IsPrinted E o → IsPrinted F p }
    ensures arguments { (E F : Env) (r : Naming) (pairs : List TypePair) (std : TypeName → Bool) (is_open : Sel → Bool) → Keeps E F r pairs std is_open → (variadic dots : Bool) (ts : List Term) (os ps : List Operand) → AreAfter r pairs std is_open os ps → ((t : Term) → HasItem ts t → IsReached pairs std is_open t)
        → ArgumentsFit E variadic dots ts os → ArgumentsFit F variadic dots (map (image r same_sels) ts) ps }
{}
