//! Laws of the definitions.
ghost use Rattle.std.specs.Prelude.{◌≡◌, List, ℕ};
ghost use Rattle.go_imports.specs.Orders.{IsCanonical, IsOnCycle};

/// Packages have at most one canonical order.
pub fn one_order()
    ensures { (graph : List (List ℕ)) (a b : List ℕ) → IsCanonical graph a → IsCanonical graph b → a ≡ b }
{}

/// Packages that have a canonical order have no cycle.
pub fn ordered_without_cycle()
    ensures { (graph : List (List ℕ)) (order : List ℕ) (n : ℕ) → IsCanonical graph order → IsOnCycle graph n → ⊥ }
{}
