//! Laws of ranks.
ghost use Rattle.std.specs.Prelude.{◌≡◌, ◌<◌, ℕ, Bool, true, false, List, length};
ghost use Rattle.go_base.specs.Lists.{Has};
ghost use Rattle.go_graphs.specs.Flags.{AreFlagsOf, is_flagged};
ghost use Rattle.go_graphs.specs.Ranks.{FallsAlong, HasRank, IsWalk};
ghost use Rattle.go_graphs.specs.Walks.{row_of};

/// Some number for each falls along the rows of those that have a rank; where a number falls along the rows of a set that they
/// don't leave, its members have a rank; and just from those that have none an endless walk starts.
pub fn ranks_fall()
    ensures falls { (rows : List (List ℕ)) (flags : List Bool) → AreFlagsOf (length rows) (HasRank rows) flags → (rank : ℕ → ℕ) × FallsAlong rows (is_flagged flags) rank }
    ensures ranked { (rows : List (List ℕ)) (S : ℕ → Bool) (rank : ℕ → ℕ) → ((n m : ℕ) → S n ≡ true → Has (row_of rows n) m → S m ≡ true) → FallsAlong rows S rank → (n : ℕ) → S n ≡ true → HasRank rows n }
    ensures ends { (rows : List (List ℕ)) (at : ℕ → ℕ) → IsWalk rows at → HasRank rows (at 0) → ⊥ }
    ensures endless { (rows : List (List ℕ)) (flags : List Bool) (n : ℕ) → AreFlagsOf (length rows) (HasRank rows) flags → n < length rows → is_flagged flags n ≡ false → (at : ℕ → ℕ) × (at 0 ≡ n) × IsWalk rows at }
{}
