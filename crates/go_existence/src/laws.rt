//! Laws of lists that have to exist.
ghost use Rattle.std.specs.Prelude.{◌↔◌, ℕ, List};
ghost use Rattle.go_base.specs.Lists.{Ascending, Has};

/// Texts are those of a list in the order of bytes, in which each stands once.
pub fn sorted_texts()
    ensures { (texts : List (List ℕ)) → (xs : List (List ℕ)) × Ascending xs × ((t : List ℕ) → Has xs t ↔ Has texts t) }
{}
