//! Laws on breaks.
ghost use Rattle.go_model.specs.worlds.Worlds.{Packages};
ghost use Rattle.api_correspond.specs.Rules.{Compatible};
ghost use Rattle.api_breaks.specs.Breaks.{IsBreak};
ghost use Rattle.api_breaks.specs.declared.broken.Break.{Break};

/// Where a new world keeps all of an old one, nothing is broken.
pub fn no_break()
    ensures { (old new : Packages) → Compatible old new → (b : Break) → IsBreak old new b → ⊥ }
{}
