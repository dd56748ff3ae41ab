//! Laws on what reports tell.
ghost use Rattle.std.specs.Prelude.{◌≡◌};
ghost use Rattle.go_model.specs.worlds.Worlds.{Packages};
ghost use Rattle.api_breaks.specs.declared.broken.Break.{Break};
ghost use Rattle.api_subjects.specs.Told.{IsTold};
ghost use Rattle.api_subjects.specs.declared.broken.Broken.{Broken};

/// What is broken is told in one way.
pub fn one_way()
    ensures { (old new : Packages) (b : Break) (x y : Broken) → IsTold old new b x → IsTold old new b y → x ≡ y }
{}

/// Everything that is broken can be told.
pub fn each_told()
    ensures { (old new : Packages) (b : Break) → (told : Broken) × IsTold old new b told }
{}
