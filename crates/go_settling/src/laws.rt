//! Laws of what is settled.
ghost use Rattle.go_typings.specs.Sources.{PackageSource, Setting};
ghost use Rattle.go_settling.specs.Settling.{AreFromBelow, no_entries};

/// Where nothing is had, all that is had is had from below.
pub fn nothing_had()
    ensures { (s : Setting) (u : PackageSource) → AreFromBelow s u no_entries }
{}
