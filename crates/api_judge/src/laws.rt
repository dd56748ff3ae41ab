//! Laws of the definitions: what the judge finds is one thing.
ghost use Rattle.std.specs.Prelude.{◌≡◌, map};
ghost use Rattle.api_judge.specs.Verdicts.{IsVerdict};
ghost use Rattle.api_judge.specs.declared.verdict.Verdict.{Verdict as Found};
ghost use Rattle.api_subjects.specs.Told.{printed};
ghost use Rattle.go_model.specs.worlds.Worlds.{Packages};

/// On two worlds verdicts show the same: the same texts in the same order, and whether features differ.
pub fn one_verdict()
    ensures { (old new : Packages) (v w : Found) → IsVerdict old new v → IsVerdict old new w → (map printed v.breaks ≡ map printed w.breaks) × (v.changed ≡ w.changed) }
{}
