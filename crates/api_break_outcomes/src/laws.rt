//! Laws of breaks and verdicts.
ghost use Rattle.std.specs.Prelude.{List};
ghost use Rattle.api_breaks.specs.Breaks.{IsBreak};
ghost use Rattle.api_judge.specs.Verdicts.{AreBreaks, IsVerdict};
ghost use Rattle.api_judge.specs.declared.verdict.Verdict.{Verdict};
ghost use Rattle.api_subjects.specs.declared.broken.Broken.{Broken};
ghost use Rattle.go_existence.specs.Existence.{AreFinite, NotNone};
ghost use Rattle.go_model.specs.worlds.Worlds.{Packages};

use api_subjects::laws::{each_told, one_way};

/// Finitely much is broken where one world takes the place of another.
pub fn breaks_finite()
    ensures { (old new : Packages) → AreFinite (IsBreak old new) }
{}

/// What is broken, as it is told, has a list.
pub fn breaks_listed()
    ensures { (old new : Packages) → NotNone ((breaks : List Broken) × AreBreaks old new breaks) }
{
    one_way();
}

/// One world in the place of another has a verdict.
pub fn verdict_exists()
    ensures { (old new : Packages) → NotNone ((v : Verdict) × IsVerdict old new v) }
{
    one_way();
    each_told();
}
