//! Laws of the definitions: at most one release follows.
ghost use Rattle.std.specs.Prelude.{◌≡◌, Option};
ghost use Rattle.api_advice.specs.Advice.{IsNext};
ghost use Rattle.api_advice.specs.declared.class.Class.{Class};
ghost use Rattle.api_advice.specs.declared.release.Release.{Release};

/// After a change of a class at most one release follows, or none does.
pub fn one_next()
    ensures { (r : Release) (c : Class) (a b : Option Release) → IsNext r c a → IsNext r c b → a ≡ b }
{}
