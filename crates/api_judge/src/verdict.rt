//! What the judge finds.
ghost use Rattle.std.specs.Prelude.{◌≡◌};
ghost use Rattle.api_judge.specs.Verdicts.{has_break};

use api_subjects::broken::Broken;
use go_base::list::List;

/// What the judge finds on two worlds.
#[derive(Debug, Drop)]
pub struct Verdict {
    /// What is broken, in the order of the bytes that reports print, each once.
    pub breaks: List<Broken>,
    /// Whether the feature lines differ.
    pub changed: bool,
}

impl Verdict {
    /// Whether something is broken.
    pub fn has_break(&self) -> bool
        ensures { result ≡ has_break self.now }
    {
        !self.breaks.items().is_empty()
    }
}
