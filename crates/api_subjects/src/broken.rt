//! What is broken, as reports tell it.
ghost use Rattle.std.specs.Prelude.{◌≡◌, IfOk};
ghost use Rattle.api_subjects.specs.Told.{printed};

use crate::rule::Rule;
use api_lines::printed::Printable;
use go_base::memory::NoMemory;
use go_base::text::Text;
use std::alloc::Global;

/// What is broken, as reports tell it.
#[derive(Debug, Drop)]
pub struct Broken {
    /// The path of the package, or the exported object behind the path of its package and a dot.
    pub owner: Text,
    /// The rule that isn't kept.
    pub rule: Rule,
    /// What it isn't kept of: a name, types, or `-` where there is nothing more to say.
    pub subject: Text,
}

impl Broken {
    /// `OWNER RULE SUBJECT`.
    pub fn printed(&self, alloc: Global) -> Result<Text, NoMemory>
        ensures { IfOk result (λ text. text ≡ printed self.now) }
    {
        let mut text = Vec::from_slice(alloc, self.owner.bytes())?;
        text.extend_from_slice(b" ")?;
        text.extend_from_slice(self.rule.name())?;
        text.extend_from_slice(b" ")?;
        text.extend_from_slice(self.subject.bytes())?;
        Text::from_vec(alloc, text)
    }
}

impl Printable for Broken {
    ghost text = { printed };

    fn text(&self, alloc: Global) -> Result<Text, NoMemory> {
        self.printed(alloc)
    }
}
