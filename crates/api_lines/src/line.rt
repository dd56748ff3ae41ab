//! A feature line.
ghost use Rattle.std.specs.Prelude.{◌≡◌, ◌++◌, IfOk, OnOk, Some};
ghost use Rattle.std.specs.Ordering.{nat_cmp};
ghost use Rattle.std.specs.Cmp.Lexicographic.{slice_cmp};
ghost use Rattle.api_lines.specs.Lines.{context_text, in_context, printed};

use crate::order::known_order;
use crate::printed::Printable;
use go_base::memory::NoMemory;
use go_base::text::Text;
use go_model::files::platform::Platform;
use std::alloc::Global;
use std::cmp::Ordering;

/// A feature of a package, as Go's `cmd/api` writes it: `pkg PATH`, where it has a platform ` (PLATFORM)`,
/// then `, ` and the rest.
pub struct Line {
    pub path: Text,
    pub context: Option<Platform>,
    pub rest: Text,
}

impl Drop for Line {
    fn drop(self) {
        let Line {
            path: _,
            context: _,
            rest: _,
        } = self;
    }
}

fn push_context(line: &mut Vec<u8>, context: Option<Platform>) -> Result<(), NoMemory>
    ensures { OnOk result (line.new.items ≡ line.old.items ++ context_text context) }
{
    match context {
        None => Ok(()),
        Some(platform) => {
            line.extend_from_slice(b" (")?;
            line.extend_from_slice(platform.name())?;
            line.extend_from_slice(b")")?;
            Ok(())
        }
    }
}

impl Line {
    /// The text of the line, without a newline.
    pub fn printed(&self, alloc: Global) -> Result<Text, NoMemory>
        ensures { IfOk result (λ text. text ≡ printed self.now) }
    {
        let path = self.path.bytes();
        let rest = self.rest.bytes();
        let long = path.len().saturating_add(rest.len()).saturating_add(24);
        let mut line = Vec::with_capacity(alloc, long)?;
        self.print_to(&mut line)?;
        Text::from_vec(alloc, line)
    }

    /// Appends the text of the line, without a newline.
    pub fn print_to(&self, out: &mut Vec<u8>) -> Result<(), NoMemory>
        ensures { OnOk result (out.new.items ≡ out.old.items ++ printed self.now) }
    {
        out.extend_from_slice(b"pkg ")?;
        out.extend_from_slice(self.path.bytes())?;
        push_context(out, self.context)?;
        out.extend_from_slice(b", ")?;
        out.extend_from_slice(self.rest.bytes())?;
        Ok(())
    }

    /// The order of two lines by their texts, which are printed where it isn't known without.
    pub fn order(&self, alloc: Global, other: &Line) -> Result<Ordering, NoMemory>
        ensures { IfOk result (λ order. order ≡ slice_cmp nat_cmp (printed self.now) (printed other.now)) }
    {
        if let Some(order) = known_order(self, other) {
            return Ok(order);
        }
        let text = self.printed(alloc)?;
        let other = other.printed(alloc)?;
        Ok(text.cmp(&other))
    }

    /// The line of the same path and rest on this platform.
    pub fn on(self, platform: Platform) -> Line
        ensures { result ≡ in_context (Some platform) self }
    {
        let Line {
            path,
            context: _,
            rest,
        } = self;
        Line {
            path,
            context: Some(platform),
            rest,
        }
    }
}

impl Printable for Line {
    ghost text = { printed };

    fn text(&self, alloc: Global) -> Result<Text, NoMemory> {
        self.printed(alloc)
    }
}
