//! The lines of several platforms, of which those that all have are held once.
ghost use Rattle.std.specs.Prelude.{◌≡◌, ◌<◌, ◌++◌, ◌∷◌, [], length, get_or, IfOk, OnOk, map};
ghost use Rattle.go_base.specs.Lists.{Each};
ghost use Rattle.api_lines.specs.Lines.{AreInOrder, IsListing};
ghost use Rattle.api_lines.specs.Merging.{HasNoContext, IsMerged};
ghost use Rattle.api_lines.specs.inner.Shares.{AreJoined, AreShared, whole};

use crate::copies::lines_copied;
use crate::join::joined;
use crate::line::Line;
use crate::ordered::merge_ordered;
use crate::split::split;
use go_base::list::List;
use go_base::memory::NoMemory;
use go_model::files::platform::Platform;
use std::alloc::Global;
use std::marker::Model;
use std::mem;

/// The lines of several platforms, a list for each. Those that all have are held once.
pub struct PlatformLines {
    // The lines that all platforms have.
    common: List<Line>,
    // The other lines of each platform.
    own: List<List<Line>>,
}

impl Drop for PlatformLines {
    fn drop(self) {
        let PlatformLines { common: _, own: _ } = self;
    }
}

impl Model for PlatformLines {
    ghost use Rattle.std.specs.Prelude.{List as Sequence, map};
    ghost use Rattle.api_lines.specs.declared.line.Line.{Line as Feature};
    ghost use Rattle.api_lines.specs.inner.Shares.{AreShared, whole};

    ghost Value = { Sequence (Sequence Feature) };

    ghost view = { λ all. map (whole all.common) all.own };

    ghost invariant = { λ all. AreShared all.common all.own };
}

// The platforms' own lines, and with each of them a copy of those that leave the common ones.
fn with_leaving(
    alloc: Global,
    own: List<List<Line>>,
    leaving: &[Line],
) -> Result<List<List<Line>>, NoMemory>
    requires own { Each AreInOrder own }
    requires leaving { AreInOrder leaving.now }
    ensures { IfOk result (AreJoined leaving.now own) }
{
    if leaving.is_empty() {
        return Ok(own);
    }
    let mut all = List::new(alloc);
    for lines in own.into_vec() {
        let more = lines_copied(alloc, leaving)?;
        all.push(joined(alloc, lines, more)?)?;
    }
    Ok(all)
}

impl PlatformLines {
    /// No platform.
    pub fn new(alloc: Global) -> PlatformLines
        ensures { result ≡ [] }
    {
        PlatformLines {
            common: List::new(alloc),
            own: List::new(alloc),
        }
    }

    /// How many platforms there are.
    pub fn len(&self) -> usize
        ensures { result ≡ length self.now }
    {
        self.own.items().len()
    }

    // These, where there is no platform before.
    fn first(alloc: Global, lines: List<Line>) -> Result<PlatformLines, NoMemory>
        requires { AreInOrder lines }
        ensures { IfOk result (λ all. all ≡ lines ∷ []) }
    {
        let mut own = List::new(alloc);
        own.push(List::new(alloc))?;
        Ok(PlatformLines { common: lines, own })
    }

    // With the lines of one platform more.
    fn with(self, alloc: Global, lines: List<Line>) -> Result<PlatformLines, NoMemory>
        requires { AreInOrder lines }
        ensures { IfOk result (λ all. all ≡ self ++ lines ∷ []) }
    {
        let PlatformLines { common, own } = self;
        if own.items().is_empty() {
            return PlatformLines::first(alloc, lines);
        }
        let (shared, leaving, rest) = split(alloc, common, lines)?.into_all();
        let mut own = with_leaving(alloc, own, leaving.items())?;
        own.push(rest)?;
        Ok(PlatformLines {
            common: shared,
            own,
        })
    }

    /// Adds the lines of one platform more.
    pub fn add(&mut self, alloc: Global, lines: List<Line>) -> Result<(), NoMemory>
        requires { AreInOrder lines }
        ensures { OnOk result (self.new ≡ self.old ++ lines ∷ []) }
    {
        let before = mem::replace(self, PlatformLines::new(alloc));
        *self = before.with(alloc, lines)?;
        Ok(())
    }

    /// Adds the lines of the platform of this number once more.
    pub fn add_again(&mut self, alloc: Global, number: usize) -> Result<(), NoMemory>
        requires { number < length self.old }
        ensures { OnOk result (self.new ≡ self.old ++ get_or self.old number [] ∷ []) }
    {
        let lines = lines_copied(alloc, self.own.items()[number].items())?;
        self.own.push(lines)?;
        Ok(())
    }

    /// One list for these platforms: a line whose text is in all lists stands once, without context, and every other one in the
    /// context of each platform whose list has it. Each text stands once, in the order of bytes.
    pub fn into_list(self, alloc: Global, platforms: &[Platform]) -> Result<List<Line>, NoMemory>
        requires some { 0 < length self }
        requires same { length self ≡ length platforms.now }
        requires plain { Each (Each HasNoContext) self }
        ensures { IfOk result (IsListing (IsMerged self platforms.now)) }
    {
        let PlatformLines { common, own } = self;
        let apart = merge_ordered(alloc, own, platforms)?;
        joined(alloc, common, apart)
    }
}
