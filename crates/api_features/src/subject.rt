//! What a line of features speaks of.
ghost use Rattle.std.specs.Prelude.{◌≡◌, ◌++◌, IfOk, IfSome, OnOk};
ghost use Rattle.go_base.specs.Growing.{Grows};
ghost use Rattle.go_base.specs.Keys.{item_of};
ghost use Rattle.go_model.specs.worlds.Worlds.{table_of};
ghost use Rattle.api_features.specs.inner.FeatureLines.{IsHeld, feature_line};

use api_lines::line::Line;
use api_lines::lines::Lines;
use go_base::memory::NoMemory;
use go_base::text::Text;
use go_model::types::package::Defined;
use go_model::types::world::World;
use std::alloc::Global;

/// A name in the package of a path.
#[derive(Drop)]
pub(crate) struct Subject<'a> {
    pub(crate) world: &'a World,
    pub(crate) path: &'a [u8],
    // The path, which lines share with the package.
    shared: &'a Text,
    pub(crate) name: &'a [u8],
    ghost same: { shared.now ≡ path.now },
}

impl<'a> Subject<'a> {
    pub(crate) fn new(world: &'a World, path: &'a Text, name: &'a [u8]) -> Subject<'a>
        ensures world { result.world.now ≡ world.now }
        ensures path { result.path.now ≡ path.now }
        ensures name { result.name.now ≡ name.now }
    {
        Subject {
            world,
            path: path.bytes(),
            shared: path,
            name,
        }
    }

    /// The defined type of this name, as the package holds it.
    pub(crate) fn defined(&self) -> Option<&'a Defined>
        ensures found { item_of result ≡ table_of self.now.world.now.packages (record { path = self.now.path.now; name = self.now.name.now }) }
        ensures held { IfSome result (λ defined. IsHeld self.now.world.now.packages self.now.path.now self.now.name.now defined.now) }
    {
        match self.world.package(self.path) {
            Some(found) => found.defined_type(self.name),
            None => None,
        }
    }
}

/// A word, a name and what follows it.
pub(crate) fn begun(
    alloc: Global,
    word: &[u8],
    name: &[u8],
    end: &[u8],
) -> Result<Vec<u8>, NoMemory>
    ensures { IfOk result (λ rest. rest.items ≡ word.now ++ name.now ++ end.now) }
{
    let long = name.len().saturating_add(64);
    let mut rest = Vec::with_capacity(alloc, long)?;
    rest.extend_from_slice(word)?;
    rest.extend_from_slice(name)?;
    rest.extend_from_slice(end)?;
    Ok(rest)
}

/// Adds a line of the subject's package.
pub(crate) fn add(
    alloc: Global,
    lines: &mut Lines,
    of: &Subject<'_>,
    rest: Vec<u8>,
) -> Result<(), NoMemory>
    ensures { OnOk result (Grows (λ l. feature_line of.now.path.now rest.items ≡ l) lines.old lines.new) }
{
    let line = Line {
        path: of.shared.copy()?,
        context: None,
        rest: Text::from_vec(alloc, rest)?,
    };
    lines.add_to_package(line)?;
    Ok(())
}
