//! What is left out of the packages of trees, as lines.
ghost use Rattle.std.specs.Prelude.{◌≡◌, ◌++◌, [], IfOk, OnOk, map};
ghost use Rattle.std.specs.Cmp.Lexicographic.{slice_cmp};
ghost use Rattle.std.specs.Ordering.{is_lt, nat_cmp};
ghost use Rattle.api_refusals.specs.SkippedTexts.{skipped_texts};
ghost use Rattle.api_worlds.specs.LeftOut.{all_lines, lines_with, path_of, with_lines};
ghost use Rattle.api_worlds.specs.inner.KeptLines.{kept_lines};
ghost use Rattle.go_base.specs.Keys.{PlaceFor, placed};
ghost use Rattle.go_exposed.specs.SkippedValues.{all_skipped};

use api_refusals::skipped::skipped_texts;
use go_base::list::List;
use go_base::memory::NoMemory;
use go_base::order::order;
use go_base::text::Text;
use go_exposed::skipped::Skipped;
use go_model::files::tree::Tree;
use go_units::unit::Unit;
use go_work::checked::SkippedUnit;
use std::alloc::Global;
use std::cmp::Ordering;

/// The lines of a package, under its path.
pub struct PackageLines {
    pub path: Text,
    pub lines: List<Text>,
}

impl Drop for PackageLines {
    fn drop(self) {
        let PackageLines { path: _, lines: _ } = self;
    }
}

impl PackageLines {
    ghost use Rattle.std.specs.Prelude.{◌≡◌};

    // The lines, moved out.
    fn into_lines(self) -> List<Text>
        ensures { result ≡ self.lines }
    {
        let PackageLines { path: _, lines } = self;
        lines
    }
}

fn goes_before(path: &[u8], found: &PackageLines) -> bool
    ensures { result ≡ is_lt (slice_cmp nat_cmp path.now (path_of found.now)) }
{
    order(path, found.path.bytes()) == Ordering::Less
}

// Where a package of this path belongs: before the first one with a greater path.
fn place_for(packages: &[PackageLines], path: &[u8]) -> usize
    ensures { PlaceFor path_of packages.now path.now result }
{
    for at in 0..packages.len() {
        if goes_before(path, &packages[at]) {
            return at;
        }
    }
    packages.len()
}

// Adds the lines of a package in its place.
fn put(packages: &mut Vec<PackageLines>, found: PackageLines) -> Result<(), NoMemory>
    ensures { OnOk result (packages.new.items ≡ placed path_of found packages.old.items) }
{
    let at = place_for(packages, found.path.bytes());
    packages.insert(at, found)?;
    Ok(())
}

// The same, where there are some.
fn add_package(
    packages: &mut Vec<PackageLines>,
    path: Text,
    lines: List<Text>,
) -> Result<(), NoMemory>
    ensures { OnOk result (packages.new.items ≡ with_lines path lines packages.old.items) }
{
    if lines.items().is_empty() {
        return Ok(());
    }
    put(packages, PackageLines { path, lines })
}

// Those of one package more, of which this is left out.
fn add_unit(
    alloc: Global,
    packages: &mut Vec<PackageLines>,
    tree: &Tree,
    std_tree: &Tree,
    unit: &Unit,
    skipped: &[Skipped],
) -> Result<(), NoMemory>
    ensures { OnOk result (packages.new.items ≡ with_lines unit.now.path (skipped_texts tree.now std_tree.now unit.now (all_skipped skipped.now)) packages.old.items) }
{
    let path = unit.path.copy()?;
    let lines = skipped_texts(alloc, tree, std_tree, unit, skipped)?;
    add_package(packages, path, lines)
}

fn add_lines(lines: &mut List<Text>, found: PackageLines) -> Result<(), NoMemory>
    ensures { OnOk result (lines.new ≡ lines.old ++ found.lines) }
{
    for line in found.into_lines().into_vec() {
        lines.push(line)?;
    }
    Ok(())
}

fn joined(alloc: Global, packages: Vec<PackageLines>) -> Result<List<Text>, NoMemory>
    ensures { IfOk result (λ lines. lines ≡ all_lines packages.items) }
{
    let mut lines = List::new(alloc);
    for package in packages {
        add_lines(&mut lines, package)?;
    }
    Ok(lines)
}

/// The lines of these packages, of which something is left out: by their paths, and in each in the order that it has.
pub(crate) fn left_out(
    alloc: Global,
    tree: &Tree,
    std_tree: &Tree,
    kept: &[SkippedUnit],
) -> Result<List<Text>, NoMemory>
    ensures { IfOk result (λ lines. lines ≡ all_lines (kept_lines tree.now std_tree.now [] kept.now)) }
{
    let mut packages = Vec::new(alloc);
    for unit in kept {
        add_unit(
            alloc,
            &mut packages,
            tree,
            std_tree,
            &unit.unit,
            unit.skipped.items(),
        )?;
    }
    joined(alloc, packages)
}

/// The same of packages, each of which stands beside what is left out of it.
pub(crate) fn left_out_of(
    alloc: Global,
    tree: &Tree,
    std_tree: &Tree,
    units: &[Unit],
    skipped: &[List<Skipped>],
) -> Result<List<Text>, NoMemory>
    ensures { IfOk result (λ lines. lines ≡ all_lines (lines_with tree.now std_tree.now [] units.now (map all_skipped skipped.now))) }
{
    let mut packages = Vec::new(alloc);
    let many = units.len().min(skipped.len());
    for at in 0..many {
        add_unit(
            alloc,
            &mut packages,
            tree,
            std_tree,
            &units[at],
            skipped[at].items(),
        )?;
    }
    joined(alloc, packages)
}
