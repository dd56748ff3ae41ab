//! The entries that are had, with one more.
ghost use Rattle.std.specs.Prelude.{◌≡◌};
ghost use Rattle.go_base.specs.Keys.{item_of};
ghost use Rattle.go_entries.specs.HadEntries.{found_entry};
ghost use Rattle.go_typings.specs.PackageEnvironments.{signature_of};
ghost use Rattle.go_package_entries.specs.inner.ShownMethods.{are_had};
ghost use Rattle.go_package_entries.specs.inner.TakenEntries.{entries_of};

use go_declared::methods::MethodRow;
use go_entries::entry::Entry;
use go_entries::had::HadEntries;
use go_model::types::term::Signature;

/// Entries of declarations by their numbers, and that of one more.
#[derive(Clone, Copy)]
pub(crate) struct Grown<'b> {
    pub had: &'b HadEntries,
    pub number: usize,
    pub entry: &'b Entry,
}

fn signature_of(entry: Option<&Entry>) -> Option<&Signature>
    ensures { item_of result ≡ signature_of (found_entry entry.entry) }
{
    match entry {
        Some(Entry::Signed(signature)) => Some(signature),
        _ => None,
    }
}

/// The signature of the declaration of a number, where it has one.
pub(crate) fn signature_at<'b>(grown: Grown<'b>, number: usize) -> Option<&'b Signature>
    ensures { item_of result ≡ signature_of (entries_of grown.entry number) }
{
    if number == grown.number {
        return signature_of(Some(grown.entry));
    }
    signature_of(grown.had.get(number))
}

/// Whether each of these methods is had.
pub(crate) fn are_had(grown: Grown<'_>, rows: &[MethodRow]) -> bool
    ensures { result ≡ are_had (entries_of grown.entry) rows.now }
{
    for row in rows {
        if signature_at(grown, row.number).is_none() {
            return false;
        }
    }
    true
}
