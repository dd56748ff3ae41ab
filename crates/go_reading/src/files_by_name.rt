//! The files of a folder by their names.
ghost use Rattle.std.specs.Prelude.{◌≡◌, ◌<◌, length, get_or, IfOk, OnOk};
ghost use Rattle.std.specs.Cmp.Lexicographic.{slice_cmp};
ghost use Rattle.std.specs.Ordering.{nat_cmp, is_lt};
ghost use Rattle.go_base.specs.Keys.{placed, PlaceFor};
ghost use Rattle.go_reading.specs.FilesByName.{name_of, by_name, AreByName};
ghost use Rattle.go_reading.specs.inner.Groups.{lent, no_file};

use go_base::memory::NoMemory;
use go_model::files::tree::TreeFile;
use std::alloc::Global;
use std::cmp::Ordering;

fn goes_before(name: &[u8], file: &TreeFile) -> bool
    ensures { result ≡ is_lt (slice_cmp nat_cmp name.now (name_of file.now)) }
{
    name.cmp(file.name.bytes()) == Ordering::Less
}

fn file_at<'a>(files: &[&'a TreeFile], number: usize) -> &'a TreeFile
    requires { number < length files.now }
    ensures { result.now ≡ get_or (lent files.now) number no_file }
{
    files[number]
}

// Where a file of this name stands among files that are by name. It is sought from the end, since the files of a tree mostly
// come in their order.
fn place_for(files: &[&TreeFile], name: &[u8]) -> usize
    requires { AreByName (lent files.now) }
    ensures { PlaceFor name_of (lent files.now) name.now result }
{
    let mut at = files.len();
    while at > 0 {
        if !goes_before(name, file_at(files, at - 1)) {
            return at;
        }
        at -= 1;
    }
    at
}

fn put<'a>(files: &mut Vec<&'a TreeFile>, file: &'a TreeFile) -> Result<(), NoMemory>
    requires { AreByName (lent files.old.items) }
    ensures { OnOk result (lent files.new.items ≡ placed name_of file.now (lent files.old.items)) }
{
    let at = place_for(files, file.name.bytes());
    files.insert(at, file)?;
    Ok(())
}

/// The files by their names.
pub fn files_by_name<'a>(
    alloc: Global,
    files: &[&'a TreeFile],
) -> Result<Vec<&'a TreeFile>, NoMemory>
    ensures { IfOk result (λ ordered. lent ordered.items ≡ by_name (lent files.now)) }
{
    let mut ordered = Vec::new(alloc);
    for file in files {
        put(&mut ordered, *file)?;
    }
    Ok(ordered)
}
