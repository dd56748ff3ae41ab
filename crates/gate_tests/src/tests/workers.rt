//! Workers of a run: that several check packages of a level at once, and that each takes whichever package nobody has taken yet. And which
//! packages the hook of checks hears of.
use crate::tests::held::held_until;
use crate::tests::runs::end_of;
use crate::tests::store::Store;
use go_base::list::List;
use go_base::text::Text;
use go_outside::memory_files::FilePair;
use std::alloc::Global;
use std::sync::atomic::Ordering;
use std::test::Fail;

const BY_TWO: [&str; 7] = [
    "features",
    "--new",
    "new",
    "--platforms",
    "linux-amd64",
    "--workers",
    "2",
];

// A module in a folder, of packages that import nothing, each in a folder of one of these names.
fn add_module(
    alloc: Global,
    pairs: &mut List<FilePair>,
    root: &str,
    folders: &[&str],
) -> Result<(), Fail> {
    let path = format!(in alloc; "{root}/go.mod")?;
    pairs.push(FilePair {
        path: Text::of(alloc, path.as_bytes())?,
        bytes: Text::of(alloc, b"module m\n")?,
    })?;
    for folder in folders {
        let path = format!(in alloc; "{root}/{folder}/x.go")?;
        let bytes = format!(in alloc; "package {folder}\n")?;
        pairs.push(FilePair {
            path: Text::of(alloc, path.as_bytes())?,
            bytes: Text::of(alloc, bytes.as_bytes())?,
        })?;
    }
    Ok(())
}

fn module_of(alloc: Global, folders: &[&str]) -> Result<Store, Fail> {
    let mut pairs = List::new(alloc);
    add_module(alloc, &mut pairs, "new", folders)?;
    Store::of(alloc, pairs)
}

#[test]
fn checks_with_a_second_worker_inside(rt: HostRuntime) -> Result<(), Fail> {
    let gate = held_until(2);
    let mut files = module_of(rt.alloc(), &["a", "b"])?;
    let end = end_of(&rt, &BY_TWO, &mut files, &gate)?;
    assert_eq!(rt; end.checks, 2);
    assert_eq!(rt; end.code, 0);
    assert_eq!(rt; gate.met.load(Ordering::SeqCst), 1);
    Ok(())
}

// The first worker is held in its first check until the second one has taken the other three.
#[test]
fn takes_whichever_package_is_left(rt: HostRuntime) -> Result<(), Fail> {
    let gate = held_until(4);
    let mut files = module_of(rt.alloc(), &["a", "b", "c", "d"])?;
    let end = end_of(&rt, &BY_TWO, &mut files, &gate)?;
    assert_eq!(rt; end.checks, 4);
    assert_eq!(rt; end.code, 0);
    assert_eq!(rt; gate.met.load(Ordering::SeqCst), 1);
    Ok(())
}

// Of a package that the new tree has as the old one the hook hears once, and of each other one.
#[test]
fn hears_of_packages_that_are_checked(rt: HostRuntime) -> Result<(), Fail> {
    let alloc = rt.alloc();
    let gate = held_until(1);
    let mut pairs = List::new(alloc);
    add_module(alloc, &mut pairs, "old", &["a", "b"])?;
    add_module(alloc, &mut pairs, "new", &["a", "b", "c"])?;
    let mut files = Store::of(alloc, pairs)?;
    let words = ["judge", "--old", "old", "--new", "new"];
    let end = end_of(&rt, &words, &mut files, &gate)?;
    assert_eq!(rt; end.checks, 3);
    assert_eq!(rt; end.code, 0);
    assert_eq!(rt; gate.entered.load(Ordering::SeqCst), 3);
    Ok(())
}
