//! Runs over stores that tell nothing. What they give and have to give is worked out by hand.
use crate::tests::held::held_until;
use crate::tests::runs::end_of;
use crate::tests::store::{Habit, Store};
use go_base::list::List;
use go_base::memory::NoMemory;
use go_base::text::Text;
use go_load::error::LoadError;
use go_load::load::load_module;
use go_outside::memory_files::FilePair;
use std::alloc::{AllocError, Global};
use std::test::Fail;
use std::thread::Threads;

// Whether the features of a store end with this status, output and error output. Where there is a report, one package is
// checked, and else none.
fn ends<R: Threads + Sync + AllocGlobal>(
    rt: &R,
    mut files: Store,
    code: u8,
    report: &[u8],
    fault: &[u8],
) -> Result<bool, Fail> {
    let words = ["features", "--new", "new"];
    let end = end_of(rt, &words, &mut files, &held_until(1))?;
    let packages = if code == 0 { 1 } else { 0 };
    Ok(end.checks == packages && end.is(code, report, fault))
}

#[test]
fn answers_a_store_that_tells_nothing(rt: HostRuntime) -> Result<(), Fail> {
    let store = Store::new(rt.alloc(), Habit::Silent)?;
    assert!(rt; ends(&rt, store, 3, b"", b"apigate: new: not found\n")?);
    Ok(())
}

#[test]
fn answers_a_store_whose_count_rises_no_more(rt: HostRuntime) -> Result<(), Fail> {
    let store = Store::new(rt.alloc(), Habit::Spent)?;
    assert!(rt; ends(&rt, store, 4, b"", b"apigate: read fault\n")?);
    Ok(())
}

// The root is the first folder, so that the path of the last one has 65,536 elements. The line is
// written in three pieces.
fn folders_line(alloc: Global) -> Result<Vec<u8>, AllocError> {
    let mut line = Vec::from_slice(alloc, b"apigate: new: d")?;
    for _ in 1..65_536 {
        line.extend_from_slice(b"/d")?;
    }
    line.extend_from_slice(b": limit folders\n")?;
    Ok(line)
}

#[test]
fn ends_in_a_store_without_end(rt: HostRuntime) -> Result<(), Fail> {
    let line = folders_line(rt.alloc())?;
    let store = Store::new(rt.alloc(), Habit::Endless)?;
    assert!(rt; ends(&rt, store, 3, b"", &line)?);
    Ok(())
}

#[test]
fn bears_odd_listings(rt: HostRuntime) -> Result<(), Fail> {
    let report = b"pkg m, const X = 5\npkg m, const X ideal-int\n".as_slice();
    let missing = b"apigate: new: not found\n".as_slice();
    for (file_gone, folder_gone, code, wanted, fault) in [
        (false, false, 0, report, b"".as_slice()),
        (true, false, 3, b"", missing),
        (false, true, 3, b"", missing),
    ] {
        let habit = Habit::Odd {
            file_gone,
            folder_gone,
        };
        let store = Store::new(rt.alloc(), habit)?;
        assert!(rt; ends(&rt, store, code, wanted, fault)?);
    }
    Ok(())
}

// Whether the load of a store misses this path, which its line doesn't name.
fn misses(alloc: Global, files: &mut Store, wanted: &[u8]) -> bool {
    match load_module(alloc, files, b"new") {
        Err(LoadError::Missing(path)) => path.bytes() == wanted,
        _ => false,
    }
}

#[test]
fn names_what_a_store_lists_and_has_not(rt: HostRuntime) -> Result<(), Fail> {
    for (file_gone, folder_gone, wanted) in [
        (true, false, b"x.go".as_slice()),
        (false, true, b"d"),
    ] {
        let habit = Habit::Odd {
            file_gone,
            folder_gone,
        };
        let mut files = Store::new(rt.alloc(), habit)?;
        assert!(rt; misses(rt.alloc(), &mut files, wanted));
    }
    Ok(())
}

// A constant behind and before so many parentheses. A program as Rattle's own compiler builds it wants a larger stack for
// the deepest ones than it is given, so no archive holds them.
fn in_parentheses(alloc: Global, open: u32, closed: u32) -> Result<Vec<u8>, AllocError> {
    let mut source = Vec::from_slice(alloc, b"package p\nconst X = ")?;
    for _ in 0..open {
        source.push(b'(')?;
    }
    source.push(b'5')?;
    for _ in 0..closed {
        source.push(b')')?;
    }
    Ok(source)
}

fn add_file(
    alloc: Global,
    files: &mut List<FilePair>,
    path: &[u8],
    bytes: &[u8],
) -> Result<(), NoMemory> {
    files.push(FilePair {
        path: Text::of(alloc, path)?,
        bytes: Text::of(alloc, bytes)?,
    })
}

#[test]
fn reads_syntax_up_to_a_height_of_256(rt: HostRuntime) -> Result<(), Fail> {
    let alloc = rt.alloc();
    let report = b"pkg m/p, const X = 5\npkg m/p, const X ideal-int\n".as_slice();
    let refused =
        b"apigate: new linux-amd64: p/p.go: not in the grammar of this profile\n".as_slice();
    for (open, closed, code, wanted, fault) in [
        (256, 256, 0, report, b"".as_slice()),
        (257, 257, 3, b"", refused),
        (4_000_000, 0, 3, b"", refused),
    ] {
        let source = in_parentheses(alloc, open, closed)?;
        let mut files = List::new(alloc);
        add_file(alloc, &mut files, b"new/go.mod", b"module m\n")?;
        add_file(alloc, &mut files, b"new/p/p.go", &source)?;
        let store = Store::of(alloc, files)?;
        assert!(rt; ends(&rt, store, code, wanted, fault)?);
    }
    Ok(())
}
