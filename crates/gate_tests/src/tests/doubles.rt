//! The stores and sinks in memory, call by call, also after a call that failed: a run ends at the first one.
use go_base::list::List;
use go_base::text::Text;
use go_outside::failing_files::FailingFiles;
use go_outside::failing_sink::FailingSink;
use go_outside::files::{EntryKind, Files, FilesError};
use go_outside::memory_files::{FilePair, MemoryFiles, MemoryFilesError};
use go_outside::memory_sink::MemorySink;
use go_outside::sink::Sink;
use std::alloc::Global;
use std::test::Fail;

fn store(alloc: Global, files: &[(&str, &str)]) -> Result<MemoryFiles, MemoryFilesError> {
    let mut pairs = List::new(alloc);
    for (path, bytes) in files {
        let path = Text::of(alloc, path.as_bytes())?;
        let bytes = Text::of(alloc, bytes.as_bytes())?;
        pairs.push(FilePair { path, bytes })?;
    }
    MemoryFiles::new(alloc, pairs)
}

// How often a folder lists this entry.
fn times(
    alloc: Global,
    store: &mut MemoryFiles,
    folder: &str,
    name: &str,
    kind: EntryKind,
) -> Result<usize, FilesError> {
    let listed = store.list(alloc, folder.as_bytes())?;
    let mut times = 0usize;
    for entry in listed.items() {
        if entry.name.bytes() == name.as_bytes() && entry.kind == kind {
            times = times.saturating_add(1);
        }
    }
    Ok(times)
}

#[test]
fn lists_each_entry_of_a_folder_once(rt: HostRuntime) -> Result<(), Fail> {
    let alloc = rt.alloc();
    let files: [(&str, &str); 6] = [
        ("m/go.mod", ""),
        ("m/a/b/c.go", ""),
        ("m/a.go", ""),
        ("m/a/d.go", ""),
        ("m/a-b/c.go", ""),
        ("n", ""),
    ];
    let mut store = store(alloc, &files)?;
    let entries: [(&str, &str, EntryKind); 7] = [
        ("m", "go.mod", EntryKind::File),
        ("m", "a", EntryKind::Folder),
        ("m", "a.go", EntryKind::File),
        ("m", "a-b", EntryKind::Folder),
        ("m/a", "b", EntryKind::Folder),
        ("m/a", "d.go", EntryKind::File),
        ("m/a/b", "c.go", EntryKind::File),
    ];
    for (folder, name, kind) in entries {
        assert_eq!(rt;
            times(alloc, &mut store, folder, name, kind)?,
            1,
            "{name} in {folder}"
        );
    }
    for (folder, count) in [("m", 4usize), ("m/a", 2), ("m/a/b", 1)] {
        let listed = store.list(alloc, folder.as_bytes())?;
        assert_eq!(rt; listed.items().len(), count, "in {folder}");
    }
    for folder in ["", "n", "m/a.go", "m/", "q"] {
        let answer = store.list(alloc, folder.as_bytes());
        assert!(rt; matches!(answer, Err(FilesError::Missing)), "at {folder}");
    }
    Ok(())
}

#[test]
fn reads_up_to_the_limit(rt: HostRuntime) -> Result<(), Fail> {
    let alloc = rt.alloc();
    let mut store = store(alloc, &[("a", "12345"), ("b", "")])?;
    assert_eq!(rt; store.read(alloc, b"a", 5)?.bytes(), b"12345".as_slice());
    assert_eq!(rt; store.read(alloc, b"b", 0)?.bytes().len(), 0);
    let larger = matches!(store.read(alloc, b"a", 4), Err(FilesError::TooLarge));
    assert!(rt; larger);
    let missing = matches!(store.read(alloc, b"c", 4), Err(FilesError::Missing));
    assert!(rt; missing);
    Ok(())
}

#[test]
fn fails_reads_at_their_numbers(rt: HostRuntime) -> Result<(), Fail> {
    let alloc = rt.alloc();
    let mut fail = List::new(alloc);
    for number in [3u64, 0, 2, 3] {
        fail.push(number)?;
    }
    let mut files = FailingFiles::new(store(alloc, &[("f/x", "y")])?, fail);
    assert_eq!(rt; files.read(alloc, b"f/x", 1)?.bytes(), b"y".as_slice());
    assert!(rt; matches!(files.read(alloc, b"f/x", 1), Err(FilesError::Failed)));
    assert!(rt; matches!(files.list(alloc, b"f"), Err(FilesError::Failed)));
    assert_eq!(rt; files.list(alloc, b"f")?.items().len(), 1);
    Ok(())
}

#[test]
fn takes_pieces_up_to_the_capacity(rt: HostRuntime) -> Result<(), Fail> {
    let mut sink = MemorySink::with_capacity(rt.alloc(), 3)?;
    let writes: [(&str, bool, &str); 5] = [
        ("ab", true, "ab"),
        ("cd", false, "ab"),
        ("c", true, "abc"),
        ("", true, "abc"),
        ("d", false, "abc"),
    ];
    for (piece, is_taken, taken) in writes {
        assert_eq!(rt; sink.write(piece.as_bytes()).is_ok(), is_taken);
        assert_eq!(rt; sink.bytes(), taken.as_bytes());
    }
    Ok(())
}

#[test]
fn fails_writes_at_their_numbers_and_past_the_capacity(rt: HostRuntime) -> Result<(), Fail> {
    let mut fail = List::new(rt.alloc());
    for number in [0u64, 2, 2] {
        fail.push(number)?;
    }
    let mut sink = FailingSink::new(MemorySink::with_capacity(rt.alloc(), 2)?, fail);
    let writes: [(&str, bool, &str); 4] = [
        ("a", true, "a"),
        ("b", false, "a"),
        ("bc", false, "a"),
        ("b", true, "ab"),
    ];
    for (piece, is_taken, taken) in writes {
        assert_eq!(rt; sink.write(piece.as_bytes()).is_ok(), is_taken);
        assert_eq!(rt; sink.bytes(), taken.as_bytes());
    }
    Ok(())
}
