//! The store and the sinks of the host.
use go_outside::files::{Files, FilesError};
use go_outside::host_files::HostFiles;
use go_outside::host_sink::HostSink;
use go_outside::sink::{Sink, SinkError};

#[test]
fn misses_what_is_not_there(rt: HostRuntime) {
    let mut files = HostFiles::new(&rt);
    let missing = matches!(
        files.read(rt.alloc(), b"no/such", 9),
        Err(FilesError::Missing)
    );
    assert!(rt; missing);
    let missing = matches!(files.list(rt.alloc(), b"no/such"), Err(FilesError::Missing));
    assert!(rt; missing);
    let failed = matches!(files.list(rt.alloc(), b"\xff"), Err(FilesError::Failed));
    assert!(rt; failed);
}

#[test]
fn lists_the_folder_that_it_starts_in(rt: HostRuntime) {
    let mut files = HostFiles::new(&rt);
    assert!(rt; files.list(rt.alloc(), b".").is_ok());
}

#[test]
fn writes_to_both_streams(rt: HostRuntime) {
    let mut out = HostSink::out(&rt);
    assert_eq!(rt; out.write(b"out\n"), Ok(()));
    assert_eq!(rt; out.write(b""), Ok(()));
    let mut err = HostSink::err(&rt);
    assert_eq!(rt; err.write(b"err \xc3"), Ok(()));
    assert_eq!(rt; err.write(b"\xa9\n"), Ok(()));
    assert_eq!(rt; err.write(b"\xff"), Err(SinkError::Failed));
}
