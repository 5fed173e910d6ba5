//! The tables of a log that a log refuses.

use crate::disks::{Reached, VERSION_1, blank, files_after, look_in, run_in};
use std::alloc::Global;
use std::test::Fail;
use xa_log::LogFault;

/// Whether a log refuses the files of this version in which this statement has run, as of a version
/// that isn't known, and they stay as they were, also if they are opened again.
fn is_refused(alloc: Global, version: u8, sql: &str) -> Result<bool, LogFault> {
    let mut files = files_after(alloc, blank(alloc), VERSION_1)?;
    if version == 2 {
        files = run_in(alloc, files, None).1;
    }
    let files = files_after(alloc, files, sql)?;
    let (before, files) = look_in(alloc, files)?;
    let (reached, files) = run_in(alloc, files, None);
    let (left, _) = look_in(alloc, files)?;
    let is_refused = matches!(reached, Reached::Refused(LogFault::Version));
    Ok(is_refused && left == before && before.decisions == 1)
}

#[test]
fn other_versions_are_refused(rt: HostRuntime) -> Result<(), Fail> {
    for sql in [
        "UPDATE tm_meta SET version = 9",
        "UPDATE tm_meta SET version = 'two'",
        "UPDATE tm_meta SET incarnation = -1",
        "DELETE FROM tm_meta",
    ] {
        assert!(rt; is_refused(rt.alloc(), 1, sql)?);
        assert!(rt; is_refused(rt.alloc(), 2, sql)?);
    }
    Ok(())
}
