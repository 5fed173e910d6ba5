//! What a stop at each call of the one file leaves: of tables that are made or migrated, and of
//! each call that changes a log.

use crate::disks::{
    BLANK, Change, EMPTY, MIGRATED, OLD, Reached, Seen, Stops, StopsAfter, VERSION_1, blank,
    crash_after, files_after, run_in, stopping,
};
use sqlite::Files;
use sqlite_disk::{Fuse, Memory};
use std::alloc::Global;
use std::process::Abort;
use std::test::Fail;
use xa_log::LogFault;

/// What a log holds before a change: the transaction (1, 1) with one participant, and a heuristic
/// end.
const BEFORE: Seen = Seen {
    participants: 1,
    ..MIGRATED
};

/// What the log holds after a change. A further row counts as -1.
fn after(change: Change) -> Seen {
    match change {
        Change::Commit => Seen {
            decisions: 0,
            participants: 4,
            ..BEFORE
        },
        Change::Done => Seen {
            decisions: 0,
            participants: 0,
            ..BEFORE
        },
        Change::Note => Seen {
            heuristics: 0,
            ..BEFORE
        },
        Change::Bump => Seen {
            incarnation: 2,
            ..BEFORE
        },
    }
}

/// What a run does, what its files hold at first, and what they hold in the end.
#[derive(Clone, Copy)]
struct Run {
    /// Statements that have run in empty files.
    sql: &'static str,
    change: Option<Change>,
    before: Seen,
    made: Seen,
}

/// A log makes its tables in empty files.
const CREATION: Run = Run {
    sql: "",
    change: None,
    before: BLANK,
    made: EMPTY,
};

/// A log migrates those of version 1.
const MIGRATION: Run = Run {
    sql: VERSION_1,
    change: None,
    before: OLD,
    made: MIGRATED,
};

/// A log of version 2 makes a change.
fn run_of(change: Change) -> Run {
    Run {
        sql: VERSION_1,
        change: Some(change),
        before: BEFORE,
        made: after(change),
    }
}

/// Whether a crash may leave this of a run that came so far, and the next log make that of it.
fn may_leave(run: Run, reached: Reached, left: Seen, next: Seen) -> bool {
    let is_kept = left == run.before;
    let is_made = left == run.made;
    let goes_on = next == if run.change.is_some() { left } else { run.made };
    goes_on
        && match reached {
            Reached::Nothing => is_kept,
            Reached::Refused(_) => is_kept || (is_made && run.change.is_none()),
            Reached::Adopted => is_kept || is_made,
            Reached::End => is_made,
        }
}

/// With a stop at each call of the one file the crash leaves what the files held, or all that the
/// run makes. Answers whether the run met a stop.
fn stop_at_each_call<D: StopsAfter>(
    rt: &impl Abort,
    alloc: Global,
    files: &Files<D>,
    which: Stops,
    run: Run,
) -> Result<bool, Fail> {
    let mut stopped = false;
    for calls in 0..100 {
        let files = stopping(alloc, files, which, calls)?;
        let (reached, left, next) = crash_after(alloc, files, run.change)?;
        assert!(rt; may_leave(run, reached, left, next));
        match reached {
            Reached::Nothing => {}
            Reached::Refused(_) | Reached::Adopted => stopped = true,
            Reached::End => return Ok(stopped),
        }
    }
    Err(Fail::from("each run met a stop"))
}

/// The files that a run begins with.
fn files_of(alloc: Global, run: Run) -> Result<Files<Fuse<Memory>>, LogFault> {
    let files = files_after(alloc, blank(alloc), run.sql)?;
    if run.change.is_none() {
        return Ok(files);
    }
    let (_, files) = run_in(alloc, files, None);
    files_after(
        alloc,
        files,
        "INSERT INTO participant (inc, seq, thread, rm) VALUES (1, 1, 0, 0)",
    )
}

/// The same from its first files. A run that is to meet a stop does: of the journal each does.
fn stop(rt: &impl Abort, alloc: Global, which: Stops, run: Run) -> Result<(), Fail> {
    let files = files_of(alloc, run)?;
    let stopped = stop_at_each_call(rt, alloc, &files, which, run)?;
    assert!(rt; stopped || matches!(which, Stops::Database));
    Ok(())
}

#[test]
fn tables_are_made_or_migrated_whole_or_not_at_all(rt: HostRuntime) -> Result<(), Fail> {
    for run in [CREATION, MIGRATION] {
        stop(&rt, rt.alloc(), Stops::Journal, run)?;
        stop(&rt, rt.alloc(), Stops::Database, run)?;
    }
    Ok(())
}

const CHANGES: [Change; 4] = [Change::Commit, Change::Done, Change::Note, Change::Bump];

#[test]
fn a_change_is_made_whole_or_not_at_all(rt: HostRuntime) -> Result<(), Fail> {
    for change in CHANGES {
        stop(&rt, rt.alloc(), Stops::Journal, run_of(change))?;
    }
    Ok(())
}

/// The database file stops: the journal has the change all the same.
#[test]
fn a_change_outlives_the_database_file(rt: HostRuntime) -> Result<(), Fail> {
    for change in CHANGES {
        stop(&rt, rt.alloc(), Stops::Database, run_of(change))?;
    }
    Ok(())
}
