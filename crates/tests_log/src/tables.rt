//! A log in the tables of a database, whose files are in memory.

use crate::commands::{FIRST, answers_each_call, contains, participants, rows};
use crate::disks::{Change, blank, files_after, run_in};
use crate::over_files::{Crashes, OverLog, over_files};
use std::alloc::Global;
use std::process::Abort;
use std::test::Fail;
use xa_log::{DecisionLog, LogFault};

/// Whether a log tells a thread that doesn't fit, wherever it reads the row, and nothing else.
fn tells_thread<L: DecisionLog>(log: &mut L) -> Result<bool, LogFault> {
    let found = contains(log, FIRST)?;
    Ok(
        found
            && matches!(participants(log, FIRST), Err(LogFault::Version))
            && matches!(rows(log), Err(LogFault::Version)),
    )
}

/// What is asked of a log in tables.
#[derive(Drop)]
enum Question {
    /// Each kind of call, of an empty log.
    EachCall,
    /// Its row, of a log with a thread that doesn't fit.
    Thread,
}

impl OverLog for Question {
    fn over<L: Crashes>(&mut self, rt: &impl Abort, alloc: Global, mut log: L) -> Result<(), Fail> {
        let answered = match self {
            Question::EachCall => answers_each_call(&mut log, alloc),
            Question::Thread => tells_thread(&mut log),
        };
        assert!(rt; matches!(answered, Ok(true)));
        Ok(())
    }
}

#[test]
fn answers_each_call_in_tables(rt: HostRuntime) -> Result<(), Fail> {
    let files = blank(rt.alloc());
    assert!(rt; over_files(&rt, rt.alloc(), files, &mut Question::EachCall)?);
    Ok(())
}

#[test]
fn a_number_that_does_not_fit_is_told(rt: HostRuntime) -> Result<(), Fail> {
    let alloc = rt.alloc();
    let (_, files) = run_in(alloc, blank(alloc), Some(Change::Commit));
    let files = files_after(alloc, files, "UPDATE participant SET thread = 4294967296")?;
    assert!(rt; over_files(&rt, alloc, files, &mut Question::Thread)?);
    Ok(())
}
