//! Runs over a log that lists what no log lists, or that fails late.

use crate::workers::gates::Counting;
use crate::workers::plans::{YES, branch, fault_of, four_jobs, gtrid, jobs};
use std::alloc::{AllocError, Global};
use std::sync::atomic::Ordering;
use std::test::Fail;
use std::{mem, thread};
use xa_base::{Branch, Gtrid, How};
use xa_log::{Decision, DecisionLog, LogFault, LogRows, Logged};
use xa_workers::WorkFault;

/// How often a log yields before it fails.
const YIELDS: u32 = 10_000;

/// A log of the third incarnation that lists these rows and records once, whatever they are, and
/// takes each call, except for a row if it fails late.
#[derive(Drop)]
struct Unlawful {
    decisions: Vec<Gtrid>,
    heuristics: Vec<(Branch, How)>,
    fails_late: bool,
    faults: u64,
    alloc: Global,
}

impl Unlawful {
    /// One that lists nothing.
    fn new(alloc: Global) -> Unlawful {
        Unlawful {
            decisions: Vec::new(alloc),
            heuristics: Vec::new(alloc),
            fails_late: false,
            faults: 0,
            alloc,
        }
    }

    /// One decision more is listed, or one record.
    fn list(&mut self, sequence: u64, is_record: bool) -> Result<(), AllocError> {
        if is_record {
            self.heuristics.push((branch(sequence, 0, 0), How::Mix))?;
        } else {
            self.decisions.push(gtrid(sequence))?;
        }
        Ok(())
    }
}

impl DecisionLog for Unlawful {
    ghost use Rattle.tests_system.specs.Unlawful.{unlawful};

    ghost moment = { λ log. unlawful log.faults };

    ghost says = { λ call change old new fault. Unit {0} };

    ghost durable = { λ log c d order is left. absurd order };

    ghost own = { λ log c order is. absurd order };

    ghost fits = { λ log c order is. absurd order };

    fn commit(&mut self, _g: Gtrid, _participants: &[Branch]) -> Result<Logged, LogFault> {
        if !self.fails_late {
            return Ok(Logged::New);
        }
        for _ in 0..YIELDS {
            thread::yield_now();
        }
        self.faults = self.faults.saturating_add(1);
        Err(LogFault::Store)
    }

    fn commit_all(
        &mut self,
        alloc: Global,
        _decisions: &[Decision],
    ) -> Result<Vec<Logged>, LogFault> {
        Ok(Vec::new(alloc))
    }

    fn contains(&mut self, _g: Gtrid) -> Result<bool, LogFault> {
        Ok(true)
    }

    fn participants(&mut self, _g: Gtrid) -> Result<Vec<Branch>, LogFault> {
        Ok(Vec::new(self.alloc))
    }

    fn done(&mut self, _g: Gtrid) -> Result<bool, LogFault> {
        Ok(true)
    }

    fn done_all(&mut self, _gtrids: &[Gtrid]) -> Result<(), LogFault> {
        Ok(())
    }

    fn note_heuristic(&mut self, _b: Branch, _how: How) -> Result<(), LogFault> {
        Ok(())
    }

    fn heuristic_of(&mut self, _b: Branch) -> Result<Option<How>, LogFault> {
        Ok(None)
    }

    fn bump(&mut self) -> Result<u64, LogFault> {
        Ok(3)
    }

    fn rows(&mut self) -> Result<LogRows, LogFault> {
        Ok(LogRows {
            decisions: mem::replace(&mut self.decisions, Vec::new(self.alloc)),
            participants: Vec::new(self.alloc),
            heuristics: mem::replace(&mut self.heuristics, Vec::new(self.alloc)),
        })
    }

    fn faults(&self) -> u64 {
        self.faults
    }
}

/// What is listed of two transactions, and whether a run over such a log is refused: out of order,
/// twice, or with a number that fits no row, as a system would refuse it.
const LISTED: [([u64; 2], bool); 4] = [
    ([1, 2], false),
    ([2, 1], true),
    ([1, 1], true),
    ([1, 1 << 63], true),
];

/// A log that lists two decisions, or a record of a branch of each.
fn listing(alloc: Global, sequences: [u64; 2], are_records: bool) -> Result<Unlawful, AllocError> {
    let mut log = Unlawful::new(alloc);
    for sequence in sequences {
        log.list(sequence, are_records)?;
    }
    Ok(log)
}

#[test]
fn what_no_log_lists_is_refused(rt: HostRuntime) -> Result<(), Fail> {
    let alloc = rt.alloc();
    let four = four_jobs(alloc, 2)?;
    for are_records in [false, true] {
        for (sequences, is_refused) in LISTED {
            let log = listing(alloc, sequences, are_records)?;
            let fault = fault_of(&rt, alloc, &four, log, &Counting::new());
            assert!(rt; matches!(fault, Some(WorkFault::Log)) == is_refused);
            assert!(rt; fault.is_some() == is_refused);
        }
    }
    Ok(())
}

/// A thread of control awaits its row, however long the log takes to fail: no xa_commit is sent
/// before.
#[test]
fn no_commit_is_issued_while_its_row_is_written(rt: HostRuntime) -> Result<(), Fail> {
    let alloc = rt.alloc();
    let gate = Counting::new();
    let log = Unlawful {
        fails_late: true,
        ..Unlawful::new(alloc)
    };
    let one = jobs(alloc, 1, 1, &[&[YES]])?;
    let fault = fault_of(&rt, alloc, &one, log, &gate);
    assert!(rt; matches!(fault, Some(WorkFault::Log)));
    // xa_open, xa_start, xa_end and xa_prepare
    assert!(rt; gate.answered.load(Ordering::SeqCst) == 4);
    Ok(())
}
