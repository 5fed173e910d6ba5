//! The manager's book at a start, from the rows of a log.

ghost use Rattle.std.specs.Prelude.{◌≡◌, ◌≤◌, [], length, if◌then◌else◌, Some, IfOk, OnOk};
ghost use Rattle.xa_log.specs.KeySet.{from_list};
ghost use Rattle.xa_base.specs.Branch.{gtrid_eq, branch_eq};
ghost use Rattle.xa_tm.specs.LedgerBook.{notes_at, as_book, known_in, no_branch, row_at, waiting_of};
ghost use Rattle.xa_tm.specs.Starting.{AreUnstarted, ended_among, loaded, run_of, start_book};

use crate::change::Change;
use crate::ledger::Ledger;
use crate::ledger::room::{reserve_branch, set_branch};
use crate::notes::BranchNotes;
use std::alloc::{AllocError, Global};
use std::collections::BTreeMap;
use xa_base::{Branch, Gtrid, How};
use xa_log::LogRows;

/// The participants of a transaction that stand first.
fn run_of(alloc: Global, participants: &[Branch], g: Gtrid) -> Result<Vec<Branch>, AllocError>
    ensures run { IfOk result (λ list. list.items ≡ run_of g participants.now) }
    ensures short { IfOk result (λ list. length list.items ≤ length participants.now) }
{
    participants
        .iter()
        .copied()
        .take_while(|b| b.gtrid == g)
        .collect(alloc)
}

/// Puts a row.
fn put_row(
    rows: &mut BTreeMap<Gtrid, Option<Vec<Branch>>>,
    g: Gtrid,
    participants: Vec<Branch>,
) -> Result<(), AllocError>
    ensures { OnOk result ((q : _) →
        row_at rows.new q ≡ (if gtrid_eq g q then Some (waiting_of participants)
        else row_at rows.old q)) }
{
    match rows.insert(g, Some(participants)) {
        Ok(_) => Ok(()),
        Err(_) => Err(AllocError),
    }
}

/// The rows of these transactions, each with its run of participants.
fn load_rows(
    alloc: Global,
    decisions: &[Gtrid],
    participants: &[Branch],
) -> Result<BTreeMap<Gtrid, Option<Vec<Branch>>>, AllocError>
    ensures { IfOk result (λ rows. (q : _) →
        row_at rows q ≡ loaded decisions.now participants.now q) }
{
    let mut rows = BTreeMap::new(alloc);
    let mut rest = participants;
    for g in decisions {
        let own = run_of(alloc, rest, *g)?;
        rest = &rest[own.len()..];
        put_row(&mut rows, *g, own)?;
    }
    Ok(rows)
}

/// Puts how a branch ended, of which nothing else is known.
fn put_record(
    branches: &mut BTreeMap<Branch, BranchNotes>,
    b: Branch,
    how: How,
) -> Result<(), AllocError>
    requires { AreUnstarted branches.old }
    ensures notes { OnOk result ((q : _) → notes_at branches.new q ≡
        (if branch_eq b q then record no_branch { recorded = Some how }
        else notes_at branches.old q)) }
    ensures known { OnOk result (known_in branches.new ≡ known_in branches.old) }
{
    reserve_branch(branches, b)?;
    set_branch(
        branches,
        b,
        BranchNotes {
            recorded: Some(how),
            ..BranchNotes::NEW
        },
    );
    Ok(())
}

/// The branches with these ends, of which nothing else is known.
fn load_records(
    alloc: Global,
    ends: &[(Branch, How)],
) -> Result<BTreeMap<Branch, BranchNotes>, AllocError>
    ensures notes { IfOk result
        (λ branches. (q : _) → notes_at branches q
        ≡ record no_branch { recorded = ended_among ends.now q }) }
    ensures known { IfOk result (λ branches. known_in branches ≡ from_list []) }
{
    let mut branches = BTreeMap::new(alloc);
    for end in ends {
        put_record(&mut branches, end.0, end.1)?;
    }
    Ok(branches)
}

impl Ledger {
    /// The book of a start over these rows, except for its incarnation.
    pub(crate) fn load(
        alloc: Global,
        threads: u32,
        rms: u32,
        rows: &LogRows,
    ) -> Result<Ledger, AllocError>
        ensures { IfOk result (λ book. as_book book ≡ start_book threads rms 0
            (loaded rows.now.decisions.items rows.now.participants.items)
            (length rows.now.decisions.items)
            (ended_among rows.now.heuristics.items) (length rows.now.heuristics.items)) }
    {
        let loaded = load_rows(
            alloc,
            rows.decisions.as_slice(),
            rows.participants.as_slice(),
        )?;
        let branches = load_records(alloc, rows.heuristics.as_slice())?;
        Ok(Ledger {
            threads,
            rms,
            is_up: true,
            incarnation: 0,
            sequence: 0,
            begins: 0,
            failed_restarts: 0,
            transactions: BTreeMap::new(alloc),
            branches,
            pages: BTreeMap::new(alloc),
            rows: loaded,
            row_count: rows.decisions.len() as u64,
            records: rows.heuristics.len() as u64,
            doubt: Change::Nothing,
            alloc,
        })
    }
}
