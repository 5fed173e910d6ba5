//! Entries of the maps of the manager's book: first the room for one, then what stands there, which
//! can't fail.

ghost use Rattle.std.specs.Prelude.{◌≡◌, ◌<◌, ◌-◌, [], ◌∷◌, if◌then◌else◌, Bool, Option, None, IsSome, OnOk};
ghost use Rattle.std.specs.BTreeMap.{get};
ghost use Rattle.std.specs.Option.{option_map};
ghost use Rattle.xa_base.specs.Branch.{gtrid_cmp, branch_cmp, gtrid_eq, branch_eq};
ghost use Rattle.xa_log.specs.KeySet.{insert};
ghost use Rattle.xa_tm.specs.Book.{row_among, row_without};
ghost use Rattle.xa_tm.specs.LedgerBook.{HasKept, HaveRoom, decided_row, decided_rows, gtrids_of, known_in, no_transaction};
ghost use Rattle.xa_tm.specs.LedgerBook.{notes_at, row_at};
ghost use Rattle.xa_tm.specs.LedgerBook.{transaction_at, waiting_of};

use crate::notes::{BranchNotes, Transaction};
use std::alloc::AllocError;
use std::collections::BTreeMap;
use xa_base::{Branch, Gtrid};
use xa_log::Decision;

/// Makes room for a transaction.
pub(crate) fn reserve_transaction(
    map: &mut BTreeMap<Gtrid, Transaction>,
    g: Gtrid,
) -> Result<(), AllocError>
    ensures same { (q : _) → transaction_at map.new q ≡ transaction_at map.old q }
    ensures room { OnOk result (IsSome (get gtrid_cmp map.new g)) }
    ensures kept { HasKept map.old map.new }
{
    if map.contains_key(&g) {
        return Ok(());
    }
    match map.insert(g, Transaction::NEW) {
        Ok(_) => Ok(()),
        Err(_) => Err(AllocError),
    }
}

/// Puts what is noted of a transaction.
pub(crate) fn set_transaction(
    map: &mut BTreeMap<Gtrid, Transaction>,
    g: Gtrid,
    transaction: Transaction,
)
    requires { IsSome (get gtrid_cmp map.old g) }
    ensures at { (q : _) → transaction_at map.new q ≡
        (if gtrid_eq g q then transaction else transaction_at map.old q) }
    ensures kept { HasKept map.old map.new }
{
    let done: Result<_, _> = map.insert(g, transaction);
    done.unwrap();
}

/// Makes room for a branch.
pub(crate) fn reserve_branch(
    map: &mut BTreeMap<Branch, BranchNotes>,
    b: Branch,
) -> Result<(), AllocError>
    ensures same { (q : _) → notes_at map.new q ≡ notes_at map.old q }
    ensures known { known_in map.new ≡ known_in map.old }
    ensures room { OnOk result (IsSome (get branch_cmp map.new b)) }
{
    if map.contains_key(&b) {
        return Ok(());
    }
    match map.insert(b, BranchNotes::NEW) {
        Ok(_) => Ok(()),
        Err(_) => Err(AllocError),
    }
}

/// Puts what is noted of a branch. A start stays noted.
pub(crate) fn set_branch(map: &mut BTreeMap<Branch, BranchNotes>, b: Branch, notes: BranchNotes)
    requires room { IsSome (get branch_cmp map.old b) }
    requires started { (notes_at map.old b).is_started ≡ Bool.true → notes.is_started ≡ Bool.true }
    ensures at { (q : _) → notes_at map.new q ≡
        (if branch_eq b q then notes else notes_at map.old q) }
    ensures known { known_in map.new ≡
        (if notes.is_started then insert (known_in map.old) b else known_in map.old) }
    ensures same_known { notes.is_started ≡ (notes_at map.old b).is_started →
        known_in map.new ≡ known_in map.old }
{
    let done: Result<_, _> = map.insert(b, notes);
    done.unwrap();
}

/// Makes room for a row of a transaction.
pub(crate) fn reserve_row(
    map: &mut BTreeMap<Gtrid, Option<Vec<Branch>>>,
    g: Gtrid,
) -> Result<(), AllocError>
    ensures same { (q : _) → row_at map.new q ≡ row_at map.old q }
    ensures room { OnOk result (IsSome (get gtrid_cmp map.new g)) }
    ensures kept { HasKept map.old map.new }
{
    if map.contains_key(&g) {
        return Ok(());
    }
    match map.insert(g, None) {
        Ok(_) => Ok(()),
        Err(_) => Err(AllocError),
    }
}

/// Makes room for a row of each of these transactions.
pub(crate) fn reserve_each(
    map: &mut BTreeMap<Gtrid, Option<Vec<Branch>>>,
    gtrids: &[Gtrid],
) -> Result<(), AllocError>
    ensures same { (q : _) → row_at map.new q ≡ row_at map.old q }
    ensures room { OnOk result (HaveRoom map.new gtrids.now) }
    ensures kept { HasKept map.old map.new }
{
    for g in gtrids {
        reserve_row(map, *g)?;
    }
    Ok(())
}

/// Makes room for a row of a transaction and of others.
pub(crate) fn reserve_rows(
    map: &mut BTreeMap<Gtrid, Option<Vec<Branch>>>,
    first: Gtrid,
    others: &[Gtrid],
) -> Result<(), AllocError>
    ensures same { (q : _) → row_at map.new q ≡ row_at map.old q }
    ensures room { OnOk result (HaveRoom map.new (first ∷ others.now)) }
{
    reserve_row(map, first)?;
    reserve_each(map, others)
}

/// Makes room for the row of each of these decisions.
pub(crate) fn reserve_decided(
    map: &mut BTreeMap<Gtrid, Option<Vec<Branch>>>,
    decisions: &[Decision],
) -> Result<(), AllocError>
    ensures same { (q : _) → row_at map.new q ≡ row_at map.old q }
    ensures room { OnOk result (HaveRoom map.new (gtrids_of decisions.now)) }
{
    for decision in decisions {
        reserve_row(map, decision.gtrid)?;
    }
    Ok(())
}

/// Puts the row of a transaction, or takes it away.
pub(crate) fn set_row(
    map: &mut BTreeMap<Gtrid, Option<Vec<Branch>>>,
    g: Gtrid,
    row: Option<Vec<Branch>>,
)
    requires { IsSome (get gtrid_cmp map.old g) }
    ensures at { (q : _) → row_at map.new q
        ≡ (if gtrid_eq g q then option_map waiting_of row else row_at map.old q) }
    ensures kept { HasKept map.old map.new }
{
    let done: Result<_, _> = map.insert(g, row);
    done.unwrap();
}

/// Puts the row of a decision.
fn put_decision(map: &mut BTreeMap<Gtrid, Option<Vec<Branch>>>, decision: Decision)
    requires { IsSome (get gtrid_cmp map.old decision.gtrid) }
    ensures at { (q : _) → row_at map.new q
        ≡ row_among (decided_row decision ∷ []) q (row_at map.old q) }
    ensures kept { HasKept map.old map.new }
{
    let Decision {
        gtrid,
        participants,
    } = decision;
    set_row(map, gtrid, Some(participants));
}

/// Puts the rows of these decisions. Of several on one transaction the first stays.
pub(crate) fn put_rows(map: &mut BTreeMap<Gtrid, Option<Vec<Branch>>>, mut decisions: Vec<Decision>)
    requires { HaveRoom map.old (gtrids_of decisions.items) }
    ensures { (q : _) → row_at map.new q
        ≡ row_among (decided_rows decisions.items) q (row_at map.old q) }
{
    while let Some(decision) = decisions.pop() {
        put_decision(map, decision);
    }
}

/// Takes the rows of these transactions away.
fn drop_each(map: &mut BTreeMap<Gtrid, Option<Vec<Branch>>>, gtrids: &[Gtrid])
    requires { HaveRoom map.old gtrids.now }
    ensures { (q : _) → row_at map.new q ≡ row_without gtrids.now q (row_at map.old q) }
{
    for g in gtrids {
        set_row(map, *g, None);
    }
}

/// Takes the rows of a transaction and of others away.
pub(crate) fn drop_rows(
    map: &mut BTreeMap<Gtrid, Option<Vec<Branch>>>,
    first: Gtrid,
    others: &[Gtrid],
)
    requires { HaveRoom map.old (first ∷ others.now) }
    ensures { (q : _) → row_at map.new q
        ≡ row_without (first ∷ others.now) q (row_at map.old q) }
{
    set_row(map, first, None);
    drop_each(map, others);
}

/// Takes away what is noted of a transaction.
pub(crate) fn remove_transaction(map: &mut BTreeMap<Gtrid, Transaction>, g: Gtrid)
    ensures at { (q : _) → transaction_at map.new q ≡
        (if gtrid_eq g q then no_transaction else transaction_at map.old q) }
    ensures gone { get gtrid_cmp map.new g ≡ None }
{
    map.remove(&g);
}

/// Takes away the room for a row, if there is none.
pub(crate) fn remove_row_room(map: &mut BTreeMap<Gtrid, Option<Vec<Branch>>>, g: Gtrid)
    requires { row_at map.old g ≡ None }
    ensures same { (q : _) → row_at map.new q ≡ row_at map.old q }
    ensures gone { get gtrid_cmp map.new g ≡ None }
{
    map.remove(&g);
}
