//! The states of the branches of which something was heard, in a map. Any other branch is as it was before.

ghost use Rattle.std.specs.Prelude.{◌≡◌, ◌≢◌, map, true, false, if◌then◌else◌, None, IfSome, OnOk};
ghost use Rattle.xa_base.specs.Branch.{branch_eq};
ghost use Rattle.xa_model.specs.Protocol.{Lists};
ghost use Rattle.xa_model.specs.Replies.History.{name_of};
ghost use Rattle.xa_model.specs.Trace.{Name.Ours, line};
ghost use Rattle.xa_monitor.specs.Entries.{AreListable, HasEntry, HasKeptEntries, HasNoRoom, HasRoom, HasRoomForAll, IsListable, listed, listed_by, off_line_at, states_at, states_before};

use crate::States;
use std::collections::BTreeMap;
use xa_base::{Branch, Memory, Xid};

/// The states of a branch of which nothing was heard.
fn states_before(incarnation: u64, b: Branch) -> States
    ensures { result ≡ states_before incarnation b }
{
    if b.gtrid.incarnation < incarnation {
        States::FOUND
    } else {
        States::UNSTARTED
    }
}

/// Whether a branch is in other states than before anything was heard of it. If not, it needs no entry.
fn differs_from_before(incarnation: u64, b: Branch, states: States) -> bool
    ensures same { result ≡ false → states ≡ states_before incarnation b }
    ensures other { result ≡ true → states ≢ states_before incarnation b }
{
    states != states_before(incarnation, b)
}

/// The states of a branch.
pub(crate) fn states_at(branches: &BTreeMap<Branch, States>, incarnation: u64, b: Branch) -> States
    ensures { result ≡ states_at incarnation branches.now b }
{
    match branches.get(&b) {
        Some(states) => *states,
        None => states_before(incarnation, b),
    }
}

/// Puts the states of a branch that has an entry. One that is as before anything was heard of it has none then.
pub(crate) fn put(
    branches: &mut BTreeMap<Branch, States>,
    incarnation: u64,
    b: Branch,
    states: States,
)
    requires { HasEntry branches.old b }
    ensures at { (q : _) → states_at incarnation branches.new q ≡
        (if branch_eq b q then states else states_at incarnation branches.old q) }
    ensures needed { HasEntry branches.new b → states ≢ states_before incarnation b }
{
    if differs_from_before(incarnation, b, states) {
        let done: Result<_, _> = branches.insert(b, states);
        done.unwrap();
    } else {
        branches.remove(&b);
    }
}

/// The states of a branch after a line broke.
fn off_line_at(thread: u32, rm: u32, b: Branch, states: States) -> States
    ensures { result ≡ off_line_at (line thread rm) b states }
{
    if thread == b.thread && rm == b.rm {
        states.by_break()
    } else {
        states
    }
}

/// A line broke: what was started on it and isn't prepared is gone.
pub(crate) fn break_line(
    branches: &mut BTreeMap<Branch, States>,
    incarnation: u64,
    thread: u32,
    rm: u32,
)
    ensures { (q : _) → states_at incarnation branches.new q
        ≡ off_line_at (line thread rm) q (states_at incarnation branches.old q) }
{
    branches.retain(|b, states| {
        *states = off_line_at(thread, rm, *b, *states);
        differs_from_before(incarnation, *b, *states)
    });
}

/// The branch that an identifier names, if it can't be in doubt at this resource manager.
fn unlistable(
    branches: &BTreeMap<Branch, States>,
    incarnation: u64,
    rm: u32,
    xid: &Xid,
) -> Option<Branch>
    ensures none { result ≡ None →
        IsListable rm (states_at incarnation branches.now) (name_of xid.now) }
    ensures some { IfSome result (λ b. (name_of xid.now ≡ Ours b) ×
        (IsListable rm (states_at incarnation branches.now) (Ours b) → ⊥)) }
{
    let b = xid.branch()?;
    if b.rm == rm && states_at(branches, incarnation, b).by_page().is_some() {
        None
    } else {
        Some(b)
    }
}

/// The first branch that a page lists and that can't be in doubt at this resource manager.
pub(crate) fn first_unlistable(
    branches: &BTreeMap<Branch, States>,
    incarnation: u64,
    rm: u32,
    xids: &[Xid],
) -> Option<Branch>
    ensures none { result ≡ None →
        AreListable rm (states_at incarnation branches.now) xids.now }
    ensures some { IfSome result (λ b. Lists (map name_of xids.now) (Ours b) ×
        (IsListable rm (states_at incarnation branches.now) (Ours b) → ⊥)) }
{
    for xid in xids {
        if let Some(b) = unlistable(branches, incarnation, rm, xid) {
            return Some(b);
        }
    }
    None
}

/// Takes the entries away that say no more than what was known before anything was heard.
pub(crate) fn drop_room(branches: &mut BTreeMap<Branch, States>, incarnation: u64)
    ensures same { (q : _) → states_at incarnation branches.new q
        ≡ states_at incarnation branches.old q }
    ensures dropped { HasNoRoom incarnation branches.new }
{
    branches.retain(|b, states| differs_from_before(incarnation, *b, *states));
}

/// Makes room for a branch.
pub(crate) fn reserve(
    branches: &mut BTreeMap<Branch, States>,
    incarnation: u64,
    b: Branch,
) -> Result<(), Memory>
    ensures same { (q : _) → states_at incarnation branches.new q
        ≡ states_at incarnation branches.old q }
    ensures room { OnOk result (HasEntry branches.new b) }
    ensures kept { HasKeptEntries branches.old branches.new }
{
    if branches.contains_key(&b) {
        return Ok(());
    }
    match branches.insert(b, states_before(incarnation, b)) {
        Ok(_) => Ok(()),
        Err(_) => Err(Memory),
    }
}

/// Makes room for the branch that an identifier names.
fn reserve_named(
    branches: &mut BTreeMap<Branch, States>,
    incarnation: u64,
    xid: &Xid,
) -> Result<(), Memory>
    ensures same { (q : _) → states_at incarnation branches.new q
        ≡ states_at incarnation branches.old q }
    ensures room { OnOk result (HasRoom branches.new (name_of xid.now)) }
    ensures kept { HasKeptEntries branches.old branches.new }
{
    match xid.branch() {
        Some(b) => reserve(branches, incarnation, b),
        None => Ok(()),
    }
}

/// Makes room for the branches that a page lists.
pub(crate) fn reserve_all(
    branches: &mut BTreeMap<Branch, States>,
    incarnation: u64,
    xids: &[Xid],
) -> Result<(), Memory>
    ensures same { (q : _) → states_at incarnation branches.new q
        ≡ states_at incarnation branches.old q }
    ensures room { OnOk result (HasRoomForAll branches.new xids.now) }
{
    for xid in xids {
        reserve_named(branches, incarnation, xid)?;
    }
    Ok(())
}

/// A page lists the identifier: its branch is in doubt.
fn list(branches: &mut BTreeMap<Branch, States>, incarnation: u64, xid: &Xid)
    requires { HasRoom branches.old (name_of xid.now) }
    ensures at { (q : _) → states_at incarnation branches.new q
        ≡ listed (name_of xid.now) q (states_at incarnation branches.old q) }
    ensures kept { HasKeptEntries branches.old branches.new }
{
    let Some(b) = xid.branch() else {
        return;
    };
    let states = states_at(branches, incarnation, b).by_page();
    let done: Result<_, _> = branches.insert(b, states);
    done.unwrap();
}

/// A page lists these: their branches are in doubt.
pub(crate) fn list_all(branches: &mut BTreeMap<Branch, States>, incarnation: u64, xids: &[Xid])
    requires { HasRoomForAll branches.old xids.now }
    ensures { (q : _) → states_at incarnation branches.new q
        ≡ listed_by xids.now q (states_at incarnation branches.old q) }
{
    for xid in xids {
        list(branches, incarnation, xid);
    }
}
