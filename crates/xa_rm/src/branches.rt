//! The table of branches, and the index of those in doubt.

ghost use Rattle.std.specs.Prelude.{◌≡◌, ◌≢◌, Some, IfOk, OnOk, OnErr};
ghost use Rattle.std.specs.BTreeSet.{contains};
ghost use Rattle.xa_base.specs.HeldBranch.{answer_of, called};
ghost use Rattle.xa_base.specs.StateTable.{Kind, asks_of};
ghost use Rattle.xa_base.specs.Standing.{is_in_doubt};
ghost use Rattle.xa_base.specs.Xid.{Xid, xid_cmp};
ghost use Rattle.xa_rm.specs.Branches.{IsIndex, ListsIf};
ghost use Rattle.xa_rm.specs.TableEntries.{held_branch};
ghost use Rattle.xa_rm.specs.ResourceManager.{names_newer};

use crate::key::Key;
use crate::scans::Cursor;
use crate::table_entry::TableEntry;
use std::alloc::Global;
use std::collections::{BTreeSet, HashMap};
use std::ops::Bound;
use xa_base::{Call, Code, LAST_NUMBER, Memory, Xid};

/// Whether an identifier names a branch of this manager that is of another resource manager, or of
/// no earlier incarnation, or whose numbers no row of a log can hold. It is then the identifier of
/// that branch.
fn names_newer(xid: &Xid, rm: u32, incarnation: u64) -> bool
    ensures { result ≡ names_newer rm incarnation xid.now }
{
    match xid.branch() {
        Some(branch) => {
            // Only for the proof: the bytes of an identifier are bytes.
            let _ = xid.format();
            !(branch.rm == rm
                && branch.gtrid.incarnation < incarnation
                && branch.gtrid.sequence <= LAST_NUMBER)
        }
        None => false,
    }
}

/// Answers a call that names this branch of the table. Afterwards the index lists the branch
/// exactly if it is in doubt.
fn apply_held(
    held: &mut TableEntry,
    index: &mut BTreeSet<Xid>,
    xid: &Xid,
    thread: u32,
    call: &Call,
) -> Result<Code, Memory>
    requires { contains xid_cmp index.old xid.now ≡ is_in_doubt held.old.standing }
    ensures answer { IfOk result (λ code. (kind : Kind) (x : Xid) →
        asks_of call.now ≡ Some (kind, x) →
        code ≡ answer_of (held_branch held.old) kind) }
    ensures held { OnOk result ((kind : Kind) (x : Xid) → asks_of call.now ≡ Some (kind, x) →
        held_branch held.new ≡ called thread kind (held_branch held.old)) }
    ensures index { ListsIf index.old index.new xid.now (is_in_doubt held.new.standing) }
    ensures err { OnErr result (held.new ≡ held.old) }
    ensures goes_in_doubt { OnErr result ((kind : Kind) (x : Xid) →
        asks_of call.now ≡ Some (kind, x) →
        is_in_doubt (called thread kind (held_branch held.old)).standing
        ≢ is_in_doubt held.old.standing) }
{
    let mut after = *held;
    let code = after.apply(thread, call);
    list_in_doubt(index, xid, held.is_in_doubt(), after.is_in_doubt())?;
    *held = after;
    Ok(code)
}

/// Keeps the index in step with one branch: it is listed exactly while it is in doubt.
fn list_in_doubt(
    index: &mut BTreeSet<Xid>,
    xid: &Xid,
    was_in_doubt: bool,
    is_in_doubt: bool,
) -> Result<(), Memory>
    requires { contains xid_cmp index.old xid.now ≡ was_in_doubt }
    ensures ok { OnOk result (ListsIf index.old index.new xid.now is_in_doubt) }
    ensures err { OnErr result (ListsIf index.old index.new xid.now was_in_doubt) }
    ensures goes_in_doubt { OnErr result (is_in_doubt ≢ was_in_doubt) }
{
    match (was_in_doubt, is_in_doubt) {
        (false, true) => {
            index.insert(xid.copy())?;
        }
        (true, false) => {
            index.remove(xid);
        }
        (true, true) | (false, false) => {}
    }
    Ok(())
}

/// The branches that were ever named, with an index of those in doubt: the prepared and the
/// heuristically completed.
#[derive(Drop)]
pub(crate) struct Branches {
    table: HashMap<Key, TableEntry>,
    index: BTreeSet<Xid>,
    ghost indexed: { IsIndex table index },
}

impl Branches {
    ghost use Rattle.std.specs.Prelude.{◌≡◌, [], true, false, if◌then◌else◌, length, take, None, Some, IsSome, IfOk, IsOk, OnOk, OnErr};
    ghost use Rattle.std.specs.HashMap.{get};
    ghost use Rattle.xa_base.specs.Call.{xid_in};
    ghost use Rattle.xa_base.specs.HeldBranch.{new_branch, code_for, held_after, broken_by, crashed};
    ghost use Rattle.xa_base.specs.Recover.{IsInDoubtList};
    ghost use Rattle.xa_base.specs.Scan.{behind};
    ghost use Rattle.xa_base.specs.Standing.{is_in_doubt};
    ghost use Rattle.xa_base.specs.Xid.{Xid, xid_cmp, xid_eq};
    ghost use Rattle.xa_base.specs.declared.code.Code.TheVariants.{NotAnXid};
    ghost use Rattle.xa_rm.specs.Branches.{held_at};
    ghost use Rattle.xa_rm.specs.TableEntries.{held_branch};
    ghost use Rattle.xa_rm.specs.ResourceManager.{HoldsFormat, HoldsNewer, HoldsNoFormat, HoldsPast, is_of_line};
    ghost use Rattle.xa_rm.specs.Scans.{place_of};

    pub(crate) fn new(alloc: Global) -> Branches
        ensures table { (x : Xid) → held_at result.table x ≡ new_branch }
        ensures index { result.index.keys ≡ [] }
    {
        Branches {
            table: HashMap::new(alloc),
            index: BTreeSet::new(alloc),
        }
    }

    /// What is held of a branch.
    pub(crate) fn get(&self, xid: &Xid) -> TableEntry
        ensures { held_branch result ≡ held_at self.now.table xid.now }
    {
        match self.table.get(&Key::of(xid)) {
            Some(held) => *held,
            None => TableEntry::NEW,
        }
    }

    /// Puts this in the place of what is held of a branch.
    ///
    /// A branch that isn't in the table can't go in doubt at once. So at most one of the table and
    /// the index grows.
    pub(crate) fn set(&mut self, xid: &Xid, held: TableEntry) -> Result<(), Memory>
        requires { is_in_doubt held.standing ≡ true → IsSome (get xid_eq self.old.table xid.now) }
        ensures ok { OnOk result ((x : Xid) → held_at self.new.table x ≡
            (if xid_eq xid.now x then held_branch held else held_at self.old.table x)) }
        ensures err { OnErr result ((x : Xid)
            → held_at self.new.table x ≡ held_at self.old.table x) }
    {
        if held.is_in_doubt() {
            self.index.insert(xid.copy())?;
            self.table.insert(Key::of(xid), held)?;
            Ok(())
        } else {
            self.table.insert(Key::of(xid), held)?;
            self.index.remove(xid);
            Ok(())
        }
    }

    /// Answers a thread's call, other than xa_recover.
    pub(crate) fn apply(&mut self, thread: u32, call: &Call) -> Result<Code, Memory>
        ensures answer { IfOk result (λ code. code ≡ code_for (held_at self.old.table) call.now) }
        ensures held { OnOk result ((x : Xid) →
            held_at self.new.table x ≡ held_after thread call.now x (held_at self.old.table x)) }
        ensures err { OnErr result ((x : Xid)
            → held_at self.new.table x ≡ held_at self.old.table x) }
        ensures line { is_of_line call.now ≡ true → IsOk result }
        ensures not_found { code_for (held_at self.old.table) call.now ≡ NotAnXid → IsOk result }
    {
        let Some(xid) = call.xid() else {
            return Ok(Code::Success);
        };
        match self.table.get_mut(&Key::of(xid)) {
            Some(held) => apply_held(held, &mut self.index, xid, thread, call),
            None => self.apply_new(xid, thread, call),
        }
    }

    /// Answers a call that names a branch which isn't in the table. None goes in doubt by its first
    /// call.
    fn apply_new(&mut self, xid: &Xid, thread: u32, call: &Call) -> Result<Code, Memory>
        requires named { xid_in call.now ≡ Some xid.now }
        requires absent { get xid_eq self.old.table xid.now ≡ None }
        ensures answer { IfOk result (λ code. code ≡ code_for (held_at self.old.table) call.now) }
        ensures held { OnOk result ((x : Xid) →
            held_at self.new.table x ≡ held_after thread call.now x (held_at self.old.table x)) }
        ensures err { OnErr result ((x : Xid)
            → held_at self.new.table x ≡ held_at self.old.table x) }
        ensures not_found { code_for (held_at self.old.table) call.now ≡ NotAnXid → IsOk result }
    {
        let mut held = TableEntry::NEW;
        let code = held.apply(thread, call);
        if code != Code::NotAnXid {
            self.table.insert(Key::of(xid), held)?;
        }
        Ok(code)
    }

    /// A line of the thread broke. It moves no branch in or out of doubt.
    pub(crate) fn break_line(&mut self, thread: u32)
        ensures { (x : Xid) → held_at self.new.table x
            ≡ broken_by thread (held_at self.old.table x) }
    {
        // Keeps each entry: `values_mut` has no contract on what is written.
        self.table.retain(|_, held| {
            if held.starter == thread {
                held.break_line();
            }
            true
        });
    }

    /// All lines broke. It moves no branch in or out of doubt.
    pub(crate) fn crash(&mut self)
        ensures { (x : Xid) → held_at self.new.table x ≡ crashed (held_at self.old.table x) }
    {
        // Keeps each entry, as above.
        self.table.retain(|_, held| {
            held.break_line();
            true
        });
    }

    /// Whether a branch of this format was ever started.
    pub(crate) fn holds_format(&self, format: i32) -> bool
        ensures held { result ≡ true → HoldsFormat (held_at self.now.table) format }
        ensures clear { result ≡ false → HoldsNoFormat (held_at self.now.table) format }
    {
        self.table.iter().any(|(key, held)| key.xid().format() == format && held.was_started())
    }

    /// Whether a branch of this manager was ever started that is of another resource manager than
    /// this number or of no earlier incarnation, or whose numbers no row of a log can hold.
    pub(crate) fn holds_newer(&self, rm: u32, incarnation: u64) -> bool
        ensures newer { result ≡ true → HoldsNewer (held_at self.now.table) rm incarnation }
        ensures past { result ≡ false → HoldsPast (held_at self.now.table) rm incarnation }
    {
        self.table.iter().any(|(key, held)| names_newer(key.xid(), rm, incarnation)
            && held.was_started())
    }

    /// How many identifiers are in doubt.
    pub(crate) fn in_doubt_len(&self) -> usize
        ensures len { result ≡ length self.now.index.keys }
        ensures in_doubt { IsInDoubtList (held_at self.now.table) self.now.index.keys }
    {
        self.index.len()
    }

    /// The first `count` identifiers in doubt after the cursor.
    pub(crate) fn page(
        &self,
        alloc: Global,
        cursor: &Cursor,
        count: usize,
    ) -> Result<Vec<Xid>, Memory>
        ensures page { IfOk result (λ page.
            page.items ≡ take count (behind xid_cmp (place_of cursor.now) self.now.index.keys)) }
        ensures in_doubt { IsInDoubtList (held_at self.now.table) self.now.index.keys }
    {
        let page = self
            .index
            .range((cursor.bound(), Bound::Unbounded))
            .take(count)
            .map(|xid| xid.copy())
            .collect(alloc)?;
        Ok(page)
    }
}
