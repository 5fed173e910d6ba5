//! A resource manager in memory.

use crate::branches::Branches;
use crate::scans::Scans;
use crate::table_entry::TableEntry;
use crate::{ResourceManager, RmFault};
use std::alloc::Global;
use xa_base::{
    Answer, BranchState, Call, CallKind, Code, Fate, How, Memory, Page, Standing, Vote, Xid,
};

/// A resource manager that keeps its branches in memory, for one run.
#[derive(Drop)]
pub struct MemRm {
    branches: Branches,
    scans: Scans,
    alloc: Global,
}

impl MemRm {
    ghost use Rattle.std.specs.Prelude.{◌≡◌, ◌==◌, ℕ, List, [], if◌then◌else◌, IfOk, IsOk, OnOk, OnErr};
    ghost use Rattle.xa_base.specs.HeldBranch.{new_branch};
    ghost use Rattle.xa_base.specs.Recover.{IsInDoubtList, xid_page, page_answer};
    ghost use Rattle.xa_base.specs.Scan.{Scan.NotOpen, scan_after};
    ghost use Rattle.xa_base.specs.Xid.{Xid};
    ghost use Rattle.xa_base.specs.declared.answer.Answer.TheVariants as Answers;
    ghost use Rattle.xa_base.specs.declared.code.Code.TheVariants.{Invalid};
    ghost use Rattle.xa_rm.specs.Branches.{held_at};
    ghost use Rattle.xa_rm.specs.Scans.{scan_at};

    /// A resource manager at which no branch was ever named and no scan is open.
    pub fn new(alloc: Global) -> MemRm
        ensures held { (x : Xid) → (⟦<MemRm as ResourceManager>⟧.look result).held x ≡ new_branch }
        ensures scans { (t : ℕ) → (⟦<MemRm as ResourceManager>⟧.look result).scan t ≡ NotOpen }
        ensures in_doubt { (⟦<MemRm as ResourceManager>⟧.look result).in_doubt ≡ [] }
    {
        MemRm {
            branches: Branches::new(alloc),
            scans: Scans::new(alloc),
            alloc,
        }
    }

    /// Answers an xa_recover. The page is made before the scan moves, so that want of memory moves
    /// none.
    fn list(
        &mut self,
        thread: u32,
        count: i64,
        start_scan: bool,
        end_scan: bool,
    ) -> Result<Answer, Memory>
        ensures answer { IfOk result (λ answer. answer ≡ page_answer
            (xid_page (scan_at self.old.scans.cursors thread) count start_scan
            self.old.branches.index.keys)) }
        ensures branches { self.new.branches ≡ self.old.branches }
        ensures scans { OnOk result ((t : ℕ) → scan_at self.new.scans.cursors t ≡ (if t == thread
            then scan_after (scan_at self.old.scans.cursors t) start_scan end_scan
            (xid_page (scan_at self.old.scans.cursors t) count start_scan
            self.old.branches.index.keys)
            else scan_at self.old.scans.cursors t)) }
        ensures in_doubt { IfOk result (λ answer. (page : List Xid) → answer ≡ Answers.Page page →
            IsInDoubtList (held_at self.old.branches.table) self.old.branches.index.keys) }
        ensures err { OnErr result ((t : ℕ)
            → scan_at self.new.scans.cursors t ≡ scan_at self.old.scans.cursors t) }
        ensures invalid { page_answer (xid_page (scan_at self.old.scans.cursors thread) count
            start_scan self.old.branches.index.keys)
            ≡ Answers.Ret Invalid → IsOk result }
    {
        let Ok(count) = usize::try_from(count) else {
            return Ok(Answer::Ret(Code::Invalid));
        };
        let Some(cursor) = self.scans.reads_from(thread, start_scan) else {
            return Ok(Answer::Ret(Code::Invalid));
        };
        let page = self.branches.page(self.alloc, &cursor, count)?;
        if end_scan {
            self.scans.close(thread);
        } else {
            self.scans.stand(thread, cursor.after(&page))?;
        }
        Ok(Answer::Page(Page::new(page)))
    }
}

impl ResourceManager for MemRm {
    ghost use Rattle.xa_rm.specs.Branches.{held_at};
    ghost use Rattle.xa_rm.specs.Scans.{scan_at};

    ghost look = { λ m. record {
      held = held_at m.branches.table;
      scan = scan_at m.scans.cursors;
      in_doubt = m.branches.index.keys;
    } };

    fn apply(&mut self, thread: u32, call: &Call) -> Result<Answer, Memory> {
        match call {
            Call::Recover {
                count,
                start_scan,
                end_scan,
            } => self.list(thread, *count, *start_scan, *end_scan),
            _ => Ok(Answer::Ret(self.branches.apply(thread, call)?)),
        }
    }

    fn recover(&mut self, thread: u32, count: i64, flags: u32) -> Result<Answer, Memory> {
        match Call::of(CallKind::Recover, None, flags, Some(count)) {
            Ok(call) => self.apply(thread, &call),
            Err(code) => Ok(Answer::Ret(code)),
        }
    }

    fn vote(&mut self, xid: &Xid, vote: Vote) -> Result<(), RmFault> {
        let held = self.branches.get(xid);
        if held.is_in_doubt() {
            return Err(RmFault::Script);
        }
        self.branches.set(xid, TableEntry { vote, ..held })?;
        Ok(())
    }

    fn retry(&mut self, xid: &Xid, times: u32) -> Result<(), RmFault> {
        let held = self.branches.get(xid);
        self.branches.set(
            xid,
            TableEntry {
                retries: times,
                ..held
            },
        )?;
        Ok(())
    }

    fn heuristic(&mut self, xid: &Xid, how: How) -> Result<(), RmFault> {
        let held = self.branches.get(xid);
        if held.standing != Standing::Prepared {
            return Err(RmFault::Script);
        }
        self.branches.set(
            xid,
            TableEntry {
                standing: Standing::Completed(how),
                ..held
            },
        )?;
        Ok(())
    }

    fn break_line(&mut self, thread: u32) {
        self.branches.break_line(thread);
        self.scans.close(thread);
    }

    fn crash(&mut self) {
        self.branches.crash();
        self.scans.close_all();
    }

    fn state(&self, xid: &Xid) -> BranchState {
        self.branches.get(xid).standing.state()
    }

    fn fate(&self, xid: &Xid) -> Fate {
        self.branches.get(xid).standing.fate()
    }

    fn holds_format(&self, format: i32) -> bool {
        self.branches.holds_format(format)
    }

    fn holds_newer(&self, rm: u32, incarnation: u64) -> bool {
        self.branches.holds_newer(rm, incarnation)
    }

    fn in_doubt_len(&self) -> usize {
        self.branches.in_doubt_len()
    }
}
