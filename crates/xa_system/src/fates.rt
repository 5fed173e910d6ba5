//! What became of the branches.
ghost use Rattle.std.specs.Prelude.{◌≡◌, ◌↔◌, Contains, IfOk};
ghost use Rattle.std.specs.List.Sorted.{IsStrictlySortedBy};
ghost use Rattle.std.specs.Map.{keys_of};
ghost use Rattle.xa_base.specs.Xid.{xid_cmp};

use crate::system::System;
use std::alloc::Global;
use xa_base::{Fate, Memory, Xid};
use xa_log::DecisionLog;
use xa_rm::ResourceManager;

impl<R: ResourceManager + Drop, L: DecisionLog + Drop> System<R, L> {
    ghost use Rattle.xa_base.specs.Branch.{xid_of_branch};
    ghost use Rattle.xa_base.specs.declared.branch.Branch.{Branch};
    ghost use Rattle.xa_base.specs.declared.state.Fate.TheVariants as Fates;
    ghost use Rattle.xa_model.specs.Facts.{fate};
    ghost use Rattle.xa_system.specs.Report.{IsReported};
    ghost use Rattle.xa_system.specs.SystemView.{IsOwnIn, trace_in};

    /// What became of a branch; `Unstarted` if the identifier names no branch of this system.
    pub fn fate(&self, xid: &Xid) -> Fate
        ensures own { (b : Branch) → IsOwnIn self.now b → xid.now ≡ xid_of_branch b →
            result ≡ fate (trace_in R.look self.now) b }
        ensures other { ((b : Branch) → IsOwnIn self.now b → xid.now ≡ xid_of_branch b → ⊥) →
            result ≡ Fates.Unstarted }
    {
        match xid.branch() {
            Some(branch) if self.parts.lines.has(branch.thread, branch.rm) => {
                self.parts.sites[branch.rm as usize].rm.fate(xid)
            }
            _ => Fate::Unstarted,
        }
    }

    /// All branches whose xa_start was accepted, in the order of their identifiers, each with what
    /// became of it.
    pub fn report(&self, alloc: Global) -> Result<Vec<(Xid, Fate)>, Memory>
        ensures in_order { IfOk result (λ list. IsStrictlySortedBy xid_cmp (keys_of list.items)) }
        ensures listed { IfOk result (λ list. (x : _) (f : _) →
            Contains list.items (x, f) ↔ IsReported (trace_in R.look self.now) x f) }
    {
        let branches = self.parts.manager.started()?;
        let mut list = Vec::with_capacity(alloc, branches.len())?;
        for branch in &branches {
            let xid = branch.xid();
            let fate = self.fate(&xid);
            list.push_reserved((xid, fate));
        }
        Ok(list)
    }
}
