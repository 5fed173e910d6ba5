//! What is noted of recoveries.

ghost use Rattle.std.specs.Prelude.{◌≡◌};
ghost use Rattle.xa_conduct.specs.Pages.{BeganBefore};

use super::Notes;
use crate::debt::{Debt, Due};
use crate::recovery::{Listed, Recovery, Stage, add_row, listed_as};
use xa_base::{Gtrid, Memory, Xid};
use xa_requests::Response;

/// Adds the commits that are owed to these branches.
fn add_owed(recovery: &mut Recovery, xids: &[Xid]) -> Result<(), Memory> {
    for xid in xids {
        if let Some(branch) = xid.branch() {
            recovery.left.push(Debt {
                branch,
                due: Due::Commit,
            })?;
            add_row(&mut recovery.rows, branch)?;
        }
    }
    Ok(())
}

impl Notes {
    /// Adds the transactions of these branches to those that had a row at the start.
    pub fn add_found(&mut self, owed: &Response) -> Result<(), Memory>
        ensures { self.new.transactions ≡ self.old.transactions }
    {
        if let Response::Owed(xids) = owed {
            for xid in xids.as_slice() {
                if let Some(branch) = xid.branch() {
                    add_row(&mut self.found, branch)?;
                }
            }
        }
        Ok(())
    }

    /// What a resource manager's list says of a branch.
    pub fn listed_as(&self, xid: &Xid, rm: u32) -> Listed
        ensures { BeganBefore self.now.incarnation result }
    {
        listed_as(xid, rm, self.incarnation, self.begun)
    }

    /// Whether a call of a recovery waits.
    pub fn is_recovering(&self, rm: u32) -> bool {
        match self.recoveries.get(rm as usize) {
            Some(recovery) => recovery.stage != Stage::Idle,
            None => false,
        }
    }

    /// What is owed at a resource manager: to branches of this session, and to those of rows of earlier ones.
    pub fn find_debts(&mut self, rm: u32, owed: &Response) -> Result<(), Memory>
        ensures { self.new.transactions ≡ self.old.transactions }
    {
        let Some(recovery) = self.recoveries.get_mut(rm as usize) else {
            return Ok(());
        };
        recovery.left.clear();
        recovery.rows.clear();
        for debt in self.debts.as_slice() {
            if debt.branch.rm == rm {
                recovery.left.push(*debt)?;
            }
        }
        if let Response::Owed(xids) = owed {
            add_owed(recovery, xids.as_slice())?;
        }
        Ok(())
    }

    /// The debt that is to be paid next.
    pub fn next_debt(&mut self, rm: u32) -> Option<Debt>
        ensures { self.new.transactions ≡ self.old.transactions }
    {
        let recovery = self.recoveries.get_mut(rm as usize)?;
        recovery.paying = recovery.left.pop();
        recovery.paying
    }

    /// What was called last is paid, or put off.
    pub fn note_paid(&mut self, rm: u32, is_put_off: bool) -> Result<(), Memory>
        ensures { self.new.transactions ≡ self.old.transactions }
    {
        let Some(recovery) = self.recoveries.get_mut(rm as usize) else {
            return Ok(());
        };
        if is_put_off {
            recovery.put_off = recovery.put_off.saturating_add(1);
            return Ok(());
        }
        match recovery.paying {
            Some(debt) => self.settle(&debt),
            None => Ok(()),
        }
    }

    /// The recovery is over, and another one is due if a branch is owed there still, or since. The
    /// transactions of earlier sessions of which a branch was owed there.
    pub fn end_recovery(&mut self, rm: u32) -> Result<Vec<Gtrid>, Memory>
        ensures { self.new.transactions ≡ self.old.transactions }
    {
        let is_owed = self.debts.iter().any(|debt| debt.branch.rm == rm);
        let Some(recovery) = self.recoveries.get_mut(rm as usize) else {
            return Ok(Vec::new(self.alloc));
        };
        recovery.stage = Stage::Idle;
        recovery.is_due = recovery.put_off > 0 || is_owed;
        Ok(Vec::from_slice(self.alloc, recovery.rows.as_slice())?)
    }

    /// What was left of a recovery.
    pub fn tell_recovered(&self, rm: u32) -> Result<String, Memory> {
        match self.recoveries.get(rm as usize) {
            Some(recovery) if recovery.put_off > 0 => {
                let left = recovery.put_off;
                Ok(format!(in self.alloc; "recovered owed {left}")?)
            }
            _ => self.text("recovered"),
        }
    }

    /// Which resource managers are to be recovered.
    pub fn tell_due(&self) -> Result<String, Memory> {
        let mut text = String::from_str(self.alloc, "due")?;
        let mut rm = 0u32;
        for recovery in self.recoveries.as_slice() {
            if recovery.is_due {
                let word = format!(in self.alloc; " {rm}")?;
                text.push_str(word.as_str())?;
            }
            rm = rm.wrapping_add(1);
        }
        Ok(text)
    }

    /// What became of a transaction that the session before was deciding. Of an older one a session in between may have
    /// seen to it; and a row may be there of which this session knows nothing.
    pub fn tell_fate(&self, gtrid: Gtrid) -> Result<String, Memory> {
        if self.found.as_slice().contains(&gtrid) {
            return self.text("committed");
        }
        if self.has_found_all && gtrid.incarnation.wrapping_add(1) == self.incarnation {
            return self.text("rolled-back");
        }
        self.text("unknown")
    }
}
