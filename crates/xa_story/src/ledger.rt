//! What the manager knows of its transactions, and the rows of its log.

ghost use Rattle.std.specs.Prelude.{◌≡◌, ◌++◌, [], ◌∷◌, IfOk, OnOk, filter, not};
ghost use Rattle.std.specs.List.{list_any};
ghost use Rattle.xa_base.specs.Branch.{gtrid_eq};
ghost use Rattle.xa_story.specs.Rows.{counts_as_done, waited_for};

use std::alloc::{AllocError, Global};
use xa_base::{Answer, Branch, Call, Code, Gtrid, Memory, Part, Xid};

/// How it was settled how a transaction ends.
#[derive(Clone, Copy)]
pub enum Settlement {
    /// It was decided to commit, by a row in the log.
    Row,
    /// It was decided to commit, with no row, since all its branches have only read.
    NoRow,
    /// It was decided to roll back.
    Rollback,
    /// It was handed over to the resource manager of its one branch.
    HandedOver,
}

/// A transaction that is settled, since the event of a number.
#[derive(Clone, Copy)]
pub struct Ending {
    pub gtrid: Gtrid,
    pub since: usize,
    pub settlement: Settlement,
}

/// What hearing an answer means to the manager.
#[derive(Clone, Copy)]
pub enum Meaning {
    /// The branch votes yes.
    Yes(Branch),
    /// The branch votes read-only.
    ReadOnly(Branch),
    /// The branch votes no.
    No(Branch),
    /// The branch has acknowledged its xa_commit.
    Acknowledges(Branch),
    /// The branch was ended by its resource manager alone, and that is recorded.
    Records(Branch),
    /// Nothing more than was known when the call was taken.
    Nothing,
}

/// What hearing the answer to a call on a branch means.
fn meaning_for(call: &Call, branch: Branch, code: Code) -> Meaning {
    match (call, code) {
        (Call::Prepare { .. }, Code::Success) => Meaning::Yes(branch),
        (Call::Prepare { .. }, Code::ReadOnly) => Meaning::ReadOnly(branch),
        (Call::Prepare { .. }, Code::RolledBack(_)) => Meaning::No(branch),
        (
            Call::Commit {
                one_phase: false,
                ..
            },
            Code::Success | Code::NotAnXid,
        ) => Meaning::Acknowledges(branch),
        (Call::Commit { .. } | Call::Rollback { .. }, Code::Heuristic(_)) => {
            Meaning::Records(branch)
        }
        _ => Meaning::Nothing,
    }
}

/// What hearing an answer means.
pub fn meaning_of(call: &Call, answer: &Answer) -> Meaning {
    let Answer::Ret(code) = answer else {
        return Meaning::Nothing;
    };
    let Some(xid) = call.xid() else {
        return Meaning::Nothing;
    };
    match xid.branch() {
        Some(branch) => meaning_for(call, branch, *code),
        None => Meaning::Nothing,
    }
}

/// The transaction of an identifier.
pub fn gtrid_of(xid: &Xid) -> Option<Gtrid> {
    Some(xid.branch()?.gtrid)
}

/// All transactions but one.
fn others(alloc: Global, gtrids: &[Gtrid], gtrid: Gtrid) -> Result<Vec<Gtrid>, AllocError>
    ensures { IfOk result (λ others.
        others.items ≡ filter (λ other. not (gtrid_eq other gtrid)) gtrids.now) }
{
    gtrids
        .iter()
        .copied()
        .filter(|other| *other != gtrid)
        .collect(alloc)
}

/// A transaction of which a resource manager listed a branch.
#[derive(Clone, Copy)]
struct Listed {
    rm: u32,
    gtrid: Gtrid,
}

/// What the manager knows, and its log.
#[derive(Drop)]
pub struct Ledger {
    /// The transactions that were begun since the manager came up.
    begun: Vec<Gtrid>,
    /// Those of them that were claimed.
    claimed: Vec<Gtrid>,
    /// What each resource manager listed last, as it was heard on thread 0's line.
    listed: Vec<Listed>,
    /// The branches whose yes was heard since the manager came up.
    yes: Vec<Branch>,
    /// The transactions with a row.
    rows: Vec<Gtrid>,
    /// The branches that said yes to them.
    participants: Vec<Branch>,
    /// The branches that have acknowledged since the manager came up.
    acknowledged: Vec<Branch>,
    /// The branches with a record.
    recorded: Vec<Branch>,
    /// How each transaction was settled.
    endings: Vec<Ending>,
}

impl Ledger {
    /// Nothing has happened, and the log is empty.
    pub fn new(alloc: Global) -> Ledger {
        Ledger {
            begun: Vec::new(alloc),
            claimed: Vec::new(alloc),
            listed: Vec::new(alloc),
            yes: Vec::new(alloc),
            rows: Vec::new(alloc),
            participants: Vec::new(alloc),
            acknowledged: Vec::new(alloc),
            recorded: Vec::new(alloc),
            endings: Vec::new(alloc),
        }
    }

    /// Whether the transaction has a row.
    pub fn has_row(&self, gtrid: Gtrid) -> bool
        ensures { result ≡ list_any (λ row. gtrid_eq row gtrid) self.now.rows.items }
    {
        self.rows.contains(&gtrid)
    }

    /// Whether no row waits for the branch any more: it has acknowledged, or has a record.
    fn counts_as_done(&self, branch: Branch) -> bool
        ensures { result ≡ counts_as_done self.now branch }
    {
        self.acknowledged.contains(&branch) || self.recorded.contains(&branch)
    }

    /// The branches that the row of a transaction waits for.
    pub fn waits_for(&self, alloc: Global, gtrid: Gtrid) -> Result<Vec<Branch>, Memory>
        ensures { IfOk result (λ left. left.items ≡ waited_for self.now gtrid) }
    {
        let mut left = Vec::new(alloc);
        for branch in self.participants.iter() {
            if branch.gtrid == gtrid && !self.counts_as_done(*branch) {
                left.push(*branch)?;
            }
        }
        Ok(left)
    }

    /// A transaction is begun.
    pub fn begin(&mut self, gtrid: Gtrid) -> Result<(), Memory>
        ensures { OnOk result (self.new.begun.items ≡ self.old.begun.items ++ gtrid ∷ []) }
    {
        Ok(self.begun.push(gtrid)?)
    }

    /// A transaction is claimed.
    pub fn claim(&mut self, gtrid: Gtrid) -> Result<(), Memory>
        ensures { OnOk result (self.new.claimed.items ≡ self.old.claimed.items ++ gtrid ∷ []) }
    {
        Ok(self.claimed.push(gtrid)?)
    }

    /// What a resource manager listed before counts no more.
    fn forget_page(&mut self, alloc: Global, rm: u32) -> Result<(), Memory> {
        let mut left = Vec::new(alloc);
        for item in self.listed.iter() {
            if item.rm != rm {
                left.push(*item)?;
            }
        }
        self.listed = left;
        Ok(())
    }

    /// The manager hears what a resource manager lists.
    pub fn hear_page(&mut self, alloc: Global, rm: u32, xids: &[Xid]) -> Result<(), Memory> {
        self.forget_page(alloc, rm)?;
        for xid in xids {
            if let Some(gtrid) = gtrid_of(xid) {
                self.listed.push(Listed { rm, gtrid })?;
            }
        }
        Ok(())
    }

    /// Whether a recovery may decide to roll the transaction back.
    fn is_open(&self, gtrid: Gtrid) -> bool {
        let is_shut = self.claimed.contains(&gtrid) || self.ending(gtrid).is_some();
        self.begun.contains(&gtrid) && !is_shut
    }

    /// A recovery at a resource manager decides to roll back what is open of what that listed.
    /// Tells what it is.
    pub fn roll_back_open(
        &mut self,
        alloc: Global,
        since: usize,
        rm: u32,
    ) -> Result<Vec<Gtrid>, Memory> {
        let mut decided = Vec::new(alloc);
        for item in self.listed.iter() {
            if item.rm == rm && self.is_open(item.gtrid) && !decided.contains(&item.gtrid) {
                decided.push(item.gtrid)?;
            }
        }
        for gtrid in decided.iter() {
            self.settle(*gtrid, since, Settlement::Rollback)?;
        }
        Ok(decided)
    }

    /// The manager hears an answer.
    pub fn hear(&mut self, meaning: Meaning) -> Result<(), Memory> {
        match meaning {
            Meaning::Yes(branch) => self.yes.push(branch)?,
            Meaning::Acknowledges(branch) => self.acknowledged.push(branch)?,
            Meaning::Records(branch) if !self.recorded.contains(&branch) => {
                self.recorded.push(branch)?;
            }
            _ => {}
        }
        Ok(())
    }

    /// The transaction is settled.
    pub fn settle(
        &mut self,
        gtrid: Gtrid,
        since: usize,
        settlement: Settlement,
    ) -> Result<(), Memory> {
        Ok(
            self.endings.push(Ending {
                gtrid,
                since,
                settlement,
            })?,
        )
    }

    /// The transaction is decided to commit: it has a row, if any of its branches said yes.
    pub fn commit(&mut self, gtrid: Gtrid) -> Result<(), Memory> {
        let mut is_new = true;
        for branch in self.yes.iter() {
            if branch.gtrid == gtrid {
                self.participants.push(*branch)?;
                if is_new {
                    self.rows.push(gtrid)?;
                    is_new = false;
                }
            }
        }
        Ok(())
    }

    /// The row of the transaction leaves the log.
    pub fn forget(&mut self, alloc: Global, gtrid: Gtrid) -> Result<(), Memory>
        ensures { OnOk result (self.new.rows.items
            ≡ filter (λ row. not (gtrid_eq row gtrid)) self.old.rows.items) }
    {
        self.rows = others(alloc, &self.rows, gtrid)?;
        Ok(())
    }

    /// A part crashes. What the manager knew is lost with it, and what was listed with the line on
    /// which it was heard; the log stays.
    pub fn lose(&mut self, alloc: Global, part: Part) -> Result<(), Memory> {
        match part {
            Part::Line { thread: 0, rm } | Part::Rm { rm } => self.forget_page(alloc, rm),
            Part::Line { .. } => Ok(()),
            Part::Manager => {
                self.begun.clear();
                self.claimed.clear();
                self.listed.clear();
                self.yes.clear();
                self.acknowledged.clear();
                Ok(())
            }
        }
    }

    /// How a transaction was settled, and when.
    pub fn ending(&self, gtrid: Gtrid) -> Option<Ending> {
        self.endings
            .iter()
            .find(|ending| ending.gtrid == gtrid)
            .copied()
    }

    /// The transactions with a row.
    pub fn rows(&self) -> &[Gtrid]
        ensures { result.now ≡ self.now.rows.items }
    {
        self.rows.as_slice()
    }
}
