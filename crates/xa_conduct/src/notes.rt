//! What a conductor notes of its threads and resource managers. Nothing here touches the server: what is to be asked of it
//! goes into a plan. A file for what follows from a line of moves, and one for recoveries.

ghost use Rattle.std.specs.Prelude.{◌≡◌, ◌≤◌, ◌∷◌, [], length, All, Bool, IfOk, Some};
ghost use Rattle.xa_conduct.specs.AtRest.{IsAtRest, IsFirstMove, MovesTheirs};
ghost use Rattle.xa_conduct.specs.Backing.{KeepResting, TransactionRests};
ghost use Rattle.xa_conduct.specs.Decided.{AsksNoLess};
ghost use Rattle.xa_conduct.specs.Moves.{AreMovedOnce, ArePairedInOrder, IsOfThread, IsReplyOf, thread_of};
ghost use Rattle.xa_conduct.specs.NotStuck.{IsTakenSo, reply_if};
ghost use Rattle.xa_conduct.specs.NotStuck.{may_commit, may_join, may_roll_back, may_tell};
ghost use Rattle.xa_conduct.specs.Progress.{AllStep};
ghost use Rattle.xa_requests.specs.declared.request.Request.{Request};

mod outcomes;
mod recoveries;

use crate::debt::{Debt, Due};
use crate::moves::Move;
use crate::plan::Plan;
use crate::recovery::Recovery;
use crate::report::Report;
use crate::transaction::Transaction;
use std::alloc::Global;
use xa_base::{Gtrid, Memory};

/// So many transactions may wait for their rows to leave the log.
const MOST_OVER: usize = 1024;

/// What a move of a thread is replied, once all of its line is done.
#[derive(Clone, Copy)]
pub(crate) enum Reply {
    /// What its transaction is told.
    Thread(u32),
    /// The thread's first transaction began.
    Started(u32, Gtrid),
    NoMove,
    NotNow,
}

/// What is noted.
#[derive(Drop)]
pub(crate) struct Notes {
    pub alloc: Global,
    pub incarnation: u64,
    /// How many transactions have begun.
    pub begun: u64,
    /// The transaction of each thread.
    pub transactions: Vec<Transaction>,
    /// The recovery of each resource manager.
    pub recoveries: Vec<Recovery>,
    pub debts: Vec<Debt>,
    /// Committed transactions whose rows may leave the log.
    pub over: Vec<Gtrid>,
    /// The transactions that had a row at the start, as far as resource managers of this session are owed something.
    pub found: Vec<Gtrid>,
    /// Whether these are all that had one.
    pub has_found_all: bool,
    /// Nothing is told any more: a request was refused, or a resource manager listed a branch of another log.
    pub is_stopped: bool,
    pub has_quit: bool,
    pub is_strange: bool,
    ghost few_over: { length over.items ≤ 1024 },
}

impl Notes {
    /// Nothing has happened in this incarnation, of so many threads and resource managers.
    pub fn new(alloc: Global, incarnation: u64, threads: u32, rms: u32) -> Result<Notes, Memory>
        ensures rests { IfOk result (λ notes. (asked : (Request → Bool) → Bool) →
            All (TransactionRests asked) notes.transactions.items) }
        ensures at_rest { IfOk result (λ notes. All IsAtRest notes.transactions.items) }
    {
        let mut transactions = Vec::with_capacity(alloc, threads as usize)?;
        for thread in 0..threads {
            let transaction = Transaction::new(alloc, thread, rms)?;
            transactions.push(transaction)?;
        }
        let mut recoveries = Vec::with_capacity(alloc, rms as usize)?;
        for _ in 0..rms {
            recoveries.push(Recovery::new(alloc))?;
        }
        Ok(Notes {
            alloc,
            incarnation,
            begun: 0,
            transactions,
            recoveries,
            debts: Vec::new(alloc),
            over: Vec::new(alloc),
            found: Vec::new(alloc),
            has_found_all: false,
            is_stopped: false,
            has_quit: false,
            is_strange: false,
        })
    }

    /// The name of the transaction that begins next.
    fn next(&mut self) -> Gtrid
        ensures { self.new.transactions ≡ self.old.transactions }
    {
        self.begun = self.begun.wrapping_add(1);
        Gtrid {
            incarnation: self.incarnation,
            sequence: self.begun,
        }
    }

    /// Whether transactions may begin: over a new log each resource manager is looked at before.
    fn may_begin(&self) -> bool {
        self.incarnation != 1 || self.recoveries.iter().all(|recovery| recovery.is_scanned)
    }

    /// Takes the moves of a line. A thread moves once on it, since no move can rest on a reply that its driver has yet
    /// to read.
    pub fn take_all(
        &mut self,
        moves: &[Option<Move>],
        plan: &mut Plan,
    ) -> Result<Vec<Reply>, Memory>
        ensures count { IfOk result (λ replies. length replies.items ≡ length moves.now) }
        ensures threads { IfOk result (λ replies.
            ArePairedInOrder IsReplyOf moves.now replies.items) }
        ensures once { IfOk result (λ replies. AreMovedOnce replies.items) }
        ensures moves { IfOk result (λ replies. MovesTheirs replies.items
            self.old.transactions.items self.new.transactions.items) }
        ensures steps { IfOk result (λ replies. AllStep replies.items
            self.old.transactions.items self.new.transactions.items) }
        ensures more { IfOk result (λ _.
            AsksNoLess plan.old.requests.items plan.new.requests.items) }
        ensures rests { IfOk result (λ _. KeepResting plan.old.requests.items
            plan.new.requests.items self.old.transactions.items self.new.transactions.items) }
    {
        let mut replies = Vec::with_capacity(self.alloc, moves.len())?;
        for asked in moves {
            let reply = match asked {
                Some(asked) => self.take(asked, plan)?,
                None => Reply::NoMove,
            };
            replies.push(reply)?;
        }
        Ok(replies)
    }

    /// Takes a move of a thread: what is to be asked for goes into the plan.
    fn take(&mut self, asked: &Move, plan: &mut Plan) -> Result<Reply, Memory>
        ensures thread { IfOk result (IsOfThread (thread_of asked.now)) }
        ensures taken { IfOk result (IsTakenSo (length self.old.recoveries.items)
            self.old.transactions.items asked.now) }
        ensures first { IfOk result (IsFirstMove self.old.transactions.items) }
        ensures moves { IfOk result (λ reply. MovesTheirs (reply ∷ [])
            self.old.transactions.items self.new.transactions.items) }
        ensures steps { IfOk result (λ reply. AllStep (reply ∷ [])
            self.old.transactions.items self.new.transactions.items) }
        ensures more { IfOk result (λ _.
            AsksNoLess plan.old.requests.items plan.new.requests.items) }
        ensures rests { IfOk result (λ _. KeepResting plan.old.requests.items
            plan.new.requests.items self.old.transactions.items self.new.transactions.items) }
    {
        match asked {
            Move::Start { thread } => self.start(*thread, plan),
            Move::Join { thread, rms } => self.join(*thread, rms.as_slice(), plan),
            Move::Commit { thread } => self.commit(*thread, plan),
            Move::Rollback { thread } => self.roll_back(*thread, plan),
            Move::Tell { thread, reports } => self.tell(*thread, reports.as_slice(), plan),
            _ => Ok(Reply::NoMove),
        }
    }

    /// The first transaction of a thread begins. The first thread is the recovery's.
    fn start(&mut self, thread: u32, plan: &mut Plan) -> Result<Reply, Memory>
        ensures thread { IfOk result (IsOfThread (Some thread)) }
        ensures first { IfOk result (IsFirstMove self.old.transactions.items) }
        ensures moves { IfOk result (λ reply. MovesTheirs (reply ∷ [])
            self.old.transactions.items self.new.transactions.items) }
        ensures steps { IfOk result (λ reply. AllStep (reply ∷ [])
            self.old.transactions.items self.new.transactions.items) }
        ensures more { IfOk result (λ _.
            AsksNoLess plan.old.requests.items plan.new.requests.items) }
        ensures rests { IfOk result (λ _. KeepResting plan.old.requests.items
            plan.new.requests.items self.old.transactions.items self.new.transactions.items) }
    {
        if thread == 0 || !self.may_begin() {
            return Ok(Reply::NotNow);
        }
        match self.transactions.get(thread as usize) {
            Some(transaction) if transaction.may_begin() => {}
            _ => return Ok(Reply::NotNow),
        }
        let gtrid = self.next();
        if let Some(transaction) = self.transactions.get_mut(thread as usize) {
            transaction.begin(gtrid);
            transaction.has_moved = true;
        }
        plan.begin(thread)?;
        Ok(Reply::Started(thread, gtrid))
    }

    /// Branches began.
    #[tactic(auto, using(crate::proofs::NotStuckLemmas::reply_none))]
    fn join(&mut self, thread: u32, rms: &[u32], plan: &mut Plan) -> Result<Reply, Memory>
        ensures thread { IfOk result (IsOfThread (Some thread)) }
        ensures taken { IfOk result (λ reply. reply ≡ reply_if self.old.transactions.items thread
            (may_join rms.now (length self.old.recoveries.items))) }
        ensures first { IfOk result (IsFirstMove self.old.transactions.items) }
        ensures moves { IfOk result (λ reply. MovesTheirs (reply ∷ [])
            self.old.transactions.items self.new.transactions.items) }
        ensures steps { IfOk result (λ reply. AllStep (reply ∷ [])
            self.old.transactions.items self.new.transactions.items) }
        ensures more { IfOk result (λ _.
            AsksNoLess plan.old.requests.items plan.new.requests.items) }
        ensures rests { IfOk result (λ _. KeepResting plan.old.requests.items
            plan.new.requests.items self.old.transactions.items self.new.transactions.items) }
    {
        let count = self.recoveries.len();
        match self.transactions.get_mut(thread as usize) {
            Some(transaction) if transaction.may_join(rms, count) => transaction.join(rms, plan)?,
            _ => return Ok(Reply::NotNow),
        }
        Ok(Reply::Thread(thread))
    }

    /// The work is over, and is to be committed.
    #[tactic(auto, using(crate::proofs::NotStuckLemmas::reply_none))]
    fn commit(&mut self, thread: u32, plan: &mut Plan) -> Result<Reply, Memory>
        ensures thread { IfOk result (IsOfThread (Some thread)) }
        ensures taken { IfOk result (λ reply.
            reply ≡ reply_if self.old.transactions.items thread may_commit) }
        ensures first { IfOk result (IsFirstMove self.old.transactions.items) }
        ensures moves { IfOk result (λ reply. MovesTheirs (reply ∷ [])
            self.old.transactions.items self.new.transactions.items) }
        ensures steps { IfOk result (λ reply. AllStep (reply ∷ [])
            self.old.transactions.items self.new.transactions.items) }
        ensures more { IfOk result (λ _.
            AsksNoLess plan.old.requests.items plan.new.requests.items) }
        ensures rests { IfOk result (λ _. KeepResting plan.old.requests.items
            plan.new.requests.items self.old.transactions.items self.new.transactions.items) }
    {
        match self.transactions.get_mut(thread as usize) {
            Some(transaction) if transaction.may_commit() => transaction.finish(plan)?,
            _ => return Ok(Reply::NotNow),
        }
        Ok(Reply::Thread(thread))
    }

    /// It is to be rolled back.
    #[tactic(auto, using(crate::proofs::NotStuckLemmas::reply_none))]
    fn roll_back(&mut self, thread: u32, plan: &mut Plan) -> Result<Reply, Memory>
        ensures thread { IfOk result (IsOfThread (Some thread)) }
        ensures taken { IfOk result (λ reply.
            reply ≡ reply_if self.old.transactions.items thread may_roll_back) }
        ensures first { IfOk result (IsFirstMove self.old.transactions.items) }
        ensures moves { IfOk result (λ reply. MovesTheirs (reply ∷ [])
            self.old.transactions.items self.new.transactions.items) }
        ensures steps { IfOk result (λ reply. AllStep (reply ∷ [])
            self.old.transactions.items self.new.transactions.items) }
        ensures more { IfOk result (λ _.
            AsksNoLess plan.old.requests.items plan.new.requests.items) }
        ensures rests { IfOk result (λ _. KeepResting plan.old.requests.items
            plan.new.requests.items self.old.transactions.items self.new.transactions.items) }
    {
        match self.transactions.get_mut(thread as usize) {
            Some(transaction) if transaction.may_roll_back() => transaction.roll_back(None, plan)?,
            _ => return Ok(Reply::NotNow),
        }
        Ok(Reply::Thread(thread))
    }

    /// The calls that were told were answered so.
    #[tactic(auto, using(crate::proofs::NotStuckLemmas::reply_none))]
    fn tell(&mut self, thread: u32, reports: &[Report], plan: &mut Plan) -> Result<Reply, Memory>
        ensures thread { IfOk result (IsOfThread (Some thread)) }
        ensures taken { IfOk result (λ reply.
            reply ≡ reply_if self.old.transactions.items thread (may_tell reports.now)) }
        ensures first { IfOk result (IsFirstMove self.old.transactions.items) }
        ensures moves { IfOk result (λ reply. MovesTheirs (reply ∷ [])
            self.old.transactions.items self.new.transactions.items) }
        ensures steps { IfOk result (λ reply. AllStep (reply ∷ [])
            self.old.transactions.items self.new.transactions.items) }
        ensures more { IfOk result (λ _.
            AsksNoLess plan.old.requests.items plan.new.requests.items) }
        ensures rests { IfOk result (λ _. KeepResting plan.old.requests.items
            plan.new.requests.items self.old.transactions.items self.new.transactions.items) }
    {
        let Some(transaction) = self.transactions.get_mut(thread as usize) else {
            return Ok(Reply::NotNow);
        };
        if !transaction.takes(reports) {
            return Ok(Reply::NotNow);
        }
        transaction.hear(reports, plan, &mut self.debts)?;
        for part in transaction.parts.as_slice() {
            if part.is_owed() {
                if let Some(recovery) = self.recoveries.get_mut(part.rm as usize) {
                    recovery.is_due = true;
                }
            }
        }
        Ok(Reply::Thread(thread))
    }

    /// A debt of this session is paid: if it was the last of a committed transaction, its row may leave the log.
    fn settle(&mut self, debt: &Debt) -> Result<(), Memory>
        ensures { self.new.transactions ≡ self.old.transactions }
    {
        let branch = debt.branch;
        let due = debt.due;
        let before = self.debts.len();
        self.debts
            .retain(|other| other.branch != branch || other.due != due);
        if self.debts.len() < before
            && due == Due::Commit
            && self.debts.iter().all(|other| other.branch.gtrid != branch.gtrid
                || other.due != Due::Commit)
        {
            add_over(&mut self.over, branch.gtrid)?;
        }
        Ok(())
    }

    /// A text.
    fn text(&self, text: &str) -> Result<String, Memory> {
        Ok(String::from_str(self.alloc, text)?)
    }
}

/// Adds a transaction whose row may leave the log. One that is one too many stays there until the next session.
fn add_over(over: &mut Vec<Gtrid>, gtrid: Gtrid) -> Result<(), Memory>
    requires { length over.old.items ≤ 1024 }
    ensures { length over.new.items ≤ 1024 }
{
    if over.len() < MOST_OVER {
        over.push(gtrid)?;
    }
    Ok(())
}
