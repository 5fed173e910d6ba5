//! The transaction of a thread, and how far it has come. Nothing here touches the server: what is to be asked of it goes
//! into a plan.

ghost use Rattle.std.specs.Prelude.{◌≡◌, ◌<◌, ◌≤◌, ◌-◌, Bool, true, false, IfOk};
ghost use Rattle.std.specs.Prelude.{ℕ, length, nat_lt, if◌then◌else◌};
ghost use Rattle.std.specs.List.{list_all, list_any};
ghost use Rattle.xa_conduct.specs.AtRest.{IsAtRest};
ghost use Rattle.xa_conduct.specs.Backing.{KeepAllBacked, KeepsResting, TransactionRests, branch_at_rm};
ghost use Rattle.xa_conduct.specs.Backing.{standing_once_heard};
ghost use Rattle.xa_conduct.specs.Decided.{AsksNoLess, CommitIsAsked, is_for, is_rollback_of};
ghost use Rattle.xa_conduct.specs.NotStuck.{are_answers, are_undone, calls_of, is_ready, is_undecided};
ghost use Rattle.xa_conduct.specs.NotStuck.{may_commit, may_join, may_roll_back, may_tell};
ghost use Rattle.xa_conduct.specs.Over.{has_calls, has_left, has_spare_row, is_decided, is_all_answered};
ghost use Rattle.xa_conduct.specs.Places.{is_asked};
ghost use Rattle.xa_conduct.specs.Progress.{IsBegun, Steps, are_working, branch_steps, is_asked_in};
ghost use Rattle.xa_conduct.specs.Progress.{is_part_at, is_new_at, steps_to};
ghost use Rattle.xa_conduct.specs.Texts.{first_verb};
ghost use Rattle.xa_conduct.specs.declared.transaction.Standing.TheVariants as Standings;
ghost use Rattle.xa_requests.specs.declared.request.Request.{Request};

use crate::debt::Debt;
use crate::meaning::Heard;
use crate::part::Part;
use crate::place::Place;
use crate::plan::Plan;
use crate::report::Report;
use std::alloc::{AllocError, Global};
use xa_base::{Branch, Code, Gtrid, Outcome, RbCode};

/// How the transaction stands.
#[derive(Clone, Copy, Debug, PartialEq, Eq)]
pub(crate) enum Standing {
    /// The thread's first transaction hasn't begun.
    Idle,
    /// Nothing is decided.
    Open,
    /// Each branch has voted for commit: the decision is due.
    Ready,
    Committed,
    /// Rolled back: where a branch is the reason, why, and at which resource manager.
    RolledBack(Option<(RbCode, u32)>),
    /// Its one branch was to be committed in one phase, and nobody knows how it ended.
    Unknown,
}

/// The transaction of a thread.
#[derive(Drop)]
pub(crate) struct Transaction {
    pub thread: u32,
    pub gtrid: Gtrid,
    pub standing: Standing,
    /// Whether a branch voted yes, so that a commit has a row.
    pub has_row: bool,
    /// Whether the line that is being read has moved it already. It moves once on a line, since no move can rest on a
    /// reply that its driver has yet to read.
    pub has_moved: bool,
    pub parts: Vec<Part>,
    /// By resource manager, whether the thread's line to it is open.
    pub lines: Vec<bool>,
}

/// Whether a report is a vote for commit.
fn is_for(report: Report) -> bool
    ensures { result ≡ is_for report }
{
    match report {
        Report::Code(Code::Success) | Report::Code(Code::ReadOnly) => true,
        _ => false,
    }
}

/// Whether all of these are.
fn are_for(reports: &[Report]) -> bool
    ensures { result ≡ list_all is_for reports.now }
{
    reports.iter().all(|report| is_for(*report))
}

/// The calls of the first phase wait, of each of these branches of which they don't yet.
fn prepare_each(
    parts: &mut [Part],
    gtrid: Gtrid,
    thread: u32,
    plan: &mut Plan,
) -> Result<(), AllocError>
    ensures steps { IfOk result (λ _. branch_steps parts.old ≤ branch_steps parts.new) }
    ensures more { IfOk result (λ _. AsksNoLess plan.old.requests.items plan.new.requests.items) }
    ensures backed { IfOk result (λ _. KeepAllBacked plan.old.requests.items
        plan.new.requests.items gtrid thread parts.old parts.new) }
{
    for part in parts {
        let rm = part.rm;
        part.prepare(Branch { gtrid, thread, rm }, plan)?;
    }
    Ok(())
}

/// Each of these branches that is prepared is to be committed. Whether one is.
fn commit_each(
    parts: &mut [Part],
    gtrid: Gtrid,
    thread: u32,
    plan: &mut Plan,
) -> Result<bool, AllocError>
    requires { CommitIsAsked plan.old.requests.items gtrid }
    ensures steps { IfOk result (λ _. branch_steps parts.old ≤ branch_steps parts.new) }
    ensures more { IfOk result (λ _. AsksNoLess plan.old.requests.items plan.new.requests.items) }
    ensures backed { IfOk result (λ _. KeepAllBacked plan.old.requests.items
        plan.new.requests.items gtrid thread parts.old parts.new) }
{
    let mut is_one = false;
    for part in parts {
        let rm = part.rm;
        if part.commit(Branch { gtrid, thread, rm }, plan)? {
            is_one = true;
        }
    }
    Ok(is_one)
}

/// Each of these branches that isn't over is to be rolled back.
fn undo_each(
    parts: &mut [Part],
    gtrid: Gtrid,
    thread: u32,
    plan: &mut Plan,
) -> Result<(), AllocError>
    requires { list_any (is_rollback_of gtrid) plan.old.requests.items ≡ true }
    ensures steps { IfOk result (λ _. branch_steps parts.old ≤ branch_steps parts.new) }
    ensures more { IfOk result (λ _. AsksNoLess plan.old.requests.items plan.new.requests.items) }
    ensures backed { IfOk result (λ _. KeepAllBacked plan.old.requests.items
        plan.new.requests.items gtrid thread parts.old parts.new) }
{
    for part in parts {
        let rm = part.rm;
        part.undo(Branch { gtrid, thread, rm }, plan)?;
    }
    Ok(())
}

/// Whether these are numbers of resource managers, of which there are so many.
fn are_below(rms: &[u32], count: usize) -> bool
    ensures { result ≡ list_all (λ (rm : ℕ). nat_lt rm count) rms.now }
{
    rms.iter().all(|rm| (*rm as usize) < count)
}

/// Whether these are answers to the calls that these branches were told, each to the one at its place.
fn are_answers(parts: &[Part], reports: &[Report]) -> bool
    ensures { result ≡ are_answers (calls_of parts.now) reports.now }
{
    let mut at = 0usize;
    for part in parts {
        if !part.place.is_asked() {
            continue;
        }
        if at >= reports.len() {
            return false;
        }
        let report = reports[at];
        if !part.place.takes(report) {
            return false;
        }
        at += 1;
    }
    at == reports.len()
}

impl Transaction {
    /// None has begun.
    pub fn new(alloc: Global, thread: u32, rms: u32) -> Result<Transaction, AllocError>
        ensures rests { IfOk result (λ t. (asked : (Request → Bool) → Bool) →
            TransactionRests asked t) }
        ensures at_rest { IfOk result IsAtRest }
    {
        Ok(Transaction {
            thread,
            gtrid: Gtrid {
                incarnation: 0,
                sequence: 0,
            },
            standing: Standing::Idle,
            has_row: false,
            has_moved: false,
            parts: Vec::new(alloc),
            lines: vec![in alloc; false; rms as usize]?,
        })
    }

    /// The next transaction has begun.
    pub fn begin(&mut self, gtrid: Gtrid)
        ensures rests { (asked : (Request → Bool) → Bool) → TransactionRests asked self.new }
        ensures begun { IsBegun gtrid self.new }
        ensures moved { self.new.has_moved ≡ false }
    {
        self.gtrid = gtrid;
        self.standing = Standing::Open;
        self.has_row = false;
        self.has_moved = false;
        self.parts.clear();
    }

    /// The branch at a resource manager.
    fn branch_at(&self, rm: u32) -> Branch
        ensures { result ≡ branch_at_rm self.now.gtrid self.now.thread rm }
    {
        Branch {
            gtrid: self.gtrid,
            thread: self.thread,
            rm,
        }
    }

    /// Whether its first transaction may begin.
    pub fn may_begin(&self) -> bool
        ensures { result ≡ true → self.now.has_moved ≡ false }
    {
        self.standing == Standing::Idle && !self.has_moved
    }

    /// Whether all calls that were told are those of the first phase, which may yet not be made.
    pub fn may_roll_back(&self) -> bool
        ensures stands { result ≡ true → self.now.standing ≡ Standings.Open }
        ensures first { result ≡ true → self.now.has_moved ≡ false }
        ensures exact { result ≡ may_roll_back self.now }
    {
        !self.has_moved && self.is_undecided() && self.may_be_undone()
    }

    /// Whether each of its branches may be rolled back by its program.
    fn may_be_undone(&self) -> bool
        ensures { result ≡ are_undone self.now.parts.items }
    {
        self.parts.iter().all(|part| part.place.may_be_undone())
    }

    /// Whether it has begun, and nothing is decided.
    fn is_undecided(&self) -> bool
        ensures { result ≡ is_undecided self.now.standing }
    {
        match self.standing {
            Standing::Open => true,
            _ => false,
        }
    }

    /// Whether its votes are in, and the decision isn't made.
    pub fn is_ready(&self) -> bool
        ensures stands { result ≡ true → self.now.standing ≡ Standings.Ready }
        ensures exact { result ≡ is_ready self.now.standing }
    {
        match self.standing {
            Standing::Ready => true,
            _ => false,
        }
    }

    /// Whether branches may begin at these resource managers, of which there are so many.
    pub fn may_join(&self, rms: &[u32], count: usize) -> bool
        ensures some { result ≡ true → 0 < length rms.now }
        ensures new { result ≡ true → list_all (is_new_at self.now.parts.items) rms.now ≡ true }
        ensures first { result ≡ true → self.now.has_moved ≡ false }
        ensures exact { result ≡ may_join rms.now count self.now }
    {
        !rms.is_empty() && self.may_roll_back() && are_below(rms, count) && self.has_none(rms)
    }

    /// Whether there is no branch at any of these resource managers.
    fn has_none(&self, rms: &[u32]) -> bool
        ensures { result ≡ list_all (is_new_at self.now.parts.items) rms.now }
    {
        rms.iter().all(|rm| !self.has(*rm))
    }

    /// Whether it may be committed without a vote: it has one branch, at which work goes on, or none.
    pub fn may_commit(&self) -> bool
        ensures stands { result ≡ true → self.now.standing ≡ Standings.Open }
        ensures works { result ≡ true → are_working self.now.parts.items ≡ true }
        ensures first { result ≡ true → self.now.has_moved ≡ false }
        ensures exact { result ≡ may_commit self.now }
    {
        self.may_roll_back() && self.parts.len() <= 1 && self.is_working()
    }

    /// Whether work goes on at each of its branches.
    fn is_working(&self) -> bool
        ensures { result ≡ are_working self.now.parts.items }
    {
        self.parts.iter().all(|part| part.is_working())
    }

    /// Whether calls were told that are yet to be answered.
    pub fn is_asked(&self) -> bool
        ensures { result ≡ has_calls self.now }
    {
        self.parts.iter().any(|part| part.place.is_asked())
    }

    /// The call that was told and is yet to be answered, of the first branch that has one.
    pub fn first_verb(&self) -> &'static str
        ensures { result.now ≡ first_verb self.now.parts.items }
    {
        for part in self.parts.as_slice() {
            if part.place.is_asked() {
                return part.place.verb();
            }
        }
        ""
    }

    /// Whether it has an outcome.
    pub fn has_outcome(&self) -> bool
        ensures { result ≡ is_decided self.now.standing }
    {
        match self.standing {
            Standing::Idle | Standing::Open | Standing::Ready => false,
            Standing::Committed | Standing::RolledBack(_) | Standing::Unknown => true,
        }
    }

    /// Whether the transaction is over: decided, with nothing more to be answered.
    pub fn is_over(&self) -> bool
        ensures { result ≡ is_all_answered self.now }
    {
        self.has_outcome() && !self.is_asked()
    }

    /// Whether the end of a branch is left to the recovery.
    pub fn has_left(&self) -> bool
        ensures { result ≡ has_left self.now }
    {
        self.parts.iter().any(|part| part.is_owed())
    }

    /// Whether it is over with a row that no branch needs any more.
    pub fn has_spare_row(&self) -> bool
        ensures over { result ≡ true → is_all_answered self.now ≡ true }
        ensures left { result ≡ true → has_left self.now ≡ false }
        ensures exact { result ≡ has_spare_row self.now }
    {
        if self.has_left() {
            return false;
        }
        self.has_row && self.is_over()
    }

    /// Whether there is a branch at the resource manager.
    fn has(&self, rm: u32) -> bool
        ensures { result ≡ list_any (is_part_at rm) self.now.parts.items }
    {
        self.parts.iter().any(|part| part.rm == rm)
    }

    /// Branches began at these resource managers. Once there are two, the calls of the first phase wait.
    pub fn join(&mut self, rms: &[u32], plan: &mut Plan) -> Result<(), AllocError>
        ensures moved { IfOk result (λ _. self.new.has_moved ≡ true) }
        ensures steps { 0 < length rms.now →
            list_all (is_new_at self.old.parts.items) rms.now ≡ true →
            IfOk result (λ _. Steps 1 self.old self.new) }
        ensures more { IfOk result (λ _.
            AsksNoLess plan.old.requests.items plan.new.requests.items) }
        ensures rests { IfOk result (λ _. KeepsResting plan.old.requests.items
            plan.new.requests.items self.old self.new) }
    {
        self.has_moved = true;
        for rm in rms {
            if !self.has(*rm) {
                self.add(*rm, plan)?;
            }
        }
        if self.parts.len() > 1 {
            self.prepare(plan)?;
        }
        Ok(())
    }

    /// A branch began at the resource manager.
    fn add(&mut self, rm: u32, plan: &mut Plan) -> Result<(), AllocError>
        ensures moved { IfOk result (λ _. self.new.has_moved ≡ self.old.has_moved) }
        ensures steps { IfOk result (λ _. Steps 1 self.old self.new) }
        ensures more { IfOk result (λ _.
            AsksNoLess plan.old.requests.items plan.new.requests.items) }
        ensures rests { IfOk result (λ _. KeepsResting plan.old.requests.items
            plan.new.requests.items self.old self.new) }
    {
        self.open(rm, plan)?;
        plan.start(self.branch_at(rm))?;
        self.parts.push(Part::new(rm))?;
        Ok(())
    }

    /// The thread's line to the resource manager is open.
    fn open(&mut self, rm: u32, plan: &mut Plan) -> Result<(), AllocError>
        ensures moved { IfOk result (λ _. self.new.has_moved ≡ self.old.has_moved) }
        ensures more { IfOk result (λ _.
            AsksNoLess plan.old.requests.items plan.new.requests.items) }
        ensures gtrid { self.new.gtrid ≡ self.old.gtrid }
        ensures thread { self.new.thread ≡ self.old.thread }
        ensures standing { self.new.standing ≡ self.old.standing }
        ensures parts { self.new.parts ≡ self.old.parts }
    {
        let Some(is_open) = self.lines.get_mut(rm as usize) else {
            return Ok(());
        };
        if *is_open {
            return Ok(());
        }
        *is_open = true;
        plan.open(self.thread, rm)
    }

    /// The calls of the first phase wait, of each branch of which they don't yet.
    fn prepare(&mut self, plan: &mut Plan) -> Result<(), AllocError>
        ensures moved { IfOk result (λ _. self.new.has_moved ≡ self.old.has_moved) }
        ensures steps { IfOk result (λ _. Steps 0 self.old self.new) }
        ensures more { IfOk result (λ _.
            AsksNoLess plan.old.requests.items plan.new.requests.items) }
        ensures rests { IfOk result (λ _. KeepsResting plan.old.requests.items
            plan.new.requests.items self.old self.new) }
    {
        let gtrid = self.gtrid;
        let thread = self.thread;
        prepare_each(self.parts.as_mut_slice(), gtrid, thread, plan)?;
        Ok(())
    }

    /// The work is over, and is to be committed: the one branch in one phase.
    pub fn finish(&mut self, plan: &mut Plan) -> Result<(), AllocError>
        ensures moved { IfOk result (λ _. self.new.has_moved ≡ true) }
        ensures steps { self.old.standing ≡ Standings.Open →
            are_working self.old.parts.items ≡ true → IfOk result (λ _. Steps 1 self.old self.new) }
        ensures more { IfOk result (λ _.
            AsksNoLess plan.old.requests.items plan.new.requests.items) }
        ensures rests { IfOk result (λ _. KeepsResting plan.old.requests.items
            plan.new.requests.items self.old self.new) }
    {
        self.has_moved = true;
        let gtrid = self.gtrid;
        let thread = self.thread;
        let Some(part) = self.parts.get_mut(0) else {
            self.standing = Standing::Ready;
            return Ok(());
        };
        let rm = part.rm;
        part.commit_at_once(Branch { gtrid, thread, rm }, plan)?;
        Ok(())
    }

    /// It is decided to roll back: each branch that isn't over is to be rolled back.
    pub fn roll_back(
        &mut self,
        why: Option<(RbCode, u32)>,
        plan: &mut Plan,
    ) -> Result<(), AllocError>
        ensures moved { IfOk result (λ _. self.new.has_moved ≡ true) }
        ensures stands { IfOk result (λ _. self.new.standing ≡ Standings.RolledBack why) }
        ensures steps { IfOk result (λ _.
            Steps (1 - steps_to self.old.standing) self.old self.new) }
        ensures more { IfOk result (λ _.
            AsksNoLess plan.old.requests.items plan.new.requests.items) }
        ensures rests { IfOk result (λ _. KeepsResting plan.old.requests.items
            plan.new.requests.items self.old self.new) }
    {
        let gtrid = self.gtrid;
        let thread = self.thread;
        self.has_moved = true;
        self.standing = Standing::RolledBack(why);
        plan.decide(&[gtrid], Outcome::Rollback)?;
        undo_each(self.parts.as_mut_slice(), gtrid, thread, plan)?;
        Ok(())
    }

    /// It is decided to commit: each prepared branch is to be committed.
    pub fn commit(&mut self, plan: &mut Plan) -> Result<(), AllocError>
        requires ready { self.old.standing ≡ Standings.Ready }
        requires decided { CommitIsAsked plan.old.requests.items self.old.gtrid }
        ensures stands { IfOk result (λ _. self.new.standing ≡ Standings.Committed) }
        ensures moved { IfOk result (λ _. self.new.has_moved ≡ self.old.has_moved) }
        ensures steps { IfOk result (λ _. Steps 0 self.old self.new) }
        ensures kept { IfOk result (λ _.
            AsksNoLess plan.old.requests.items plan.new.requests.items) }
        ensures rests { IfOk result (λ _. KeepsResting plan.old.requests.items
            plan.new.requests.items self.old self.new) }
    {
        let gtrid = self.gtrid;
        let thread = self.thread;
        self.standing = Standing::Committed;
        if commit_each(self.parts.as_mut_slice(), gtrid, thread, plan)? {
            self.has_row = true;
        }
        Ok(())
    }

    /// Whether these are answers to the calls that were told, each to the one at its place.
    pub fn takes(&self, reports: &[Report]) -> bool
        ensures calls { result ≡ true → has_calls self.now ≡ true }
        ensures some { result ≡ true → 0 < length reports.now }
        ensures first { result ≡ true → self.now.has_moved ≡ false }
        ensures exact { result ≡ may_tell reports.now self.now }
    {
        self.is_asked() && are_answers(self.parts.as_slice(), reports) && !self.has_moved
    }

    /// The calls that were told were answered so. It is ready to be committed only if all of them are votes for that.
    pub fn hear(
        &mut self,
        reports: &[Report],
        plan: &mut Plan,
        debts: &mut Vec<Debt>,
    ) -> Result<(), AllocError>
        ensures moved { IfOk result (λ _. self.new.has_moved ≡ true) }
        ensures votes { IfOk result (λ _. self.new.standing ≡ Standings.Ready →
            list_all is_for reports.now ≡ true) }
        ensures steps { has_calls self.old ≡ true → 0 < length reports.now →
            IfOk result (λ _. Steps 1 self.old self.new) }
        ensures more { IfOk result (λ _.
            AsksNoLess plan.old.requests.items plan.new.requests.items) }
        ensures rests { IfOk result (λ _. KeepsResting plan.old.requests.items
            plan.new.requests.items self.old self.new) }
    {
        self.has_moved = true;
        let why = self.hear_parts(reports, plan, debts)?;
        match self.standing {
            Standing::Idle | Standing::Open | Standing::Ready => {
                if why.is_none() && are_for(reports) {
                    self.standing = Standing::Ready;
                    Ok(())
                } else {
                    self.roll_back(why, plan)?;
                    Ok(())
                }
            }
            Standing::Committed | Standing::RolledBack(_) | Standing::Unknown => Ok(()),
        }
    }

    /// Each branch hears its report. Why the transaction can't be committed, if it can't.
    fn hear_parts(
        &mut self,
        reports: &[Report],
        plan: &mut Plan,
        debts: &mut Vec<Debt>,
    ) -> Result<Option<(RbCode, u32)>, AllocError>
        ensures moved { IfOk result (λ _. self.new.has_moved ≡ self.old.has_moved) }
        ensures steps { has_calls self.old ≡ true → 0 < length reports.now →
            IfOk result (λ _. Steps 1 self.old self.new) }
        ensures more { IfOk result (λ _.
            AsksNoLess plan.old.requests.items plan.new.requests.items) }
        ensures rests { IfOk result (λ _. KeepsResting plan.old.requests.items
            plan.new.requests.items self.old self.new) }
    {
        let mut reports = reports.iter();
        let mut why = None;
        for at in 0..self.parts.len() {
            if !self.is_asked_at(at) {
                continue;
            }
            let Some(report) = reports.next() else {
                break;
            };
            let objection = self.hear_at(at, *report, plan, debts)?;
            if why.is_none() {
                why = objection;
            }
        }
        Ok(why)
    }

    /// Whether the branch at this place was told a call.
    fn is_asked_at(&self, at: usize) -> bool
        ensures { result ≡ is_asked_in self.now.parts.items at }
    {
        match self.parts.get(at) {
            Some(part) => part.place.is_asked(),
            None => false,
        }
    }

    /// The branch at this place hears its report. Why the transaction can't be committed, if it can't.
    fn hear_at(
        &mut self,
        at: usize,
        report: Report,
        plan: &mut Plan,
        debts: &mut Vec<Debt>,
    ) -> Result<Option<(RbCode, u32)>, AllocError>
        ensures moved { IfOk result (λ _. self.new.has_moved ≡ self.old.has_moved) }
        ensures steps { IfOk result (λ _. Steps (if is_asked_in self.old.parts.items at
            then 1 else 0) self.old self.new) }
        ensures more { IfOk result (λ _.
            AsksNoLess plan.old.requests.items plan.new.requests.items) }
        ensures rests { IfOk result (λ _. KeepsResting plan.old.requests.items
            plan.new.requests.items self.old self.new) }
    {
        let gtrid = self.gtrid;
        let thread = self.thread;
        let Some(part) = self.parts.get_mut(at) else {
            return Ok(None);
        };
        let rm = part.rm;
        let heard = part.hear(report, Branch { gtrid, thread, rm }, plan, debts)?;
        self.note(heard, rm);
        Ok(heard.objection(rm))
    }

    /// A branch at a resource manager was heard.
    fn note(&mut self, heard: Heard, rm: u32)
        ensures moved { self.new.has_moved ≡ self.old.has_moved }
        ensures gtrid { self.new.gtrid ≡ self.old.gtrid }
        ensures thread { self.new.thread ≡ self.old.thread }
        ensures parts { self.new.parts ≡ self.old.parts }
        ensures standing { self.new.standing ≡ standing_once_heard self.old.standing heard rm }
    {
        if heard.is_line_lost() {
            if let Some(is_open) = self.lines.get_mut(rm as usize) {
                *is_open = false;
            }
        }
        self.standing = standing_after(self.standing, heard, rm);
    }
}

/// How a transaction stands that stood so, once a branch at a resource manager was heard.
fn standing_after(standing: Standing, heard: Heard, rm: u32) -> Standing
    ensures { result ≡ standing_once_heard standing heard rm }
{
    match heard {
        Heard::Committed => Standing::Committed,
        Heard::RolledBack(code) => Standing::RolledBack(Some((code, rm))),
        Heard::LostAtOnce => Standing::Unknown,
        Heard::Nothing | Heard::No(_) | Heard::LostVote | Heard::LostEnd => standing,
    }
}
