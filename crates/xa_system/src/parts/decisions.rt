//! Transactions that begin, are claimed and are decided.
ghost use Rattle.xa_base.specs.declared.step.Step.TheVariants as Steps;
ghost use Rattle.xa_system.specs.Parts.{GoesOn, StandsSomewhere, sees};

use super::Parts;
use crate::site::undone;
use crate::twin::Twin;
use xa_base::{Gtrid, Outcome, Reply};
use xa_log::DecisionLog;
use xa_rm::ResourceManager;

impl<R: ResourceManager + Drop, L: DecisionLog + Drop> Parts<R, L> {
    /// A thread begins a transaction.
    pub(super) fn begin(&mut self, thread: u32) -> Twin
        requires { StandsSomewhere (sees R.look L.moment) self.old }
        ensures { GoesOn (sees R.look L.moment) (Steps.Begin thread) result self.old self.new }
    {
        match self.manager.begin(thread) {
            Ok(gtrid) => Twin::new(Reply::Begun(gtrid), Reply::Begun(gtrid)),
            Err(refusal) => Twin::refused(refusal),
        }
    }

    /// A transaction is claimed.
    pub(super) fn claim(&mut self, gtrid: Gtrid) -> Twin
        requires { StandsSomewhere (sees R.look L.moment) self.old }
        ensures { GoesOn (sees R.look L.moment) (Steps.Claim gtrid) result self.old self.new }
    {
        match self.manager.claim(gtrid) {
            Ok(()) => Twin::new(Reply::Claimed, Reply::Claimed),
            Err(refusal) => Twin::refused(refusal),
        }
    }

    /// A transaction is decided.
    pub(super) fn decide(&mut self, gtrid: Gtrid, outcome: Outcome) -> Twin
        requires { StandsSomewhere (sees R.look L.moment) self.old }
        ensures { GoesOn (sees R.look L.moment) (Steps.Decide gtrid outcome) result self.old
            self.new }
    {
        match self.manager.decide(gtrid, outcome) {
            Ok(()) => Twin::new(Reply::Decided, Reply::Decided),
            Err(refusal) => undone(&mut self.sites, &mut self.lines, refusal),
        }
    }

    /// A claimed transaction is committed.
    pub(super) fn settle(&mut self, gtrid: Gtrid) -> Twin
        requires { StandsSomewhere (sees R.look L.moment) self.old }
        ensures { GoesOn (sees R.look L.moment) (Steps.Settle gtrid) result self.old self.new }
    {
        match self.manager.settle(gtrid) {
            Ok(()) => Twin::new(Reply::Decided, Reply::Decided),
            Err(refusal) => undone(&mut self.sites, &mut self.lines, refusal),
        }
    }

    /// The row of a transaction leaves the log.
    pub(super) fn done(&mut self, gtrid: Gtrid) -> Twin
        requires { StandsSomewhere (sees R.look L.moment) self.old }
        ensures { GoesOn (sees R.look L.moment) (Steps.Done gtrid) result self.old self.new }
    {
        match self.manager.done(gtrid) {
            Ok(()) => Twin::new(Reply::Noted, Reply::Noted),
            Err(refusal) => undone(&mut self.sites, &mut self.lines, refusal),
        }
    }

    /// A claimed transaction is rolled back.
    pub(super) fn abandon(&mut self, gtrid: Gtrid) -> Twin
        requires { StandsSomewhere (sees R.look L.moment) self.old }
        ensures { GoesOn (sees R.look L.moment) (Steps.Abandon gtrid) result self.old self.new }
    {
        match self.manager.abandon(gtrid) {
            Ok(()) => Twin::new(Reply::Decided, Reply::Decided),
            Err(refusal) => Twin::refused(refusal),
        }
    }
}
