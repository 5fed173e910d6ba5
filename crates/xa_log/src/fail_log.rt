//! A decision log in memory that fails by a plan, for tests of what stands on a log.

ghost use Rattle.std.specs.Prelude.{◌≡◌, Err};
ghost use Rattle.xa_log.specs.declared.fail_log.fail_plan.Turn.TheVariants.{FailsAfter, Runs};
ghost use Rattle.xa_log.specs.declared.log_fault.LogFault.TheVariants.{Store};

mod fail_plan;

use crate::decision::Decision;
use crate::decision_log::{DecisionLog, LogCall, Logged};
use crate::log_fault::{LogFault, counted};
use crate::log_rows::LogRows;
use crate::mem_log::MemLog;
pub use fail_plan::FailPlan;
use fail_plan::Turn;
use std::alloc::Global;
use xa_base::{Branch, Gtrid, How};

/// A log in memory some of whose calls answer [`LogFault::Store`], as a plan says. The others answer what a [`MemLog`]
/// does.
///
/// A call that is to fail with its change made answers `Store` also where memory is refused; then it has changed
/// nothing.
#[derive(Drop)]
pub struct FailLog {
    log: MemLog,
    plan: FailPlan,
    calls: u64,
    faults: u64,
}

/// The answer of a call that ran, as its turn has it.
fn answer_at<T: Drop>(turn: Turn, answer: Result<T, LogFault>) -> Result<T, LogFault>
    ensures runs { turn ≡ Runs → result ≡ answer }
    ensures fails { turn ≡ FailsAfter → result ≡ Err Store }
{
    match turn {
        Turn::Runs => answer,
        Turn::FailsAfter | Turn::FailsBefore => Err(LogFault::Store),
    }
}

impl FailLog {
    ghost use Rattle.std.specs.Prelude.{◌≡◌};
    ghost use Rattle.xa_log.specs.FailPlan.{calls_after, turn_of};

    /// A log that begins with what `log` holds, and with no failed call.
    pub fn new(log: MemLog, plan: FailPlan) -> FailLog
        ensures content { (⟦<FailLog as DecisionLog>⟧.moment result).content ≡
            (⟦<MemLog as DecisionLog>⟧.moment log).content }
        ensures order { (⟦<MemLog as DecisionLog>⟧.moment log).is_in_order →
            (⟦<FailLog as DecisionLog>⟧.moment result).is_in_order }
        ensures faults { (⟦<FailLog as DecisionLog>⟧.moment result).fault_count ≡ 0 }
        ensures plan { result.plan ≡ plan }
        ensures calls { result.calls ≡ 0 }
    {
        FailLog {
            log,
            plan,
            calls: 0,
            faults: 0,
        }
    }

    /// What the next call does, by the plan.
    fn turn(&mut self, call: LogCall) -> Turn
        ensures turn { result ≡ turn_of self.old.plan call self.old.calls }
        ensures calls { self.new ≡ record self.old {
          calls =
              calls_after self.old.plan call self.old.calls;
        } }
    {
        self.plan.next_turn(call, &mut self.calls)
    }
}

impl DecisionLog for FailLog {
    ghost use Rattle.std.specs.Prelude.{◌≡◌};
    ghost use Rattle.xa_log.specs.FailLog.{FollowsPlan};
    ghost use Rattle.xa_log.specs.Memory.{content_held, memory_moment};
    ghost use Rattle.xa_log.specs.MemoryLaws.{fits_held, leaves_held, own_held};

    ghost moment = { λ it. memory_moment (content_held it.log) it.faults };

    ghost says = { λ call change old new fault. FollowsPlan call change old new fault };

    ghost durable = { λ it c d order is left. leaves_held it.log c d is left };

    ghost own = { λ it c order is. own_held it.log c order is };

    ghost fits = { λ it c order is. fits_held it.log c order is };

    fn commit(&mut self, g: Gtrid, participants: &[Branch]) -> Result<Logged, LogFault> {
        let logged = match self.turn(LogCall::Commit) {
            Turn::FailsBefore => Err(LogFault::Store),
            turn => answer_at(turn, self.log.commit(g, participants)),
        };
        counted(&mut self.faults, logged)
    }

    fn commit_all(
        &mut self,
        alloc: Global,
        decisions: &[Decision],
    ) -> Result<Vec<Logged>, LogFault> {
        let answers = match self.turn(LogCall::Commit) {
            Turn::FailsBefore => Err(LogFault::Store),
            turn => answer_at(turn, self.log.commit_all(alloc, decisions)),
        };
        counted(&mut self.faults, answers)
    }

    fn contains(&mut self, g: Gtrid) -> Result<bool, LogFault> {
        let found = match self.turn(LogCall::Contains) {
            Turn::Runs => self.log.contains(g),
            _ => Err(LogFault::Store),
        };
        counted(&mut self.faults, found)
    }

    fn participants(&mut self, g: Gtrid) -> Result<Vec<Branch>, LogFault> {
        let list = match self.turn(LogCall::Participants) {
            Turn::Runs => self.log.participants(g),
            _ => Err(LogFault::Store),
        };
        counted(&mut self.faults, list)
    }

    fn done(&mut self, g: Gtrid) -> Result<bool, LogFault> {
        let found = match self.turn(LogCall::Done) {
            Turn::FailsBefore => Err(LogFault::Store),
            turn => answer_at(turn, self.log.done(g)),
        };
        counted(&mut self.faults, found)
    }

    fn done_all(&mut self, gtrids: &[Gtrid]) -> Result<(), LogFault> {
        let taken = match self.turn(LogCall::Done) {
            Turn::FailsBefore => Err(LogFault::Store),
            turn => answer_at(turn, self.log.done_all(gtrids)),
        };
        counted(&mut self.faults, taken)
    }

    fn note_heuristic(&mut self, b: Branch, how: How) -> Result<(), LogFault> {
        let noted = match self.turn(LogCall::NoteHeuristic) {
            Turn::FailsBefore => Err(LogFault::Store),
            turn => answer_at(turn, self.log.note_heuristic(b, how)),
        };
        counted(&mut self.faults, noted)
    }

    fn heuristic_of(&mut self, b: Branch) -> Result<Option<How>, LogFault> {
        let how = match self.turn(LogCall::HeuristicOf) {
            Turn::Runs => self.log.heuristic_of(b),
            _ => Err(LogFault::Store),
        };
        counted(&mut self.faults, how)
    }

    fn bump(&mut self) -> Result<u64, LogFault> {
        let raised = match self.turn(LogCall::Bump) {
            Turn::FailsBefore => Err(LogFault::Store),
            turn => answer_at(turn, self.log.bump()),
        };
        counted(&mut self.faults, raised)
    }

    fn rows(&mut self) -> Result<LogRows, LogFault> {
        let rows = match self.turn(LogCall::Rows) {
            Turn::Runs => self.log.rows(),
            _ => Err(LogFault::Store),
        };
        counted(&mut self.faults, rows)
    }

    fn faults(&self) -> u64 {
        self.faults
    }
}
