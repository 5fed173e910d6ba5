//! A session: the manager over its log, the lines, and the monitor of the branches. A file for each
//! family of requests.

ghost use Rattle.xa_tm.specs.Calls.{book_in};
ghost use Rattle.xa_session.specs.Sizes.{HasItsLines};

pub(crate) mod answers;
mod calls;
mod crashes;
mod decisions;
mod recoveries;
mod releases;
mod several;

use crate::session_lines::SessionLines;
use std::alloc::Global;
use xa_base::Refusal;
use xa_log::DecisionLog;
use xa_monitor::Monitor;
use xa_tm::{Manager, ReadLog, StartFault};

/// The most that may happen in a session: 2 to the 62nd power.
const HAPPENING_LIMIT: u64 = 4_611_686_018_427_387_904;

/// A session of a driver with the coordinator.
///
/// Each method asks that the session is ready (`IsReady`), and leaves it so, whatever was answered.
/// A session that [`Session::new`] gives is ready.
#[derive(Drop)]
pub struct Session<L: Drop> {
    pub(crate) manager: Manager<L>,
    pub(crate) lines: SessionLines,
    /// The states of the branches, by all that was answered.
    pub(crate) monitor: Monitor,
    /// How many steps have happened since the start, a failure of the log among them.
    pub(crate) happenings: u64,
    ghost sized: { HasItsLines (book_in manager) lines },
}

impl<L: DecisionLog + Drop> Session<L> {
    ghost use Rattle.std.specs.Prelude.{◌≡◌, Bool, true, Err, IfOk};
    ghost use Rattle.xa_line.specs.Grid.{grid_has_line, new_grid};
    ghost use Rattle.xa_log.specs.Contract.{Honestly};
    ghost use Rattle.xa_model.specs.Trace.{Origin};
    ghost use Rattle.xa_monitor.specs.Explained.{HasOnlyOlderRows};
    ghost use Rattle.xa_tm.specs.Begins.{BeginsWith};
    ghost use Rattle.xa_tm.specs.Calls.{log_in};
    ghost use Rattle.xa_tm.specs.Started.{IsStarted, IsStartedOver};
    ghost use Rattle.xa_tm.specs.StartFaults.{IsOnlyRead, IsToBlame};
    ghost use Rattle.xa_session.specs.Following.{StandsAtStart};
    ghost use Rattle.xa_session.specs.Logging.{HoldsItsBook};
    ghost use Rattle.xa_session.specs.Session.{IsReady, happenings_by, has_room_for, is_over, lines_by};

    /// A session over a log, of so many threads and resource managers.
    ///
    /// The rows are read before room is made for lines, so that the log has only been read if
    /// memory is refused.
    pub fn new(alloc: Global, threads: u32, rms: u32, log: L) -> Result<Session<L>, StartFault>
        ensures ready { IfOk result IsReady }
        ensures lines { IfOk result (λ s. s.lines ≡ new_grid threads rms) }
        ensures count { IfOk result (λ s. s.happenings ≡ 0) }
        ensures stands { IfOk result (StandsAtStart threads rms) }
        ensures old { IfOk result (λ s. (o : Origin) → BeginsWith threads rms s.manager o →
            HasOnlyOlderRows o) }
        // The log that was handed in: its rows and its records, and its incarnation, which is
        // raised.
        ensures started { IfOk result (λ s. IsStarted threads rms s.manager) }
        ensures over { IfOk result (λ s.
            IsStartedOver L.moment threads rms (L.moment log) s.manager) }
        ensures holds { (near : Bool) → IfOk result (λ s.
            Honestly (L.moment log) (L.moment (log_in s.manager))
            (HoldsItsBook L.moment near s.manager)) }
        // Over which logs none starts, and what is left of them.
        ensures log_fault { result ≡ Err StartFault.Log → IsToBlame L.DecisionLog log }
        ensures memory_fault { result ≡ Err StartFault.Memory →
            ((left : L) × IsOnlyRead L.DecisionLog log left) }
    {
        let read = ReadLog::of(log)?;
        let Ok(lines) = SessionLines::new(alloc, threads, rms) else {
            return Err(StartFault::Memory);
        };
        match Manager::over(alloc, threads, rms, read) {
            Ok(manager) => {
                let monitor = Monitor::new(alloc, manager.incarnation());
                let session = Session {
                    manager,
                    lines,
                    monitor,
                    happenings: 0,
                };
                Ok(session)
            }
            Err(fault) => Err(fault),
        }
    }

    /// Its log, where it ends.
    pub fn into_log(self) -> L
        ensures { result ≡ log_in self.manager }
    {
        self.manager.into_log()
    }

    /// Whether the manager is up: until its log fails.
    pub fn is_up(&self) -> bool
        ensures { result ≡ (book_in self.now.manager).up }
    {
        self.manager.is_up()
    }

    /// The incarnation of the transactions that may be begun.
    pub fn incarnation(&self) -> u64
        ensures { result ≡ (book_in self.now.manager).incarnation }
    {
        self.manager.incarnation()
    }

    /// How many rows the log has.
    pub fn row_count(&self) -> u64
        ensures { result ≡ (book_in self.now.manager).rows }
    {
        self.manager.row_count()
    }

    /// How many branches the log records as ended by their resource managers alone.
    pub fn record_count(&self) -> u64
        ensures { result ≡ (book_in self.now.manager).records }
    {
        self.manager.record_count()
    }

    /// How many steps have happened since the start: those that succeeded, and one in which the log
    /// failed.
    pub fn happenings(&self) -> u64
        ensures { result ≡ self.now.happenings }
    {
        self.happenings
    }

    /// How many threads there are, numbered from 0.
    pub fn threads(&self) -> u32
        ensures { result ≡ self.now.lines.threads }
    {
        self.lines.threads()
    }

    /// How many resource managers there are, numbered from 0.
    pub fn rms(&self) -> u32
        ensures { result ≡ self.now.lines.rms }
    {
        self.lines.rms()
    }

    /// Whether there is a line of the thread to the resource manager.
    pub fn has_line(&self, thread: u32, rm: u32) -> bool
        ensures { result ≡ grid_has_line self.now.lines thread rm }
    {
        self.lines.has(thread, rm)
    }

    /// Whether so much has happened that nothing more may.
    fn is_over(&self) -> bool
        ensures { result ≡ is_over self.now }
    {
        self.happenings >= HAPPENING_LIMIT
    }

    /// Whether there is room for so many happenings more, and for one.
    fn has_room_for(&self, count: usize) -> bool
        ensures { result ≡ has_room_for self.now count }
    {
        !self.is_over() && count as u64 <= HAPPENING_LIMIT - self.happenings
    }

    /// Counts `count` happenings if the manager did the step, one if its log failed, which breaks
    /// all lines, and none if it refused.
    fn conclude(&mut self, reply: Result<(), Refusal>, count: usize) -> Result<(), Refusal>
        requires { has_room_for self.old count ≡ true }
        ensures value { result ≡ reply }
        ensures manager { self.new.manager ≡ self.old.manager }
        ensures lines { self.new.lines ≡ lines_by reply self.old.lines }
        ensures monitor { self.new.monitor ≡ self.old.monitor }
        ensures happenings { self.new.happenings ≡ happenings_by reply count self.old.happenings }
    {
        match reply {
            Ok(()) => {
                self.happenings += count as u64;
                Ok(())
            }
            Err(Refusal::LogFault) => {
                self.lines.renew_all();
                self.happenings += 1;
                Err(Refusal::LogFault)
            }
            Err(refusal) => Err(refusal),
        }
    }
}
