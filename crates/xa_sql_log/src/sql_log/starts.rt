//! How often a manager has started over a log.
ghost use Rattle.std.specs.Prelude.{◌≡◌, IfOk, IsSomeAnd};
ghost use Rattle.sqlite.specs.Held.{state};
ghost use Rattle.xa_log.specs.Contract.{Honestly, Reads};

use super::SqlLog;
use crate::meta;
use sqlite::Alter;
use xa_log::{DecisionLog, LogFault, counted};

impl<S: Alter> SqlLog<S> {
    /// The incarnation of the manager that has started last over the log, and 0 where none has. It is only read.
    pub fn incarnation(&mut self) -> Result<u64, LogFault>
        ensures answer { Honestly (⟦<SqlLog<S> as DecisionLog>⟧.moment self.old)
            (⟦<SqlLog<S> as DecisionLog>⟧.moment self.new)
            (IfOk result (λ n. IsSomeAnd (⟦<SqlLog<S> as DecisionLog>⟧.moment self.old).content
            (λ c. n ≡ c.incarnation))) }
        ensures reads { Reads (⟦<SqlLog<S> as DecisionLog>⟧.moment self.old)
            (⟦<SqlLog<S> as DecisionLog>⟧.moment self.new) result }
    {
        let found = meta::find_incarnation(&mut self.conn);
        counted(&mut self.faults, found)
    }
}
