//! A log is made of lines, and may be handed on.

ghost use Rattle.std.specs.Prelude.{map, IfOk};
ghost use Rattle.xa_mirror.specs.MadeLogs.{IsMadeOfLines};

use crate::laws::made_logs_hold_lines;
use std::alloc::Global;
use xa_log::{DecisionLog, LogFault};
use xa_restore::{RestoreFault, read_lines, restore_log};

/// Why no log was made of lines.
#[derive(Clone, Copy, Debug, PartialEq, Eq)]
pub enum MadeFault {
    /// The lines are those of no log, or memory was refused.
    Lines(RestoreFault),
    /// The log failed.
    Log(LogFault),
}

/// Reads lines, and writes into a log what they say. If the log was empty and in order, it may be
/// handed to the next session then: it has the row of each decision of the lines, no other row, no
/// record, and as many starts as they say.
///
/// `xatm log --make` does the same over a log in files.
pub fn made_of_lines<L: DecisionLog + Drop>(
    alloc: Global,
    lines: &[&str],
    mut log: L,
) -> Result<L, MadeFault>
    ensures made { IfOk result (IsMadeOfLines L.moment (map (λ line. line.now) lines.now) log) }
{
    made_logs_hold_lines::<L>();
    let named = match read_lines(alloc, lines) {
        Ok(named) => named,
        Err(fault) => return Err(MadeFault::Lines(fault)),
    };
    match restore_log(alloc, &mut log, &named.log) {
        Ok(()) => Ok(log),
        Err(fault) => Err(MadeFault::Log(fault)),
    }
}

#[cfg(test)]
mod tests {
    use super::*;
    use std::test::Fail;
    use xa_log::MemLog;

    #[test]
    fn a_log_is_made(rt: HostRuntime) -> Result<(), Fail> {
        let alloc = rt.alloc();
        let lines = ["name shop-1", "rm 0 bank", "incarnation 3", "end"];
        assert!(rt; made_of_lines(alloc, &lines, MemLog::new(alloc)).is_ok());
        Ok(())
    }
}
