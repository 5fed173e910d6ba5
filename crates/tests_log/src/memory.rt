//! Logs in memory.

ghost use Rattle.std.specs.List.{AllByRecursion};
ghost use Rattle.xa_log.specs.Commands.{Fits};

use crate::commands::{FIRST, answers_each_call};
use std::alloc::Global;
use std::test::Fail;
use xa_log::{Command, FailLog, FailPlan, LogCall, LogFault, MemLog, Told, run_commands};
use xa_sql_log::SqlLog;

#[test]
fn answers_each_call_in_memory(rt: HostRuntime) -> Result<(), Fail> {
    let mut log = MemLog::new(rt.alloc());
    assert!(rt; answers_each_call(&mut log, rt.alloc())?);
    Ok(())
}

#[test]
fn answers_each_call_in_a_database_in_memory(rt: HostRuntime) -> Result<(), Fail> {
    let mut log = SqlLog::open_in_memory(rt.alloc())?;
    assert!(rt; answers_each_call(&mut log, rt.alloc())?);
    Ok(())
}

/// A log that fails by a plan doesn't up to the call that is planned to.
#[test]
fn answers_each_call_by_a_plan(rt: HostRuntime) -> Result<(), Fail> {
    let plan = FailPlan::Once {
        kind: LogCall::Rows,
        at: 3,
        made: true,
    };
    let mut log = FailLog::new(MemLog::new(rt.alloc()), plan);
    assert!(rt; answers_each_call(&mut log, rt.alloc())?);
    Ok(())
}

/// What commands are told.
fn told(alloc: Global, log: &mut MemLog, commands: &[Command]) -> Result<Vec<Told>, LogFault>
    requires { AllByRecursion Fits commands.now }
{
    run_commands(alloc, log, commands)
}

#[test]
fn answers_a_list_of_commands(rt: HostRuntime) -> Result<(), Fail> {
    let mut log = MemLog::new(rt.alloc());
    let commands = [Command::Contains(FIRST), Command::Rows];
    let told = told(rt.alloc(), &mut log, &commands)?;
    let [Told::Found(false), Told::Rows(rows)] = told.as_slice() else {
        return Err(Fail::from("other answers"));
    };
    assert!(rt; rows.decisions.is_empty());
    Ok(())
}
