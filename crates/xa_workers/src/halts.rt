//! Which fault is told, if workers ended before their work was done.
ghost use Rattle.std.specs.Prelude.{◌≡◌, ◌⊎◌, All, IsOk, IsTrue, IfErr, IfOk};
ghost use Rattle.std.specs.List.{filter_map, list_any};
ghost use Rattle.std.specs.Result.{result_ok};
ghost use Rattle.xa_workers.specs.Faults.{end_of, first_told, same_fault, tells};

use crate::WorkFault;
use crate::fault::Halt;
use std::alloc::Global;

/// How a worker ended, without what it left.
pub(crate) fn end_of<T>(end: &Result<T, Halt>) -> Result<(), Halt>
    ensures { result ≡ end_of end.now }
{
    match end {
        Ok(_) => Ok(()),
        Err(halt) => Err(*halt),
    }
}

/// Whether two faults are the same.
fn same_fault(told: WorkFault, fault: WorkFault) -> bool
    ensures { result ≡ same_fault told fault }
{
    told == fault
}

/// Whether a worker that ended so names the fault as its reason.
fn tells<T>(fault: WorkFault, end: &Result<T, Halt>) -> bool
    ensures { result ≡ tells fault end.now }
{
    match end {
        Err(Halt::Fault(told)) => same_fault(*told, fault),
        _ => false,
    }
}

/// Whether some worker names the fault.
fn is_told<T>(fault: WorkFault, ends: &[Result<T, Halt>]) -> bool
    ensures { result ≡ list_any (tells fault) ends.now }
{
    ends.iter().any(|end| tells(fault, end))
}

/// The fault that comes first. It is `Mixed` if workers were told to end, and none of them said
/// why.
pub(crate) fn first_fault<T>(ends: &[Result<T, Halt>]) -> WorkFault
    ensures { result ≡ first_told ends.now }
{
    if is_told(WorkFault::Memory, ends) {
        WorkFault::Memory
    } else if is_told(WorkFault::Log, ends) {
        WorkFault::Log
    } else if is_told(WorkFault::Stuck, ends) {
        WorkFault::Stuck
    } else {
        WorkFault::Mixed
    }
}

/// Whether all of these workers left something.
fn are_ok<T>(ends: &[Result<T, Halt>]) -> bool
    ensures { IsTrue result → All IsOk ends.now }
{
    ends.iter().all(|end| end.is_ok())
}

/// What the workers of a kind left, in their order. If some left nothing, the fault that comes
/// first.
pub(crate) fn all_left<T: Drop>(
    alloc: Global,
    ends: Vec<Result<T, Halt>>,
) -> Result<Vec<T>, WorkFault>
    ensures ok { IfOk result (λ _. All IsOk ends.items) }
    ensures left { IfOk result (λ all. all.items ≡ filter_map result_ok ends.items) }
    ensures fault { IfErr result (λ fault. fault ≡ first_told ends.items
        ⊎ (All IsOk ends.items × (fault ≡ WorkFault.Memory))) }
{
    if !are_ok(&ends) {
        return Err(first_fault(&ends));
    }
    match ends.into_iter().filter_map(|end| end.ok()).collect(alloc) {
        Ok(all) => Ok(all),
        Err(_) => Err(WorkFault::Memory),
    }
}
