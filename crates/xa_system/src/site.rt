//! A resource manager of the system.
ghost use Rattle.std.specs.Prelude.{◌≡◌, ◌≢◌, ◌<◌, length, slice_get, IsSomeAnd, OnErr, IfOk};
ghost use Rattle.xa_model.specs.Replies.History.{name_of};
ghost use Rattle.xa_model.specs.Replies.ReadBack.{CallHasXid};
ghost use Rattle.xa_model.specs.Replies.Guards.{is_at};
ghost use Rattle.xa_base.specs.declared.reply.Reply.TheVariants as Replies;
ghost use Rattle.xa_base.specs.declared.refusal.Refusal.TheVariants as Refusals;
ghost use Rattle.xa_line.specs.Grid.{new_grid};
ghost use Rattle.xa_line.specs.Traffic.{places};
ghost use Rattle.xa_system.specs.Steps.{AllCrash, Applies, AreCrashed, HearsOne, IsSame, Takes};

use crate::spare::Spare;
use crate::twin::Twin;
use std::alloc::Global;
use xa_base::{Answer, Call, Memory, Refusal, Reply, Xid};
use xa_line::{Line, Lines};
use xa_rm::ResourceManager;

/// A resource manager, and whether it is up.
#[derive(Drop)]
pub struct Site<R: Drop> {
    pub rm: R,
    pub is_up: bool,
}

/// Only for the proof: the identifier in a call keeps the bounds of an `Xid`.
fn has_xid(call: &Call)
    ensures { CallHasXid call.now }
{
    if let Some(xid) = call.xid() {
        let _ = xid.format();
    }
}

/// Applies a call. The answer comes three times; room for the second and the third is made before.
fn apply_thrice<R: ResourceManager>(
    rm: &mut R,
    alloc: Global,
    thread: u32,
    call: &Call,
) -> Result<(Answer, Answer, Answer), Memory>
    ensures applied { IfOk result (λ answers. Applies R.look thread call.now answers.0 rm.old
        rm.new) }
    ensures second { IfOk result (λ answers. answers.1 ≡ answers.0) }
    ensures third { IfOk result (λ answers. answers.2 ≡ answers.0) }
    ensures err { OnErr result (IsSame R.look rm.old rm.new) }
{
    let len = rm.in_doubt_len();
    let second = Spare::new(alloc, len)?;
    let third = Spare::new(alloc, len)?;
    let answer = rm.apply(thread, call)?;
    let second = second.fill(&answer);
    let third = third.fill(&answer);
    Ok((answer, second, third))
}

/// The resource manager takes the oldest call that waits on the thread's line, and answers it. The
/// line has room for the answer.
pub(crate) fn take<R: ResourceManager>(
    rm: &mut R,
    line: &mut Line,
    alloc: Global,
    thread: u32,
) -> Twin
    requires { length line.old.answers.waiting < places }
    ensures { Takes R.look thread rm.old rm.new line.old line.new result }
{
    let Some(call) = line.front() else {
        return Twin::new(Reply::Nothing, Reply::Nothing);
    };
    let call = call.copy();
    has_xid(&call);
    match apply_thrice(rm, alloc, thread, &call) {
        Ok((first, second, third)) => {
            let _ = line.take();
            let _ = line.answer(call.copy(), first);
            Twin::new(Reply::Took(call.copy(), second), Reply::Took(call, third))
        }
        Err(_) => Twin::refused(Refusal::Memory),
    }
}

/// All lines of all resource managers break.
pub(crate) fn crash_all<R: ResourceManager + Drop>(sites: &mut Vec<Site<R>>)
    ensures { AllCrash R.look sites.old.items sites.new.items }
{
    for rm in 0..sites.len() {
        sites[rm].rm.crash();
    }
}

/// All lines of resource managers that aren't part of a system yet break.
pub(crate) fn crash_rms<R: ResourceManager>(rms: &mut Vec<R>)
    ensures { AreCrashed R.look rms.old.items rms.new.items }
{
    for rm in 0..rms.len() {
        rms[rm].crash();
    }
}

/// The line's oldest answer, which is heard; `copy` is that answer too.
pub(crate) fn heard(line: &mut Line, copy: Answer) -> Twin
    requires { IsSomeAnd (slice_get line.old.answers.waiting 0) (λ pair. pair.1 ≡ copy) }
    ensures { IsSomeAnd (slice_get line.old.answers.waiting 0)
        (λ pair. HearsOne pair line.old line.new result) }
{
    match line.hear() {
        Some((call, answer)) => {
            Twin::new(Reply::Heard(call.copy(), copy), Reply::Heard(call, answer))
        }
        None => Twin::new(Reply::Nothing, Reply::Nothing),
    }
}

/// The reply to a step that the manager refused. If its log failed, it is down, and all lines
/// break.
pub(crate) fn undone<R: ResourceManager + Drop>(
    sites: &mut Vec<Site<R>>,
    lines: &mut Lines,
    refusal: Refusal,
) -> Twin
    ensures reply { result ≡ Replies.Refused refusal }
    ensures failed { refusal ≡ Refusals.LogFault → AllCrash R.look sites.old.items sites.new.items }
    ensures broken { refusal ≡ Refusals.LogFault →
        lines.new ≡ new_grid lines.old.threads lines.old.rms }
    ensures sites_stay { refusal ≢ Refusals.LogFault → sites.new ≡ sites.old }
    ensures lines_stay { refusal ≢ Refusals.LogFault → lines.new ≡ lines.old }
{
    if let Refusal::LogFault = refusal {
        crash_all(sites);
        lines.renew_all();
    }
    Twin::refused(refusal)
}

/// Whether the identifier names a branch of this manager at the resource manager.
pub(crate) fn is_at(xid: &Xid, rm: u32) -> bool
    ensures { result ≡ is_at rm (name_of xid.now) }
{
    match xid.branch() {
        Some(branch) => branch.rm == rm,
        None => false,
    }
}
