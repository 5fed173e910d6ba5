//! What a run of a scenario does.

ghost use Rattle.std.specs.Prelude.{◌≡◌, ◌||◌, ◌∷◌, ◌++◌, [], OnOk};
ghost use Rattle.std.specs.Option.{option_to_list};
ghost use Rattle.xa_scenario.specs.Plays.{HaveSteps, IsAnswered, IsDrain, IsPlay, MakesEvents, PerformsSteps, events_after, gtrids_begun, moves};
ghost use Rattle.xa_scenario.specs.LogKeeping.{KeepsLog};
ghost use Rattle.xa_system.specs.SystemView.{observes, origin_in};

use crate::names::{begins, gtrid_in, issue_of, step_of};
use std::alloc::AllocError;
use xa_base::{Gtrid, Reply, Step};
use xa_log::DecisionLog;
use xa_rm::ResourceManager;
use xa_scenario_file::Entry;
use xa_system::System;

/// Does a step.
fn act<R: ResourceManager + Drop, L: DecisionLog + Drop>(
    system: &mut System<R, L>,
    step: Step,
) -> Reply
    ensures answered { IsAnswered system.old.events result }
    ensures added { system.new.events
        ≡ events_after system.old.events (record { step = step; reply = result }) }
    ensures start { origin_in R.look system.new ≡ origin_in R.look system.old }
    ensures log { KeepsLog (observes R.look L.moment) system.old system.new }
{
    system.step(step)
}

/// Whether the reply took or heard something.
fn moves(reply: &Reply) -> bool
    ensures { result ≡ moves reply.now }
{
    matches!(reply, Reply::Took(..) | Reply::Heard(..))
}

/// Whether one of the two did.
fn pair_moves(took: Reply, heard: Reply) -> bool
    ensures { result ≡ (moves took || moves heard) }
{
    moves(&took) || moves(&heard)
}

/// Takes and hears on a line until a pair moves nothing.
fn drain<R: ResourceManager + Drop, L: DecisionLog + Drop>(
    system: &mut System<R, L>,
    thread: u32,
    rm: u32,
)
    ensures performs { PerformsSteps (IsDrain thread rm) system.old.events system.new.events }
    ensures start { origin_in R.look system.new ≡ origin_in R.look system.old }
    ensures log { KeepsLog (observes R.look L.moment) system.old system.new }
{
    'pairs: loop {
        let took = act(system, Step::Take { thread, rm });
        let heard = act(system, Step::Hear { thread, rm });
        if !pair_moves(took, heard) {
            return;
        }
    }
}

/// Does a step, and gives the transaction that it begins, if it is a begin.
fn play_step<R: ResourceManager + Drop, L: DecisionLog + Drop>(
    system: &mut System<R, L>,
    step: Step,
) -> Option<Gtrid>
    ensures performs { PerformsSteps (λ here. HaveSteps (step ∷ []) here
        × (gtrids_begun here ≡ option_to_list result))
        system.old.events system.new.events }
    ensures start { origin_in R.look system.new ≡ origin_in R.look system.old }
    ensures log { KeepsLog (observes R.look L.moment) system.old system.new }
{
    let is_begin = begins(&step);
    let reply = act(system, step);
    let gtrid = gtrid_in(reply);
    if is_begin { Some(gtrid) } else { None }
}

/// Plays one entry, and gives the transaction that it begins, if it is a begin.
fn play_entry<R: ResourceManager + Drop, L: DecisionLog + Drop>(
    system: &mut System<R, L>,
    gtrids: &[Gtrid],
    entry: &Entry,
) -> Option<Gtrid>
    ensures performs { PerformsSteps (λ here. MakesEvents gtrids.now entry.now here
        × (gtrids_begun here ≡ option_to_list result))
        system.old.events system.new.events }
    ensures start { origin_in R.look system.new ≡ origin_in R.look system.old }
    ensures log { KeepsLog (observes R.look L.moment) system.old system.new }
{
    match *entry {
        Entry::Call {
            thread,
            rm,
            ref call,
        } => {
            let _issued = act(system, issue_of(gtrids, thread, rm, call));
            let _took = act(system, Step::Take { thread, rm });
            let _heard = act(system, Step::Hear { thread, rm });
            None
        }
        Entry::Drain { thread, rm } => {
            drain(system, thread, rm);
            None
        }
        _ => play_step(system, step_of(gtrids, entry)?),
    }
}

/// Plays the entries in turn, if these transactions were begun before, and adds those that they
/// begin.
pub fn play<R: ResourceManager + Drop, L: DecisionLog + Drop>(
    system: &mut System<R, L>,
    gtrids: &mut Vec<Gtrid>,
    entries: &[Entry],
) -> Result<(), AllocError>
    ensures performs { OnOk result
        (PerformsSteps (λ steps. IsPlay gtrids.old.items entries.now steps
        × (gtrids.new.items ≡ gtrids.old.items ++ gtrids_begun steps))
        system.old.events system.new.events) }
    ensures start { origin_in R.look system.new ≡ origin_in R.look system.old }
    ensures log { KeepsLog (observes R.look L.moment) system.old system.new }
{
    for entry in entries {
        if let Some(gtrid) = play_entry(system, gtrids, entry) {
            gtrids.push(gtrid)?;
        }
    }
    Ok(())
}
