//! What became of the branches, and why.

ghost use Rattle.std.specs.Prelude.{◌≡◌, IfOk};
ghost use Rattle.std.specs.List.{flat_map};
ghost use Rattle.std.specs.String.{string_bytes};
ghost use Rattle.xa_story.specs.Ends.{branch_end_line, branch_place_text, fate_note};

use crate::ledger::Settlement;
use crate::names::Names;
use crate::scene::Scene;
use std::alloc::Global;
use xa_base::{Fate, Gtrid, How, Memory, Xid};
use xa_files::fate_text;

/// What a fate means, if its name doesn't say it.
fn fate_note(fate: Fate) -> &'static str
    ensures { result.now ≡ fate_note fate }
{
    match fate {
        Fate::Prepared => ": it waits to be told how it ends",
        Fate::Lost => ": its line broke before it was prepared",
        Fate::Heuristic(How::Com) => ": its resource manager committed it without being told",
        Fate::Heuristic(How::Rb) => ": its resource manager rolled it back without being told",
        Fate::Heuristic(How::Mix) => ": its resource manager committed a part without being told",
        Fate::Heuristic(How::Haz) => ": its resource manager may have ended it without being told",
        _ => "",
    }
}

/// A branch, and at which resource manager it is.
fn place_text(alloc: Global, names: &Names, xid: &Xid) -> Result<String, Memory>
    ensures { IfOk result (λ text. string_bytes text ≡ branch_place_text names.now xid.now) }
{
    let name = names.xid_text(alloc, xid)?;
    match xid.branch() {
        Some(branch) => {
            let rm = branch.rm;
            Ok(format!(in alloc; "{name} at rm {rm}")?)
        }
        None => Ok(name),
    }
}

/// The line of a branch.
fn end_line(alloc: Global, names: &Names, line: &(Xid, Fate)) -> Result<String, Memory>
    ensures { IfOk result (λ text. string_bytes text ≡ branch_end_line names.now line.now) }
{
    let (xid, fate) = line;
    let place = place_text(alloc, names, xid)?;
    let note = fate_note(*fate);
    let fate = fate_text(*fate);
    Ok(format!(in alloc; "      {place:<16} {fate}{note}\n")?)
}

/// The lines of branches.
pub fn fates_text(alloc: Global, names: &Names, fates: &[(Xid, Fate)]) -> Result<String, Memory>
    ensures { IfOk result (λ text. string_bytes text
        ≡ flat_map (branch_end_line names.now) fates.now) }
{
    let mut text = String::new(alloc);
    for line in fates {
        let line = end_line(alloc, names, line)?;
        text.push_str(line.as_str())?;
    }
    Ok(text)
}

/// Whether the identifier is one of a branch of the transaction.
fn is_of(gtrid: Gtrid, xid: &Xid) -> bool {
    match xid.branch() {
        Some(branch) => branch.gtrid == gtrid,
        None => false,
    }
}

/// Whether all or a part of a branch is committed.
fn commits(fate: Fate) -> bool {
    matches!(
        fate,
        Fate::Committed | Fate::Heuristic(How::Com | How::Mix | How::Haz)
    )
}

/// Whether all or a part of a branch is rolled back.
fn rolls_back(fate: Fate) -> bool {
    matches!(
        fate,
        Fate::RolledBack | Fate::Lost | Fate::Heuristic(How::Rb | How::Mix | How::Haz)
    )
}

/// Whether branches of a transaction ended differently.
fn ends_differently(gtrid: Gtrid, fates: &[(Xid, Fate)]) -> bool {
    fates
        .iter()
        .any(|line| is_of(gtrid, &line.0) && commits(line.1))
        && fates
            .iter()
            .any(|line| is_of(gtrid, &line.0) && rolls_back(line.1))
}

/// Why a transaction ended as it did.
fn reason_text(alloc: Global, scene: &Scene, gtrid: Gtrid) -> Result<String, Memory> {
    let name = scene.names().name_of(gtrid);
    let Some(ending) = scene.ledger().ending(gtrid) else {
        return Ok(format!(in alloc;
            "      No decision to commit {name} is in the log, and what has no row there is \
            never committed.\n"
        )?);
    };
    let since = ending.since;
    match ending.settlement {
        Settlement::Row => Ok(format!(in alloc;
            "      {name} was decided to commit at {since}. \
            The decision is a row in the log, which outlives a crash: a branch with a row is \
            told to commit.\n"
        )?),
        Settlement::NoRow => Ok(format!(in alloc;
            "      {name} was decided to commit at {since}. \
            Its branches have only read, so that nothing is left to do.\n"
        )?),
        Settlement::Rollback => Ok(format!(in alloc;
            "      {name} was decided to roll back at \
            {since}. That is not written: a branch with no row in the log is rolled back.\n"
        )?),
        Settlement::HandedOver => Ok(format!(in alloc;
            "      {name} was handed over at {since}: \
            with one branch there is one phase, and its rm decides.\n"
        )?),
    }
}

/// A word on a transaction whose branches ended differently.
fn different_text(alloc: Global, scene: &Scene, gtrid: Gtrid) -> Result<String, Memory> {
    let name = scene.names().name_of(gtrid);
    Ok(format!(in alloc;
        "      The branches of {name} ended differently: a resource manager \
        has ended its own without being told, and the log's record of that stays.\n"
    )?)
}

/// Why each transaction ended as it did.
pub fn reasons_text(alloc: Global, scene: &Scene, fates: &[(Xid, Fate)]) -> Result<String, Memory> {
    let mut text = String::new(alloc);
    for gtrid in scene.names().gtrids() {
        if !fates.iter().any(|line| is_of(*gtrid, &line.0)) {
            continue;
        }
        let reason = reason_text(alloc, scene, *gtrid)?;
        text.push_str(reason.as_str())?;
        if ends_differently(*gtrid, fates) {
            let different = different_text(alloc, scene, *gtrid)?;
            text.push_str(different.as_str())?;
        }
    }
    Ok(text)
}
