//! The texts of replies that a trace and a driver's session have alike.

ghost use Rattle.std.specs.Prelude.{◌≡◌, ◌++◌, IfOk, OnOk};
ghost use Rattle.std.specs.String.{string_bytes};
ghost use Rattle.xa_files.specs.Replies.{begun_text, listed_xids, refused_text, restarted_text};

use std::alloc::Global;
use xa_base::{Gtrid, Memory, Refusal, Xid};

/// Adds each identifier after a space.
pub fn push_xids(text: &mut String, alloc: Global, xids: &[Xid]) -> Result<(), Memory>
    ensures { OnOk result (string_bytes text.new ≡ string_bytes text.old ++ listed_xids xids.now) }
{
    for xid in xids {
        let name = xid.text(alloc)?;
        let listed = format!(in alloc; " {name}")?;
        text.push_str(listed.as_str())?;
    }
    Ok(())
}

/// A transaction that was begun.
pub fn begun_text(alloc: Global, gtrid: Gtrid) -> Result<String, Memory>
    ensures { IfOk result (λ text. string_bytes text ≡ begun_text gtrid) }
{
    let name = gtrid.text(alloc)?;
    Ok(format!(in alloc; "begun {name}")?)
}

/// That a manager is up, its incarnation, and how many rows of either kind it found.
#[tactic(auto, using(crate::proofs::Pieces::six_pieces))]
pub fn restarted_text(
    alloc: Global,
    incarnation: u64,
    decisions: usize,
    heuristics: usize,
) -> Result<String, Memory>
    ensures { IfOk result (λ text. string_bytes text
        ≡ restarted_text incarnation decisions heuristics) }
{
    Ok(format!(in alloc; "restarted {incarnation} {decisions} {heuristics}")?)
}

/// A refusal, by its number and its name.
#[tactic(auto, using(crate::proofs::Pieces::four_pieces))]
pub fn refused_text(alloc: Global, refusal: Refusal) -> Result<String, Memory>
    ensures { IfOk result (λ text. string_bytes text ≡ refused_text refusal) }
{
    let number = refusal.number();
    let name = refusal.name();
    Ok(format!(in alloc; "refused {number} {name}")?)
}
