//! `xa_rm`: a branch at a resource manager in memory.

ghost use Rattle.std.specs.Prelude.{◌≡◌, IfOk};
ghost use Rattle.xa_base.specs.declared.state.Fate.TheVariants as Fates;

use std::alloc::Global;
use xa_base::{Call, Fate, Memory, Xid};
use xa_rm::{MemRm, ResourceManager};

/// Starts a branch at a new resource manager, ends the work on it, prepares it and commits it. What
/// became of it.
#[tactic(auto, using(crate::proofs::Branches::same))]
pub fn committed(alloc: Global, xid: &Xid) -> Result<Fate, Memory>
    ensures { IfOk result (λ fate. fate ≡ Fates.Committed) }
{
    let mut rm = MemRm::new(alloc);
    rm.apply(0, &Call::start(xid.copy()))?;
    rm.apply(0, &Call::end(xid.copy()))?;
    rm.apply(0, &Call::Prepare { xid: xid.copy() })?;
    rm.apply(0, &Call::commit(xid.copy()))?;
    Ok(rm.fate(xid))
}
