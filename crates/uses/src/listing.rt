//! `xa_listing`: a log is printed.

ghost use Rattle.std.specs.Prelude.{Some, [], IfOk};
ghost use Rattle.xa_listing.specs.Texts.{PrintsLog};
ghost use Rattle.xa_log.specs.Contract.{Honestly};

use std::alloc::Global;
use xa_files::RunFault;
use xa_listing::list_log;
use xa_log::DecisionLog;

/// The text of what a log holds.
pub fn listed<L: DecisionLog>(log: &mut L, alloc: Global) -> Result<Vec<u8>, RunFault>
    ensures { Honestly (L.moment log.old) (L.moment log.new)
        (IfOk result (λ out. PrintsLog (L.moment log.old).content (Some []) (Some out.items))) }
{
    let mut out = Vec::new(alloc);
    list_log(log, &mut out)?;
    Ok(out)
}
