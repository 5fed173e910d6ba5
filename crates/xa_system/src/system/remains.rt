//! What a system leaves, for the next one to go on from.
ghost use Rattle.std.specs.Prelude.{◌≡◌, ◌+◌, ◌++◌, ◌≤◌, Some, map, vec_len, IfErr, IfOk};
ghost use Rattle.std.specs.Vec.{vec_capacity};
ghost use Rattle.xa_log.specs.Content.{Content};
ghost use Rattle.xa_log.specs.Contract.{Honestly};
ghost use Rattle.xa_system.specs.NextProcess.{Leaves};
ghost use Rattle.xa_system.specs.SystemView.{MayRestart, observes, trace_in};
ghost use Rattle.xa_tm.specs.Slots.{log_held, slot_moment};

use super::System;
use crate::site::Site;
use xa_base::Part;
use xa_log::DecisionLog;
use xa_rm::ResourceManager;

/// The resource managers and the log of a system that is gone.
#[derive(Drop)]
pub struct Remains<R: Drop, L: Drop> {
    /// The resource managers, in their order.
    pub rms: Vec<R>,
    /// The log; none, if it was taken out.
    pub log: Option<L>,
}

/// Puts the resource managers into a vector that has room for them.
fn rms_of<R: ResourceManager + Drop>(sites: Vec<Site<R>>, mut rms: Vec<R>) -> Vec<R>
    requires room { vec_len rms + vec_len sites ≤ vec_capacity rms }
    ensures { result.items ≡ rms.items ++ map (λ site. site.rm) sites.items }
{
    for site in sites {
        rms.push_reserved(site.rm);
    }
    rms
}

impl<R: ResourceManager + Drop, L: DecisionLog + Drop> System<R, L> {
    /// Takes the system apart, as a process ends. The next one may go on from what is left:
    /// `System::resume`. If the memory for the list of resource managers is refused, the system
    /// comes back as it was.
    pub fn into_parts(self) -> Result<Remains<R, L>, System<R, L>>
        ensures rms { IfOk result (λ remains. remains.rms.items ≡ self.rms) }
        ensures log { IfOk result (λ remains. remains.log ≡ log_held self.log) }
        ensures err { IfErr result (λ system. system ≡ self) }
        // What is left is what the history leaves.
        ensures left { Honestly (L.moment self.handed) (slot_moment L.moment self.log)
            (MayRestart (observes R.look L.moment) self →
            IfOk result (λ remains. (log : L) (content : Content) → remains.log ≡ Some log →
            (L.moment log).content ≡ Some content → Leaves R.look (trace_in R.look self)
            remains.rms.items content)) }
        // So the log is one over which the next system may start.
        ensures order { (L.moment self.handed).is_in_order →
            IfOk result (λ remains. (log : L) → remains.log ≡ Some log →
            (L.moment log).is_in_order) }
    {
        let alloc = self.parts.alloc;
        let Ok(rms) = Vec::with_capacity(alloc, self.parts.sites.len()) else {
            return Err(self);
        };
        let System {
            first: _,
            handed: _,
            parts,
            events: _,
        } = self;
        let sites = parts.sites;
        let mut manager = parts.manager;
        manager.crash(Part::Manager);
        let log = manager.take_log();
        Ok(Remains {
            rms: rms_of(sites, rms),
            log,
        })
    }
}
