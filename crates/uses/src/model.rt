//! `xa_model`: what a list of events means, if each reply is the one that the events before it
//! demand.

ghost use Rattle.xa_model.specs.Promises.Agreement.{AreAlike};
ghost use Rattle.xa_model.specs.Replies.History.{AreAllowed, history};
ghost use Rattle.xa_model.specs.Protocol.{RightOrigin};
ghost use Rattle.xa_model.specs.Trace.{Origin};

use xa_base::Event;
use xa_model::headline_holds;

/// After these events no branch of a transaction is committed beside one that is rolled back or
/// lost. Nothing is done.
#[tactic(auto, using(crate::proofs::Alike::at_end))]
pub fn end_alike(events: &[Event])
    ensures { (o : Origin) → RightOrigin o → AreAllowed o events.now
        → AreAlike (history o events.now) }
{
    let _ = events.len();
    headline_holds();
}
