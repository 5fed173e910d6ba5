//! The end of a queue that items go into.
ghost use Rattle.std.specs.Prelude.{◌≤◌, length};
ghost use Rattle.rtrb.specs.Ring.{sent};

use crate::outlet::Outlet;
use rtrb::Producer;
use std::snapshot::Snapshot;

/// The end of a queue that items go into. `start` remembers it as it was when the queue was new or
/// renewed.
#[derive(Drop)]
pub struct Inlet<T> {
    pub(crate) producer: Producer<T>,
    pub(crate) start: Snapshot<Producer<T>>,
    ghost started: { length (sent start.value) ≤ length (sent producer) },
}

impl<T> Inlet<T> {
    ghost use Rattle.std.specs.Prelude.{◌≡◌, ◌<◌, ◌≤◌, ◌↔◌, ◌+◌, ◌∷◌, ◌++◌, [], length};
    ghost use Rattle.std.specs.Prelude.{IsOk, IsTrue, OnErr, OnOk, IfErr};
    ghost use Rattle.rtrb.specs.Ring.{received, sent};
    ghost use Rattle.xa_line.specs.Queue.{AreEnds, IsReady, SameInlet, SameOutlet, SeesAll, free, pushed, seen};
    ghost use Rattle.xa_line.specs.Traffic.{places};

    /// Puts an item in, or gives it back if no free place was seen.
    #[inline]
    pub fn push(&mut self, item: T) -> Result<(), T>
        ensures same { SameInlet self.old self.new }
        ensures ok { OnOk result (pushed self.new ≡ pushed self.old ++ item ∷ []) }
        ensures free { OnOk result (free self.old ≤ free self.new + 1) }
        ensures back { IfErr result (λ back. back ≡ item) }
        ensures full { OnErr result ((pushed self.new ≡ pushed self.old) × (free self.new ≡ 0)) }
        ensures succeeds { 0 < free self.old → IsOk result }
    {
        if self.is_full() {
            return Err(item);
        }
        self.put(item);
        Ok(())
    }

    /// Whether no free place was seen, after a look at the other end if none was known.
    pub fn is_full(&mut self) -> bool
        ensures same { SameInlet self.old self.new }
        ensures pushed { pushed self.new ≡ pushed self.old }
        ensures free { free self.old ≤ free self.new }
        ensures value { IsTrue result ↔ (free self.new ≡ 0) }
    {
        self.producer.is_full()
    }

    /// Puts an item in, if a free place was seen.
    #[inline]
    pub fn put(&mut self, item: T)
        requires { 0 < free self.old }
        ensures same { SameInlet self.old self.new }
        ensures sent { sent self.new.producer ≡ sent self.old.producer ++ item ∷ [] }
        ensures pushed { pushed self.new ≡ pushed self.old ++ item ∷ [] }
        ensures free { free self.old ≡ free self.new + 1 }
    {
        self.producer.push_reserved(item);
    }

    /// Lets each end see all that the other did. That takes both ends in one thread.
    pub fn look(&mut self, outlet: &mut Outlet<T>)
        requires { AreEnds self.old outlet.old }
        ensures inlet { SameInlet self.old self.new ×
            (sent self.new.producer ≡ sent self.old.producer) }
        ensures outlet { SameOutlet outlet.old outlet.new ×
            (received outlet.new.consumer ≡ received outlet.old.consumer) }
        ensures ready { IsReady self.new outlet.new }
        ensures room { places ≤ free self.new + length (seen outlet.new) }
    {
        let producer = &mut self.producer;
        let consumer = &mut outlet.consumer;
        producer.slots_beside(consumer);
        consumer.slots_beside(producer);
    }

    /// Sees a free place if there is one. That takes both ends in one thread.
    pub fn find_room(&mut self, outlet: &mut Outlet<T>)
        requires { SeesAll self.old outlet.old }
        ensures inlet { SameInlet self.old self.new ×
            (sent self.new.producer ≡ sent self.old.producer) }
        ensures outlet { SameOutlet outlet.old outlet.new ×
            (received outlet.new.consumer ≡ received outlet.old.consumer) }
        ensures ready { IsReady self.new outlet.new }
    {
        if self.producer.cached_slots() == 0 {
            self.look(outlet);
        }
    }
}
