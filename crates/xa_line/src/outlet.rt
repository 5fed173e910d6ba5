//! The end of a queue that items come out of.
ghost use Rattle.std.specs.Prelude.{◌≤◌, length};
ghost use Rattle.rtrb.specs.Ring.{received};

use crate::inlet::Inlet;
use rtrb::Consumer;
use std::snapshot::Snapshot;

/// The end of a queue that items come out of. `start` remembers it as it was when the queue was new
/// or renewed.
#[derive(Drop)]
pub struct Outlet<T> {
    pub(crate) consumer: Consumer<T>,
    pub(crate) start: Snapshot<Consumer<T>>,
    ghost started: { length (received start.value) ≤ length (received consumer) },
}

impl<T> Outlet<T> {
    ghost use Rattle.std.specs.Prelude.{◌≡◌};
    ghost use Rattle.rtrb.specs.Ring.{received, sent};
    ghost use Rattle.xa_line.specs.Queue.{AreEnds, SameInlet, SameOutlet, SeesAll};

    /// Sees all that went in. That takes both ends in one thread.
    pub fn look(&mut self, inlet: &mut Inlet<T>)
        requires { AreEnds inlet.old self.old }
        ensures inlet { SameInlet inlet.old inlet.new ×
            (sent inlet.new.producer ≡ sent inlet.old.producer) }
        ensures outlet { SameOutlet self.old self.new ×
            (received self.new.consumer ≡ received self.old.consumer) }
        ensures seen { SeesAll inlet.new self.new }
    {
        self.consumer.slots_beside(&mut inlet.producer);
    }
}
