//! Queues of at most 64 items, over rings.

use crate::inlet::Inlet;
use crate::outlet::Outlet;
use rtrb::RingBuffer;
use std::alloc::Global;
use std::marker::Model;
use std::snapshot::Snapshot;
use xa_base::{LINE_LIMIT, Memory};

/// A queue of at most 64 items. One thread holds both ends, the outlet has seen all that went in,
/// and the inlet a free place, if there is one.
#[derive(Drop)]
pub struct Queue<T> {
    inlet: Inlet<T>,
    outlet: Outlet<T>,
}

impl<T> Model for Queue<T> {
    ghost use Rattle.xa_line.specs.Traffic.{Flow};

    ghost Value = { Flow T };

    ghost use Rattle.xa_line.specs.Queue.{IsReady, popped, seen};

    ghost view = { λ q. record { gone = popped q.outlet; waiting = seen q.outlet } };

    ghost invariant = { λ q. IsReady q.inlet q.outlet };
}

impl<T: Drop> Queue<T> {
    ghost use Rattle.std.specs.Prelude.{◌≡◌, ◌<◌, ◌≤◌, ◌+◌, [], length, IfOk, IfSome, IfNone, slice_get};
    ghost use Rattle.std.specs.Option.{option_copied};
    ghost use Rattle.xa_line.specs.Queue.{AreEnds, free, popped, pushed, seen};
    ghost use Rattle.xa_line.specs.Traffic.{PassesOn, all_of, empty_flow, places, with_one_more};

    /// A queue where nothing waits, with all the memory that it ever needs.
    pub fn new(alloc: Global) -> Result<Queue<T>, Memory>
        ensures { IfOk result (λ q. q ≡ empty_flow) }
    {
        let (producer, consumer) = RingBuffer::new(alloc, LINE_LIMIT)?;
        let entry_start = Snapshot::of(&producer);
        let exit_start = Snapshot::of(&consumer);
        Ok(Queue {
            inlet: Inlet {
                producer,
                start: entry_start,
            },
            outlet: Outlet {
                consumer,
                start: exit_start,
            },
        })
    }

    /// How many items wait.
    pub fn len(&self) -> usize
        ensures value { result ≡ length self.now.waiting }
        ensures most { result ≤ places }
    {
        self.outlet.consumer.cached_slots()
    }

    /// The oldest waiting item.
    pub fn front(&self) -> Option<&T>
        ensures { option_copied result ≡ slice_get self.now.waiting 0 }
    {
        if self.outlet.consumer.cached_slots() == 0 {
            return None;
        }
        Some(self.outlet.consumer.peek_known())
    }

    /// Lets an item wait, last. Both ends then look at each other, here and in `pop`, so that a
    /// look at the queue needs no `&mut`.
    #[inline]
    pub fn push(&mut self, item: T)
        requires { length self.old.waiting < places }
        ensures { self.new ≡ with_one_more self.old item }
    {
        self.inlet.put(item);
        self.outlet.look(&mut self.inlet);
        self.inlet.find_room(&mut self.outlet);
    }

    /// Takes the oldest waiting item out.
    #[inline]
    pub fn pop(&mut self) -> Option<T>
        ensures some { IfSome result (λ x. PassesOn self.old x self.new) }
        ensures none { IfNone result ((self.old.waiting ≡ []) × (self.new ≡ self.old)) }
        ensures all { all_of self.new ≡ all_of self.old }
    {
        if self.outlet.consumer.cached_slots() == 0 {
            return None;
        }
        let item = self.outlet.consumer.pop_known();
        self.inlet.find_room(&mut self.outlet);
        Some(item)
    }

    /// Drops all that waits.
    fn clear(&mut self)
        ensures { self.new.waiting ≡ [] }
    {
        while let Some(_) = self.pop() {}
    }

    /// Makes the queue as new. All that waits is lost.
    pub fn renew(&mut self)
        ensures { self.new ≡ empty_flow }
    {
        self.clear();
        self.inlet.start = Snapshot::of(&self.inlet.producer);
        self.outlet.start = Snapshot::of(&self.outlet.consumer);
    }

    /// Takes the queue apart, for two threads.
    pub fn split(self) -> (Inlet<T>, Outlet<T>)
        ensures ends { AreEnds result.0 result.1 }
        ensures pushed { pushed result.0 ≡ all_of self }
        ensures popped { popped result.1 ≡ self.gone }
        ensures seen { seen result.1 ≡ self.waiting }
        ensures room { places ≤ free result.0 + length self.waiting }
    {
        let Queue {
            mut inlet,
            mut outlet,
        } = self;
        inlet.look(&mut outlet);
        (inlet, outlet)
    }

    /// Puts the two ends together again, in one thread.
    pub fn meet(inlet: Inlet<T>, outlet: Outlet<T>) -> Queue<T>
        requires { AreEnds inlet outlet }
        ensures pushed { all_of result ≡ pushed inlet }
        ensures popped { result.gone ≡ popped outlet }
    {
        let mut inlet = inlet;
        let mut outlet = outlet;
        inlet.look(&mut outlet);
        Queue { inlet, outlet }
    }
}
