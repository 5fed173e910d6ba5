//! How long the log's worker waits for further rows to write with those that are asked for.

use crate::docket::Docket;
use crate::patience::{Yielded, give_way};
use std::time::{Clock, Instant};

/// Of the time of its last write the log's worker waits this part at most.
const PART: u128 = 4;

/// It doesn't wait at all if that write took fewer microseconds, as most of a log in memory do:
/// there is little to share.
const LEAST_WRITE: u128 = 50;

/// How often it yields at most in one wait.
const MOST_WAITS: u32 = 10_000;

/// So many writes go without a wait after one in which another program ran.
const UNPACED: u32 = 256;

/// What the log's worker waits for before a write. Threads that ask one by one would fall into
/// groups that are written in turn, and each group would wait for the writes of the others.
#[derive(Clone, Copy)]
pub(crate) struct Pace {
    /// The microseconds that the last write took.
    last: u128,
    /// How many writes still go without a wait.
    unpaced: u32,
}

impl Pace {
    /// Before the first write.
    pub(crate) const NEW: Pace = Pace {
        last: 0,
        unpaced: 0,
    };

    /// Holds a write back while other threads may still add rows to it: until every thread has
    /// asked, at most 1/PART of the last write's time.
    pub(crate) fn fill(&mut self, clock: &impl Clock, docket: &Docket) {
        if self.unpaced > 0 {
            self.unpaced -= 1;
            return;
        }
        let most = self.last / PART;
        if most == 0 {
            return;
        }
        let Ok(start) = Instant::now(clock) else {
            return;
        };
        for _ in 0..MOST_WAITS {
            if docket.is_full() {
                return;
            }
            if give_way(clock) == Yielded::Program {
                self.unpaced = UNPACED;
                return;
            }
            match start.elapsed(clock) {
                Ok(waited) if waited.as_micros() < most => {}
                _ => return,
            }
        }
    }

    /// Notes how long a write took that began then.
    pub(crate) fn wrote(&mut self, clock: &impl Clock, start: Option<Instant>) {
        let took = start.and_then(|start| start.elapsed(clock).ok());
        self.last = match took {
            Some(took) if took.as_micros() >= LEAST_WRITE => took.as_micros(),
            _ => 0,
        };
    }
}
