//! Gates at which workers are counted, held back or wait for each other.

use std::sync::atomic::{AtomicBool, AtomicU64, Ordering};
use std::thread;
use xa_workers::{Gate, Point};

/// How often a gate looks in vain before it gives up: for most of the minute that a test has, since
/// on a busy machine the other worker may be kept waiting for long.
const LOOKS: u32 = 30_000_000;

/// A gate that holds nobody back, and counts the answers of all resource managers.
#[derive(Drop)]
pub(crate) struct Counting {
    pub(crate) answered: AtomicU64,
}

impl Counting {
    pub(crate) fn new() -> Counting {
        Counting {
            answered: AtomicU64::new(0),
        }
    }
}

impl Gate for Counting {
    fn at(&self, point: Point) -> bool {
        if matches!(point, Point::Answered(_)) {
            self.answered.fetch_add(1, Ordering::SeqCst);
        }
        true
    }
}

/// A gate that lets nobody through at one point.
#[derive(Drop)]
pub(crate) struct Shut {
    pub(crate) at: Point,
}

impl Gate for Shut {
    fn at(&self, point: Point) -> bool {
        !(point == self.at)
    }
}

/// A gate at which two workers wait for each other.
#[derive(Drop)]
pub(crate) struct Meeting {
    points: [Point; 2],
    came: [AtomicBool; 2],
    pub(crate) failed: AtomicBool,
}

impl Meeting {
    pub(crate) fn new(points: [Point; 2]) -> Meeting {
        Meeting {
            points,
            came: [AtomicBool::new(false), AtomicBool::new(false)],
            failed: AtomicBool::new(false),
        }
    }

    fn meet(&self, own: &AtomicBool, other: &AtomicBool) {
        own.store(true, Ordering::SeqCst);
        for _ in 0..LOOKS {
            if other.load(Ordering::SeqCst) {
                return;
            }
            thread::yield_now();
        }
        self.failed.store(true, Ordering::SeqCst);
    }
}

impl Gate for Meeting {
    fn at(&self, point: Point) -> bool {
        let [first, second] = &self.came;
        if point == self.points[0] {
            self.meet(first, second);
        } else if point == self.points[1] {
            self.meet(second, first);
        }
        true
    }
}

/// A gate that is shut at one point until it was told another so many times.
#[derive(Drop)]
pub(crate) struct After {
    shut: Point,
    awaited: Point,
    times: u64,
    told: AtomicU64,
}

impl After {
    pub(crate) fn new(shut: Point, awaited: Point, times: u64) -> After {
        After {
            shut,
            awaited,
            times,
            told: AtomicU64::new(0),
        }
    }
}

impl Gate for After {
    fn at(&self, point: Point) -> bool {
        if point == self.awaited {
            self.told.fetch_add(1, Ordering::SeqCst);
        }
        if point == self.shut && self.told.load(Ordering::SeqCst) < self.times {
            thread::yield_now();
            return false;
        }
        true
    }
}

/// A gate at which resource manager 0 gives its fifth answer only once all others together have
/// given eight.
#[derive(Drop)]
pub(crate) struct Lagging {
    answered: AtomicU64,
    others: AtomicU64,
}

impl Lagging {
    pub(crate) fn new() -> Lagging {
        Lagging {
            answered: AtomicU64::new(0),
            others: AtomicU64::new(0),
        }
    }

    fn is_shut(&self) -> bool {
        self.answered.load(Ordering::SeqCst) == 4 && self.others.load(Ordering::SeqCst) < 8
    }
}

impl Gate for Lagging {
    fn at(&self, point: Point) -> bool {
        match point {
            Point::Answering(0) if self.is_shut() => {
                thread::yield_now();
                return false;
            }
            Point::Answered(0) => self.answered.fetch_add(1, Ordering::SeqCst),
            Point::Answered(_) => self.others.fetch_add(1, Ordering::SeqCst),
            _ => 0,
        };
        true
    }
}
