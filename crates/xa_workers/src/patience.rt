//! How long an idle worker looks for work before it sleeps.

use crate::Jobs;
use std::thread::Threads;
use std::time::{Clock, Instant};
use std::{hint, thread};

/// How often an idle worker looks before it yields, if each worker has a processor of its own.
const MOST_LOOKS: u32 = 200;

/// How often it then yields before it sleeps: for longer than it takes to wake a processor that has
/// nothing to do, so that one worker that fell asleep isn't followed by all.
const MOST_YIELDS: u32 = 1_000;

/// A yield that took more microseconds went to another program.
const LONG_YIELD: u128 = 500;

/// One that took more went to a worker on the same processor: with nobody there it takes less than
/// one.
const SHARED_YIELD: u128 = 2;

/// How often a worker sleeps at once after its first long yield. Each later one makes it eight
/// times as often.
const FIRST_SLEEPS: u32 = 16;

/// How often it does so at most after one long yield.
const MOST_SLEEPS: u32 = 4_096;

/// After so many short yields in a row a long one counts as the first again: the other program was
/// there for a moment.
const FORGIVEN: u32 = 20_000;

/// What an idle worker is to do before it looks again.
#[derive(Clone, Copy)]
pub(crate) enum Pause {
    Spin,
    Yield,
    /// To say that it falls asleep.
    Announce,
    Sleep,
}

/// To whom a yield went.
#[derive(Clone, Copy, PartialEq, Eq)]
pub(crate) enum Yielded {
    /// To nobody.
    Nobody,
    /// To a worker on the same processor.
    Worker,
    /// To another program, which may have run for a whole slice of time.
    Program,
}

/// What a worker did since it last found something to do, and what its yields cost it.
#[derive(Clone, Copy)]
pub(crate) struct Idle {
    /// How often it looks before it yields: not at all if workers share processors.
    most_looks: u32,
    most_yields: u32,
    looks: u32,
    yields: u32,
    announced: bool,
    /// How often it still sleeps at once.
    sleeps: u32,
    /// How often it does so after its next long yield.
    penalty: u32,
    /// How many yields in a row went to no other program.
    short: u32,
}

/// How often an idle worker of these jobs looks before it yields.
pub(crate) fn most_looks(rt: &impl Threads, jobs: &Jobs) -> u32 {
    let workers = u64::from(jobs.threads) + u64::from(jobs.rms) + u64::from(jobs.sweep) + 1;
    match thread::available_parallelism(rt) {
        Ok(processors) if processors.get() as u64 >= workers => MOST_LOOKS,
        _ => 0,
    }
}

/// Lets another worker run, and says who did, as far as the clock tells it.
pub(crate) fn give_way(clock: &impl Clock) -> Yielded {
    let start = Instant::now(clock);
    thread::yield_now();
    let Ok(start) = start else {
        return Yielded::Nobody;
    };
    match start.elapsed(clock) {
        Ok(took) if took.as_micros() > LONG_YIELD => Yielded::Program,
        Ok(took) if took.as_micros() > SHARED_YIELD => Yielded::Worker,
        _ => Yielded::Nobody,
    }
}

impl Idle {
    /// A worker that has just begun. If each has a processor of its own it sleeps at once the first
    /// time: Linux may start several on one processor, but wakes each on one that is free.
    pub(crate) fn new(most_looks: u32) -> Idle {
        Idle {
            most_looks,
            most_yields: MOST_YIELDS,
            looks: 0,
            yields: 0,
            announced: false,
            sleeps: u32::from(most_looks > 0),
            penalty: FIRST_SLEEPS,
            short: 0,
        }
    }

    /// A resource manager's worker that has just begun. If workers share processors it sleeps at
    /// once, and the threads that call serve themselves.
    pub(crate) fn new_rm(most_looks: u32) -> Idle {
        let most_yields = if most_looks > 0 { MOST_YIELDS } else { 0 };
        Idle {
            most_yields,
            ..Idle::new(most_looks)
        }
    }

    /// The worker found something to do.
    pub(crate) fn found(&mut self) {
        self.looks = 0;
        self.yields = 0;
        self.announced = false;
    }

    /// Waits a little, unless the worker is to fall asleep.
    pub(crate) fn pause(&mut self, clock: &impl Clock) -> Pause {
        let pause = self.next();
        match pause {
            Pause::Spin => hint::spin_loop(),
            Pause::Yield => self.note(give_way(clock)),
            Pause::Announce | Pause::Sleep => {}
        }
        pause
    }

    /// Whether the worker is to look again at once.
    pub(crate) fn look_again(&mut self) -> bool {
        if self.sleeps > 0 || self.looks >= self.most_looks {
            return false;
        }
        self.looks += 1;
        hint::spin_loop();
        true
    }

    fn next(&mut self) -> Pause {
        if self.sleeps == 0 && self.looks < self.most_looks {
            self.looks += 1;
            return Pause::Spin;
        }
        if self.sleeps == 0 && self.yields < self.most_yields {
            self.yields += 1;
            return Pause::Yield;
        }
        if !self.announced {
            self.announced = true;
            return Pause::Announce;
        }
        self.sleeps = self.sleeps.saturating_sub(1);
        self.found();
        Pause::Sleep
    }

    /// Notes to whom a yield went. If another program ran, yields may cost a whole slice of time
    /// each, and the worker goes without them for a while. If another worker did, though each has a
    /// processor of its own, it sleeps once, and is woken on one that is free.
    fn note(&mut self, yielded: Yielded) {
        if yielded == Yielded::Program {
            self.go_without();
            return;
        }
        self.short = self.short.saturating_add(1);
        if yielded == Yielded::Worker && self.most_looks > 0 {
            self.sleeps = 1;
        }
    }

    /// Has the worker sleep at once from now on: the more often, the more long yields came before,
    /// unless they are long past.
    fn go_without(&mut self) {
        if self.short >= FORGIVEN {
            self.penalty = FIRST_SLEEPS;
        }
        self.short = 0;
        self.sleeps = self.penalty;
        self.penalty = self.penalty.saturating_mul(8).min(MOST_SLEEPS);
    }
}
