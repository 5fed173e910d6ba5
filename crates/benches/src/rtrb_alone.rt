//! What two rings of the crate rtrb do by themselves with the calls and the answers of a line. No
//! line stands above them, and no clause says what they do: so the figures show how much of the
//! time is the crate's own.

use crate::line::{hop_count, prepare, show_hops};
use rtrb::{Consumer, Producer, RingBuffer};
use std::alloc::{AllocError, Global};
use std::thread;
use std::thread::Threads;
use std::time::Instant;
use xa_base::{Answer, Call, Code, LINE_LIMIT};

/// How often in a row an end tries in vain before it gives up.
const TRIES: u32 = 1_000_000;

/// The end that issues calls and hears answers.
#[derive(Drop)]
struct Front {
    calls: Producer<Call>,
    answers: Consumer<(Call, Answer)>,
}

/// The end that takes calls and answers them.
#[derive(Drop)]
struct Back {
    calls: Consumer<Call>,
    answers: Producer<(Call, Answer)>,
}

/// Two empty rings, with as many places as a line has.
fn rings(alloc: Global) -> Result<(Front, Back), AllocError> {
    let calls = RingBuffer::new(alloc, LINE_LIMIT)?;
    let answers = RingBuffer::new(alloc, LINE_LIMIT)?;
    Ok(ends_of(calls, answers))
}

/// The ends of two rings, by side.
fn ends_of(
    (calls_in, calls_out): (Producer<Call>, Consumer<Call>),
    (answers_in, answers_out): (Producer<(Call, Answer)>, Consumer<(Call, Answer)>),
) -> (Front, Back) {
    let front = Front {
        calls: calls_in,
        answers: answers_out,
    };
    let back = Back {
        calls: calls_out,
        answers: answers_in,
    };
    (front, back)
}

/// Makes hops in one thread, and between two.
pub(crate) fn show<T: Threads>(rt: &HostRuntime, threads: &T, timed: bool) -> anyhow::Result<()> {
    let hops = hop_count(timed);
    let (mut front, mut back) = rings(rt.alloc())?;
    let start = Instant::now(rt)?;
    let made = hops_in_one_thread(&mut front, &mut back, prepare(), hops);
    show_hops(
        rt,
        "over rings in one thread",
        made,
        timed,
        start.elapsed(rt)?,
    )?;
    let start = Instant::now(rt)?;
    let made = hops_between_threads(threads, front, back, prepare(), hops);
    show_hops(
        rt,
        "over rings between two threads",
        made,
        timed,
        start.elapsed(rt)?,
    )
}

fn hops_in_one_thread(front: &mut Front, back: &mut Back, call: Call, hops: u32) -> u32 {
    if front.calls.push(call).is_err() {
        return 0;
    }
    for hop in 0..hops {
        if !makes_hop(front, back, hop + 1 < hops) {
            return hop;
        }
    }
    hops
}

#[inline]
fn makes_hop(front: &mut Front, back: &mut Back, on: bool) -> bool {
    let Ok(taken) = back.calls.pop() else {
        return false;
    };
    if back
        .answers
        .push((taken, Answer::Ret(Code::Success)))
        .is_err()
    {
        return false;
    }
    let Ok((heard, _answer)) = front.answers.pop() else {
        return false;
    };
    !on || front.calls.push(heard).is_ok()
}

fn hops_between_threads<R: Threads>(
    rt: &R,
    front: Front,
    back: Back,
    call: Call,
    hops: u32,
) -> u32 {
    let (heard, answered) = thread::join(
        rt,
        move || {
            let mut front = front;
            hear_all(&mut front, &call, hops)
        },
        move || {
            let mut back = back;
            answer_all(&mut back, hops)
        },
    );
    heard.min(answered)
}

fn hear_all(front: &mut Front, call: &Call, hops: u32) -> u32 {
    let first = hops.min(LINE_LIMIT as u32);
    for _ in 0..first {
        if front.calls.push(call.copy()).is_err() {
            return 0;
        }
    }
    for heard in 0..hops {
        if !hears_one(front, heard < hops - first) {
            return heard;
        }
    }
    hops
}

#[inline]
fn hears_one(front: &mut Front, on: bool) -> bool {
    for _ in 0..TRIES {
        if let Ok((heard, _answer)) = front.answers.pop() {
            return !on || front.calls.push(heard).is_ok();
        }
        thread::yield_now();
    }
    false
}

fn answer_all(back: &mut Back, hops: u32) -> u32 {
    for answered in 0..hops {
        if !answers_one(back) {
            return answered;
        }
    }
    hops
}

#[inline]
fn answers_one(back: &mut Back) -> bool {
    for _ in 0..TRIES {
        if let Ok(call) = back.calls.pop() {
            return back
                .answers
                .push((call, Answer::Ret(Code::Success)))
                .is_ok();
        }
        thread::yield_now();
    }
    false
}
