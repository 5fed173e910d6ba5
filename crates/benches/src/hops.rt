//! Calls that go over a line, and their answers back.

use std::thread;
use std::thread::Threads;
use xa_base::{Answer, Call, Code, LINE_LIMIT};
use xa_line::{Issuer, Line, Taker};

/// How often in a row an end tries in vain before it gives up.
const TRIES: u32 = 1_000_000;

/// Makes the hops one after another over a line that is open, each with the call that came back
/// from the hop before. Says how many came back.
pub(crate) fn hops_in_one_thread(line: &mut Line, call: Call, hops: u32) -> u32 {
    if line.issue(call).is_err() {
        return 0;
    }
    for hop in 0..hops {
        if !makes_hop(line, hop + 1 < hops) {
            return hop;
        }
    }
    hops
}

/// Whether the call that waits is taken, and its answer comes back. If the call goes `on`, it is
/// issued again.
#[inline]
fn makes_hop(line: &mut Line, on: bool) -> bool {
    let Some(taken) = line.take() else {
        return false;
    };
    if line.answer(taken, Answer::Ret(Code::Success)).is_err() {
        return false;
    }
    let Some((heard, _answer)) = line.hear() else {
        return false;
    };
    !on || line.issue(heard).is_ok()
}

/// Makes the hops over a line that is open, with its ends in two threads, and says how many came
/// back. As many calls are on the way at the same time as a line has places.
pub(crate) fn hops_between_threads<R: Threads>(rt: &R, line: Line, call: Call, hops: u32) -> u32 {
    let (issuer, taker) = line.split();
    let (heard, answered) = thread::join(
        rt,
        move || {
            let mut issuer = issuer;
            hear_all(&mut issuer, &call, hops)
        },
        move || {
            let mut taker = taker;
            answer_all(&mut taker, hops)
        },
    );
    heard.min(answered)
}

/// Issues the calls and hears their answers, and says how many were heard. A call that was heard is
/// issued again.
fn hear_all(issuer: &mut Issuer, call: &Call, hops: u32) -> u32 {
    let first = hops.min(LINE_LIMIT as u32);
    for _ in 0..first {
        if issuer.issue(call.copy()).is_err() {
            return 0;
        }
    }
    for heard in 0..hops {
        if !hears_one(issuer, heard < hops - first) {
            return heard;
        }
    }
    hops
}

/// Whether an answer is heard at last. If its call goes `on`, it is issued again.
#[inline]
fn hears_one(issuer: &mut Issuer, on: bool) -> bool {
    for _ in 0..TRIES {
        if let Some((heard, _answer)) = issuer.hear() {
            return !on || issuer.issue(heard).is_ok();
        }
        thread::yield_now();
    }
    false
}

/// Takes the calls and answers them, and says how many were answered.
fn answer_all(taker: &mut Taker, hops: u32) -> u32 {
    for answered in 0..hops {
        if !answers_one(taker) {
            return answered;
        }
    }
    hops
}

/// Whether a call is taken at last, and answered.
#[inline]
fn answers_one(taker: &mut Taker) -> bool {
    for _ in 0..TRIES {
        if let Some(call) = taker.take() {
            return taker.answer(call, Answer::Ret(Code::Success)).is_ok();
        }
        thread::yield_now();
    }
    false
}
