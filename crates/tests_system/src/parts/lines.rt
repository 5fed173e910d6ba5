//! What no clause says: that lines are made if there is memory, and that real threads get calls and
//! answers through.

ghost use Rattle.std.specs.Prelude.{◌≡◌};
ghost use Rattle.xa_line.specs.Ends.{SameIssuer, SameTaker};

use std::test::Fail;
use std::thread;
use xa_base::{Answer, Call, Code};
use xa_line::{Issuer, Line, Lines, Taker};

/// How often in a row an end tries in vain before it gives up.
const TRIES: u32 = 1_000_000;

/// How many calls go from thread to thread.
const CALLS: i64 = 1_000;

/// How many of them are left for the line when its ends meet.
const LEFT: i64 = 32;

/// A call that differs from others by its number.
fn numbered(number: i64) -> Call {
    Call::Recover {
        count: number,
        start_scan: true,
        end_scan: true,
    }
}

fn has_number(call: &Call, number: i64) -> bool {
    match call {
        Call::Recover { count, .. } => *count == number,
        _ => false,
    }
}

/// Takes and counts all that waits.
fn take_rest(line: &mut Line) -> i64 {
    let mut taken = 0i64;
    for _ in 0..TRIES {
        if line.take().is_none() {
            break;
        }
        taken = taken.saturating_add(1);
    }
    taken
}

/// Whether the call was accepted at last.
fn issue_patiently(issuer: &mut Issuer, call: &Call) -> bool
    ensures { SameIssuer issuer.old issuer.new }
{
    for _ in 0..TRIES {
        if issuer.issue(call.copy()).is_ok() {
            return true;
        }
        thread::yield_now();
    }
    false
}

fn take_patiently(taker: &mut Taker) -> Option<Call>
    ensures { SameTaker taker.old taker.new }
{
    for _ in 0..TRIES {
        if let Some(call) = taker.take() {
            return Some(call);
        }
        thread::yield_now();
    }
    None
}

/// Whether the answer was accepted at last.
fn answer_patiently(taker: &mut Taker, call: Call, code: Code) -> bool
    ensures { SameTaker taker.old taker.new }
{
    let mut call = call;
    for _ in 0..TRIES {
        let Err((back, _answer)) = taker.answer(call, Answer::Ret(code)) else {
            return true;
        };
        call = back;
        thread::yield_now();
    }
    false
}

fn hear_patiently(issuer: &mut Issuer) -> Option<(Call, Answer)>
    ensures { SameIssuer issuer.old issuer.new }
{
    for _ in 0..TRIES {
        if let Some(pair) = issuer.hear() {
            return Some(pair);
        }
        thread::yield_now();
    }
    None
}

/// Issues xa_open so many times, and says how many were accepted before the end gave up.
fn issue_opens(issuer: &mut Issuer, count: i64) -> i64
    ensures { SameIssuer issuer.old issuer.new }
{
    for number in 0..count {
        if !issue_patiently(issuer, &Call::OpenRm) {
            return number;
        }
    }
    count
}

/// Takes xa_open so many times, and says how many were taken before the end gave up or took
/// something else.
fn take_opens(taker: &mut Taker, count: i64) -> i64
    ensures { SameTaker taker.old taker.new }
{
    for number in 0..count {
        let Some(Call::OpenRm) = take_patiently(taker) else {
            return number;
        };
    }
    count
}

/// Issues numbered calls and hears an answer to each, and says how many came back in order.
fn ask(issuer: &mut Issuer, count: i64) -> i64
    ensures { SameIssuer issuer.old issuer.new }
{
    for number in 0..count {
        if !issue_patiently(issuer, &numbered(number)) {
            return number;
        }
        let Some((call, answer)) = hear_patiently(issuer) else {
            return number;
        };
        if !has_number(&call, number) || answer.number() != -5 {
            return number;
        }
    }
    count
}

/// Takes and answers so many calls, and says how many came in order.
fn reply(taker: &mut Taker, count: i64) -> i64
    ensures { SameTaker taker.old taker.new }
{
    for number in 0..count {
        let Some(call) = take_patiently(taker) else {
            return number;
        };
        if !has_number(&call, number) || !answer_patiently(taker, call, Code::Invalid) {
            return number;
        }
    }
    count
}

#[test]
fn a_thousand_calls_from_thread_to_thread(rt: HostRuntime) -> Result<(), Fail> {
    let (issuer, taker) = Line::new(rt.alloc())?.split();
    let ((issuer, issued), (taker, taken)) = thread::join(
        &rt,
        move || -> (Issuer, i64)
            ensures { SameIssuer issuer result.0 }
        {
            let mut issuer = issuer;
            let issued = issue_opens(&mut issuer, CALLS);
            (issuer, issued)
        },
        move || -> (Taker, i64)
            ensures { SameTaker taker result.0 }
        {
            let mut taker = taker;
            let taken = take_opens(&mut taker, CALLS - LEFT);
            (taker, taken)
        },
    );
    assert!(rt; issued == CALLS);
    assert!(rt; taken == CALLS - LEFT);
    assert!(rt; take_rest(&mut Line::meet(issuer, taker)) == LEFT);
    Ok(())
}

#[test]
fn answers_come_back_from_the_other_thread(rt: HostRuntime) -> Result<(), Fail> {
    let mut line = Line::new(rt.alloc())?;
    assert!(rt; line.issue(Call::OpenRm) == Ok(()));
    assert!(rt; line.take() == Some(Call::OpenRm));
    let (issuer, taker) = line.split();
    let (asked, replied) = thread::join(
        &rt,
        move || {
            let mut issuer = issuer;
            ask(&mut issuer, CALLS)
        },
        move || {
            let mut taker = taker;
            reply(&mut taker, CALLS)
        },
    );
    assert!(rt; asked == CALLS);
    assert!(rt; replied == CALLS);
    Ok(())
}

#[test]
fn lines_of_a_system(rt: HostRuntime) -> Result<(), Fail> {
    let mut lines = Lines::new(rt.alloc(), 2, 3)?;
    assert!(rt; (lines.threads(), lines.rms()) == (2, 3));
    assert!(rt; lines.line_mut(1, 2).issue(Call::OpenRm) == Ok(()));
    assert!(rt; lines.line(1, 2).is_open());
    assert!(rt; !lines.line(1, 1).is_open());
    lines.renew_rm(2);
    assert!(rt; !lines.line(1, 2).is_open());
    Ok(())
}
