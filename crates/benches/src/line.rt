//! How many hops a second a line carries. A hop is a call that is issued and taken, and its answer
//! that is let wait and heard.

use crate::hops::{hops_between_threads, hops_in_one_thread};
use std::alloc::Global;
use std::thread::Threads;
use std::time::{Duration, Instant};
use xa_base::{Branch, Call, Gtrid};
use xa_line::Line;

/// How many hops are made.
pub(crate) fn hop_count(timed: bool) -> u32 {
    if timed { 3_000_000 } else { 200_000 }
}

/// A line on which an xa_open was taken.
fn opened(alloc: Global) -> anyhow::Result<Line> {
    let mut line = Line::new(alloc)?;
    line.issue(Call::OpenRm)?;
    let _open = line.take();
    Ok(line)
}

fn show_in_one_thread(rt: &HostRuntime, line: &mut Line, timed: bool) -> anyhow::Result<()> {
    let start = Instant::now(rt)?;
    let made = hops_in_one_thread(line, prepare(), hop_count(timed));
    show_hops(rt, "in one thread", made, timed, start.elapsed(rt)?)
}

/// Makes hops in one thread, and between two. If they are timed it makes more of them, so that the
/// figures are steady.
pub(crate) fn show<T: Threads>(rt: &HostRuntime, threads: &T, timed: bool) -> anyhow::Result<()> {
    let mut line = opened(rt.alloc())?;
    show_in_one_thread(rt, &mut line, timed)?;
    let start = Instant::now(rt)?;
    let made = hops_between_threads(threads, line, prepare(), hop_count(timed));
    show_hops(rt, "between two threads", made, timed, start.elapsed(rt)?)
}

/// Prints how many hops were made, and how many they are a second if they are timed.
pub(crate) fn show_hops(
    rt: &HostRuntime,
    place: &str,
    hops: u32,
    timed: bool,
    took: Duration,
) -> anyhow::Result<()> {
    println!(rt; "{hops} hops {place}")?;
    if timed {
        let a_second = u128::from(hops) * 1_000_000 / took.as_micros().max(1);
        println!(rt; "{a_second} a second")?;
    }
    Ok(())
}

/// The call that is made: an xa_prepare.
pub(crate) fn prepare() -> Call {
    let branch = Branch {
        gtrid: Gtrid {
            incarnation: 1,
            sequence: 1,
        },
        thread: 0,
        rm: 0,
    };
    Call::Prepare { xid: branch.xid() }
}
