//! How long recovery pages take at a resource manager with few branches, and at one with many of
//! which few are in doubt.

use std::alloc::Global;
use std::time::Instant;
use xa_base::{Answer, Branch, Call, Gtrid, Memory, TMENDRSCAN, TMSTARTRSCAN};
use xa_rm::{MemRm, ResourceManager};

/// How many pages are read.
const PAGES: u32 = 1_000;

/// How many branches are in doubt: one in `branches / IN_DOUBT`.
const IN_DOUBT: u32 = 10;

const FEW: u32 = 10;

const MANY: u32 = 10_000;

/// Prints how many identifiers the pages list at either. If they are timed it also prints the
/// microseconds that they take, and how many times as long the second takes as the first.
pub(crate) fn show(rt: &HostRuntime, timed: bool) -> anyhow::Result<()> {
    let few = measured(rt, FEW)?;
    let many = measured(rt, MANY)?;
    for run in [few, many] {
        println!(rt;
            "{} identifiers listed at {} branches",
            run.listed, run.branches
        )?;
        if timed {
            println!(rt; "{} microseconds", run.micros)?;
        }
    }
    if timed {
        let tenths = many.micros.saturating_mul(10) / few.micros.max(1);
        println!(rt; "{}.{} times as long", tenths / 10, tenths % 10)?;
    }
    Ok(())
}

/// What the pages at one resource manager gave.
#[derive(Clone, Copy)]
struct Run {
    branches: u32,
    listed: usize,
    micros: u128,
}

/// Reads the pages at a resource manager with so many branches.
fn measured(rt: &HostRuntime, branches: u32) -> anyhow::Result<Run> {
    let mut rm = filled(rt.alloc(), branches)?;
    let start = Instant::now(rt)?;
    let listed = listed(&mut rm)?;
    let micros = start.elapsed(rt)?.as_micros();
    Ok(Run {
        branches,
        listed,
        micros,
    })
}

/// A resource manager with so many started branches, of which each `branches / IN_DOUBT`th is
/// prepared.
fn filled(alloc: Global, branches: u32) -> Result<MemRm, Memory> {
    let mut rm = MemRm::new(alloc);
    let step = (branches / IN_DOUBT).max(1);
    for n in 0..branches {
        let branch = Branch {
            gtrid: Gtrid {
                incarnation: 1,
                sequence: n as u64,
            },
            thread: 0,
            rm: 0,
        };
        let xid = branch.xid();
        rm.apply(0, &Call::start(xid.copy()))?;
        if n % step == 0 {
            rm.apply(0, &Call::end(xid.copy()))?;
            rm.apply(0, &Call::Prepare { xid })?;
        }
    }
    Ok(rm)
}

/// How many identifiers the pages list in all, each page by a scan of its own.
fn listed<R: ResourceManager>(rm: &mut R) -> Result<usize, Memory> {
    let mut listed = 0usize;
    for _ in 0..PAGES {
        if let Answer::Page(page) = rm.recover(0, i64::from(IN_DOUBT), TMSTARTRSCAN + TMENDRSCAN)? {
            listed = listed.saturating_add(page.len());
        }
    }
    Ok(listed)
}
