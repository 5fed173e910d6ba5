//! How many identifiers a second the ordered map finds on which the manager's transactions and
//! branches stand, among few and among many. A step of a system looks some up, so this shows how
//! much of a step's time grows with what is in the map.

use std::alloc::Global;
use std::collections::BTreeMap;
use std::time::Instant;
use xa_base::{Branch, Gtrid, Xid};

/// How many identifiers are looked up, again and again: those that were put in last.
const FOUND: u32 = 100;

/// How often each is looked up if it is timed.
const ROUNDS: u32 = 10_000;

/// Prints how many identifiers are found in maps with 10, 100 and 900 others, or, if it is timed,
/// how many they are a second.
pub(crate) fn show(rt: &HostRuntime, timed: bool) -> anyhow::Result<()> {
    for beside in [10, 100, 900] {
        let map = filled(rt.alloc(), beside)?;
        let rounds = if timed { ROUNDS } else { 1 };
        let start = Instant::now(rt)?;
        let found = found(&map, beside, rounds);
        let micros = start.elapsed(rt)?.as_micros();
        println!(rt; "{found} identifiers found beside {beside} others")?;
        if timed {
            let rate = u128::from(found).saturating_mul(1_000_000) / micros.max(1);
            println!(rt; "{rate} identifiers a second")?;
        }
    }
    Ok(())
}

/// The identifier of a transaction's branch.
fn xid(sequence: u32) -> Xid {
    Branch {
        gtrid: Gtrid {
            incarnation: 1,
            sequence: u64::from(sequence),
        },
        thread: 0,
        rm: 0,
    }
    .xid()
}

/// A map of those that are looked up and so many others.
fn filled(alloc: Global, beside: u32) -> anyhow::Result<BTreeMap<Xid, u32>> {
    let mut map = BTreeMap::new(alloc);
    for sequence in 0..beside.saturating_add(FOUND) {
        map.insert(xid(sequence), sequence)?;
    }
    Ok(map)
}

/// How many were found.
fn found(map: &BTreeMap<Xid, u32>, beside: u32, rounds: u32) -> u64 {
    let mut found = 0u64;
    for _ in 0..rounds {
        for at in 0..FOUND {
            if map.get(&xid(beside.saturating_add(at))).is_some() {
                found = found.saturating_add(1);
            }
        }
    }
    found
}
