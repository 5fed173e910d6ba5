//! The benchmarks, each by its name: `benches NAME [time]`. With `time` they print their figures,
//! of which nothing is claimed. Without a name all of them run without times, and print what they
//! counted.
//!
//! - `line`: calls that go over a line and come back answered; `rings`: the same over two rings of
//!   the crate rtrb alone;
//! - `maps`: identifiers that the map finds on which a resource manager's branches stand;
//! - `scan`: recovery pages of a resource manager with few branches and with many;
//! - `steps`: steps of a system with few transactions and with many;
//! - `workers`: jobs that worker threads commit;
//! - `stress [RUNS]`: 1,000 jobs of mixed votes on 8 threads at 8 resource managers, 200 times or
//!   as often as it says, each second time with a recovery that sweeps them.
#![tactic(auto)]

mod hops;
mod line;
mod maps;
mod rtrb_alone;
mod scan;
mod steps;
mod stress;
mod workers;

use anyhow::bail;
use std::env;
use std::sync::Wait;
use std::thread::Threads;
use std::time::Clock;

/// How often jobs of mixed votes are run if the words don't say.
const RUNS: u32 = 200;

fn main(rt: HostRuntime) -> anyhow::Result<()> {
    let words: Vec<String> = env::args(&rt)?.collect(rt.alloc())?;
    run(&rt, &rt, &words)
}

/// Runs what the words name, of which the first is the program's own name.
fn run<T: Threads + Wait + Clock + Sync>(
    rt: &HostRuntime,
    threads: &T,
    words: &[String],
) -> anyhow::Result<()> {
    let command = words.get(2).map(|word| word.as_str());
    let timed = command == Some("time");
    match words.get(1).map(|word| word.as_str()) {
        Some("line") => line::show(rt, threads, timed),
        Some("rings") => rtrb_alone::show(rt, threads, timed),
        Some("maps") => maps::show(rt, timed),
        Some("scan") => scan::show(rt, timed),
        Some("steps") => steps::show(rt, timed),
        Some("workers") => workers::show(rt, threads, timed),
        Some("stress") => {
            let runs = match command {
                Some(word) => word.parse::<u32>()?,
                None => RUNS,
            };
            stress::run(rt, threads, runs)
        }
        Some(name) => bail!("there is no benchmark {name}"),
        None => run_all(rt, threads),
    }
}

/// Runs all but the stress, without times.
fn run_all<T: Threads + Wait + Clock + Sync>(rt: &HostRuntime, threads: &T) -> anyhow::Result<()> {
    line::show(rt, threads, false)?;
    rtrb_alone::show(rt, threads, false)?;
    maps::show(rt, false)?;
    scan::show(rt, false)?;
    steps::show(rt, false)?;
    workers::show(rt, threads, false)
}
