//! Files in memory, of which one stops after so many calls.

use sqlite::Files;
use sqlite_disk::{Crash, Disk, Fuse, Memory};
use std::alloc::Global;
use std::io;

/// A disk that can be made to stop.
pub(crate) trait StopsAfter: Crash + Drop + Sized {
    /// A disk with the same bytes, all of them written for good, which stops after so many calls.
    fn after(&self, alloc: Global, calls: u64) -> io::Result<Self>;
}

impl StopsAfter for Fuse<Memory> {
    fn after(&self, alloc: Global, calls: u64) -> io::Result<Fuse<Memory>> {
        let mut copy = Memory::new(alloc);
        copy.write_at(0, self.inner().bytes())?;
        copy.sync()?;
        Ok(Fuse::new(copy, calls))
    }
}

/// Which of the two files stops.
#[derive(Clone, Copy)]
pub(crate) enum Stops {
    Journal,
    Database,
}

/// Empty files, of which none stops.
pub(crate) fn blank(alloc: Global) -> Files<Fuse<Memory>> {
    Files {
        log: Fuse::new(Memory::new(alloc), u64::MAX),
        db: Fuse::new(Memory::new(alloc), u64::MAX),
    }
}

/// The same files, all of which is on the disk, of which the one stops after so many calls.
pub(crate) fn stopping<D: StopsAfter>(
    alloc: Global,
    files: &Files<D>,
    which: Stops,
    calls: u64,
) -> io::Result<Files<D>> {
    let (log_calls, db_calls) = match which {
        Stops::Journal => (calls, u64::MAX),
        Stops::Database => (u64::MAX, calls),
    };
    Ok(Files {
        log: files.log.after(alloc, log_calls)?,
        db: files.db.after(alloc, db_calls)?,
    })
}
