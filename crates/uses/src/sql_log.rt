//! `xa_sql_log`: a log of one's own, in a database in memory. A decision is logged and found, and
//! is gone once it is done. And one in files, which is closed and opened again.

ghost use Rattle.std.specs.Prelude.{◌≡◌, false, true, IfOk, IsTrue};
ghost use Rattle.std.specs.List.{AllByRecursion};
ghost use Rattle.sqlite.specs.Files.{image_of};
ghost use Rattle.xa_log.specs.Contract.{FitsRow, Honestly};
ghost use Rattle.xa_sql_log.specs.OpenedDatabase.{HoldsLog};

use sqlite::{FileStore, Files, Options};
use sqlite_disk::{Disk, Memory};
use std::alloc::Global;
use xa_base::{Branch, Gtrid};
use xa_log::{DecisionLog, LogFault};
use xa_sql_log::{SqlLog, memory_is_honest};

/// Logs that a transaction commits, takes its row away, and looks before and after that: the
/// decision is there, and then it isn't.
fn found_until_done<L: DecisionLog>(
    log: &mut L,
    g: Gtrid,
    participants: &[Branch],
) -> Result<(bool, bool), LogFault>
    requires fits { FitsRow g }
    requires own { AllByRecursion (λ b. b.gtrid ≡ g) participants.now }
    ensures { Honestly (L.moment log.old) (L.moment log.new)
        (IfOk result (λ found. (found.0 ≡ true) × (found.1 ≡ false))) }
{
    let _logged = log.commit(g, participants)?;
    let before = log.contains(g)?;
    let _was_there = log.done(g)?;
    let after = log.contains(g)?;
    Ok((before, after))
}

/// The same over a new log in memory, with no premise: it is in order when it is made, and honest
/// at every moment.
pub fn found_in_new_log(
    alloc: Global,
    g: Gtrid,
    participants: &[Branch],
) -> Result<(bool, bool), LogFault>
    requires fits { FitsRow g }
    requires own { AllByRecursion (λ b. b.gtrid ≡ g) participants.now }
    ensures { IfOk result (λ found. (found.0 ≡ true) × (found.1 ≡ false)) }
{
    let mut log = SqlLog::open_in_memory(alloc)?;
    memory_is_honest();
    found_until_done(&mut log, g, participants)
}

/// Opens the log in files, or makes it, logs that a transaction commits, and closes it into one
/// file. Then it opens the log in the same files again, and looks: the decision is there. That the
/// files are empty or hold a log, and that they give back what was written, up to the last look, is
/// the premise.
pub fn found_again<D: Disk + Drop>(
    alloc: Global,
    files: Files<D>,
    g: Gtrid,
    participants: &[Branch],
) -> Result<(bool, SqlLog<FileStore<D>>), LogFault>
    requires log { IsTrue (D.Disk.is_usable files.log) }
    requires db { IsTrue (D.Disk.is_usable files.db) }
    requires fits { FitsRow g }
    requires own { AllByRecursion (λ b. b.gtrid ≡ g) participants.now }
    ensures { HoldsLog (image_of D.Disk files) → IfOk result (λ found.
        (⟦<SqlLog<FileStore<D>> as DecisionLog>⟧.moment found.1).is_honest → found.0 ≡ true) }
{
    let mut log = SqlLog::open_files(alloc, files, Options::new(0))?;
    let _logged = log.commit(g, participants)?;
    let files = match log.close_files() {
        Ok(files) => files,
        Err((fault, _store)) => return Err(fault),
    };
    let mut again = SqlLog::open_files(alloc, files, Options::new(0))?;
    let found = again.contains(g)?;
    Ok((found, again))
}

/// Two empty files in memory: a log may be opened in them.
pub fn new_files(alloc: Global) -> Files<Memory>
    ensures log { IsTrue (⟦<Memory as Disk>⟧.is_usable result.log) }
    ensures db { IsTrue (⟦<Memory as Disk>⟧.is_usable result.db) }
{
    Files {
        log: Memory::new(alloc),
        db: Memory::new(alloc),
    }
}
