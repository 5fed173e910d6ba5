//! What the reading of a jobs file comes to. These functions do nothing: each contract is a
//! theorem.

ghost use Rattle.std.specs.Prelude.{ℕ};
ghost use Rattle.xa_files.specs.TablesInTurn.{EachIsRead, FaultsAreOfTexts, FirstIsFaulty};
ghost use Rattle.xa_files.specs.declared.fault.RunFault.TheVariants.{Job};
ghost use Rattle.xa_jobs.specs.JobFiles.{jobs_from, jobs_of};
ghost use Rattle.xa_jobs.specs.JobTables.{job_asked_at};

/// The tables are read each by itself, and a fault is the first one.
pub fn tables_are_read_in_turn()
    ensures each_is_read { (rms : ℕ) → EachIsRead (job_asked_at rms) (jobs_from rms 1) }
    ensures first_is_faulty { (rms : ℕ) → FirstIsFaulty (job_asked_at rms) (jobs_from rms 1) }
{}

/// A text has no other faults than these: it is no TOML, its header is faulty, or a job.
pub fn faults_are_of_texts()
    ensures { FaultsAreOfTexts Job jobs_of }
{}
