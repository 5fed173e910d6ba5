//! The top of a jobs file.

ghost use Rattle.std.specs.Prelude.{◌≡◌, ◌≤◌, ◌<◌, IfOk, option_map};
ghost use Rattle.std.specs.Result.{result_ok};
ghost use Rattle.toml.specs.View.{items_view, table_view};
ghost use Rattle.xa_files.specs.Misfits.{ReadsDocument};
ghost use Rattle.xa_jobs.specs.Headers.{jobs_header_at, jobs_header_of, sweep_at};

use toml::{Table, Value};
use xa_base::{MAX_RMS, MAX_THREADS};
use xa_files::{Finding, Misfit, only_keys, size_at, tables_at, value_at};

/// Whether a recovery sweeps the jobs: not if the file doesn't say so.
#[tactic(auto, unfolding(crate::specs::Headers::sweep_at))]
fn sweep_at(document: &Table) -> Result<bool, Finding<'_>>
    ensures { result_ok result ≡ sweep_at (table_view document.now) }
{
    match value_at(document, "sweep") {
        None => Ok(false),
        Some(value) => value.as_bool().ok_or(Finding::Unfit {
            key: "sweep",
            value,
        }),
    }
}

/// The top of a document: the threads, the resource managers, whether a recovery sweeps, and the
/// tables of the jobs.
#[tactic(auto, unfolding(crate::specs::Headers::jobs_header_at))]
fn header_at(document: &Table) -> Result<(u32, u32, bool, &[Value]), Finding<'_>>
    ensures header { option_map (λ h. (h.0, h.1, h.2, items_view h.3.now)) (result_ok result)
        ≡ jobs_header_at (table_view document.now) }
    ensures sizes { IfOk result (λ h. (0 < h.0) × (h.0 ≤ MAX_THREADS)
        × (0 < h.1) × (h.1 ≤ MAX_RMS)) }
{
    let of = "the top of a jobs file";
    only_keys(document, of, &["threads", "rms", "sweep", "job"])?;
    let threads = size_at(document, of, "threads", MAX_THREADS)?;
    let rms = size_at(document, of, "rms", MAX_RMS)?;
    let sweep = sweep_at(document)?;
    let jobs = tables_at(document, "job")?;
    Ok((threads, rms, sweep, jobs))
}

/// The same, with where it is wrong.
pub(crate) fn header_of(document: &Table) -> Result<(u32, u32, bool, &[Value]), Misfit<'_>>
    ensures header { ReadsDocument (λ h. (h.0, h.1, h.2, items_view h.3.now)) result
        (jobs_header_of (table_view document.now)) }
    ensures sizes { IfOk result (λ h. (0 < h.0) × (h.0 ≤ MAX_THREADS)
        × (0 < h.1) × (h.1 ≤ MAX_RMS)) }
{
    match header_at(document) {
        Ok(header) => Ok(header),
        Err(finding) => Err(Misfit::Header(finding)),
    }
}
