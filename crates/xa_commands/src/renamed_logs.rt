//! A log whose resource managers get other names, or one more.

use crate::failure::Failure;
use crate::lists::head_of;
use crate::log_names::{label_names, label_of, manager_in};
use crate::log_reasons::{opening_failure, refused};
use crate::logs::shut;
use crate::rm_names::{ChangeFault, MOST_RMS, NameChange, check_change, names_changed};
use crate::shut_logs::lock_failure;
use sqlite::Unknown;
use std::alloc::Global;
use xa_labels::label_files;
use xa_sql_log::SqlLog;

/// Changes the names of resource managers that the log at a path keeps.
pub fn rename_rms(rt: &HostRuntime, path: &str, change: NameChange<'_>) -> Result<(), Failure> {
    let alloc = rt.alloc();
    // If there is no log, a lock would make its files.
    let _there = head_of(rt, path)?;
    let files = match SqlLog::lock(rt, path, Unknown) {
        Ok(files) => files,
        Err(fault) => return Err(lock_failure(rt, path, fault)),
    };
    let head = head_of(rt, path)?;
    if head.is_shut {
        return Err(shut(alloc, path));
    }
    let label = changed_label(alloc, path, head.label.as_str(), change)?;
    let changed = match SqlLog::open_locked(rt, files, "") {
        Ok(log) => label_files(alloc, log, label.as_str()),
        Err(fault) => Err(fault),
    };
    changed.map_err(|fault| opening_failure(rt, path, fault))
}

/// The label of a log once its names are changed.
fn changed_label(
    alloc: Global,
    path: &str,
    label: &str,
    change: NameChange<'_>,
) -> Result<String, Failure> {
    let kept = label_names(alloc, label)?;
    let rms = kept.get(1..).unwrap_or(&[]);
    if let Err(fault) = check_change(rms, &change) {
        return Err(refusal(alloc, path, change, fault)?);
    }
    let rms = names_changed(alloc, rms, &change)?;
    Ok(label_of(alloc, &manager_in(label), rms.as_slice())?)
}

/// Why names aren't changed so.
fn refusal(
    alloc: Global,
    path: &str,
    change: NameChange<'_>,
    fault: ChangeFault,
) -> Result<Failure, Failure> {
    let text = match fault {
        ChangeFault::NoName => return Ok(Failure::RmNames),
        ChangeFault::Unkept => String::from_str(alloc, "it keeps no names of resource managers")?,
        ChangeFault::Taken(place) => format!(in alloc;
            "its resource manager {place} is called {} already",
            change.new_name()
        )?,
        ChangeFault::Full => {
            format!(in alloc; "it has {MOST_RMS} resource managers, as many as there may be")?
        }
        ChangeFault::Unknown => format!(in alloc;
            "none of its resource managers is called {}",
            change.old_name()
        )?,
    };
    refused(alloc, path, text.as_str())
}
