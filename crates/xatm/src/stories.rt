//! The commands that tell of a file, and of a run in other ways than by its trace.

use std::io::Write;
use xa_commands::{Failure, Source, text_of, texts_of, told_path};
use xa_diagnostics::{FileKind, check_jobs, check_json, kind_of, warnings};
use xa_display::{ChartFault, draw_scenario, explain_scenario};
use xa_files::write_text;
use xa_log::MemLog;
use xa_scenario::check_scenario;

/// Reads the files only, each by itself as a scenario or as jobs, and prints how large they are. What is wrong with each of them
/// is told, and what a run will refuse; the failure is that of the last faulty one.
pub(crate) fn check<W: Write>(
    rt: &HostRuntime,
    files: &[&str],
    explains: bool,
    as_json: bool,
    out: &mut W,
) -> Result<(), Failure> {
    let texts = texts_of(rt, files)?;
    let mut checked: Result<(), Failure> = Ok(());
    for (path, text) in files.iter().zip(texts.iter()) {
        let mut source = Source::of(path, text, kind_of(rt.alloc(), text)?);
        source.is_whole = explains;
        let done = if as_json {
            check_as_json(rt, source, out)
        } else {
            check_one(rt, source, files.len() > 1, out)
        };
        if let Err(failure) = done {
            if let Err(earlier) = &checked {
                // A text that can't be written changes no status.
                let _unwritten = earlier.print(rt);
            }
            checked = Err(failure);
        }
    }
    checked
}

/// Reads one file only. Of several, the path comes before what is printed.
fn check_one<W: Write>(
    rt: &HostRuntime,
    source: Source<'_>,
    is_one_of_several: bool,
    out: &mut W,
) -> Result<(), Failure> {
    let alloc = rt.alloc();
    let mut line = Vec::new(alloc);
    let checked = match source.kind {
        FileKind::Scenario => check_scenario(alloc, source.text, &mut line),
        FileKind::Jobs => check_jobs(alloc, source.text, &mut line),
    };
    if let Err(fault) = checked {
        return Err(source.failure(alloc, fault));
    }
    if is_one_of_several {
        let path = format!(in alloc; "{}: ", told_path(source.path))?;
        write_text(path.as_bytes(), out)?;
    }
    write_text(line.as_slice(), out)?;
    let told = warnings(alloc, told_path(source.path), source.text)?;
    // A warning that can't be written changes no status.
    let _unwritten = eprint!(rt; "{told}");
    Ok(())
}

/// Reads one file only, and prints what there is to say of it as JSON.
fn check_as_json<W: Write>(
    rt: &HostRuntime,
    source: Source<'_>,
    out: &mut W,
) -> Result<(), Failure> {
    let alloc = rt.alloc();
    let path = told_path(source.path);
    let told = warnings(alloc, path, source.text)?;
    let json = check_json(alloc, path, source.text, source.kind, told.as_str())?;
    write_text(json.as_bytes(), out)?;
    let mut unread = Vec::new(alloc);
    let checked = match source.kind {
        FileKind::Scenario => check_scenario(alloc, source.text, &mut unread),
        FileKind::Jobs => check_jobs(alloc, source.text, &mut unread),
    };
    match checked {
        Ok(()) => Ok(()),
        // The faults are told already.
        Err(fault) if fault.status() == 1 => Err(Failure::Told(fault, String::new(alloc))),
        Err(fault) => Err(Failure::Run(fault)),
    }
}

/// Runs the scenario in a file over a log in memory, and tells its story.
pub(crate) fn explain(rt: &HostRuntime, file: &str) -> Result<Vec<u8>, Failure> {
    let alloc = rt.alloc();
    let text = text_of(rt, file)?;
    let mut told = Vec::new(alloc);
    match explain_scenario(alloc, &text, MemLog::new(alloc), &mut told) {
        Ok(()) => Ok(told),
        Err(fault) => Err(Source::of(file, &text, FileKind::Scenario).failure(alloc, fault)),
    }
}

/// Runs the scenario in a file over a log in memory, and draws it.
pub(crate) fn draw(rt: &HostRuntime, file: &str) -> Result<Vec<u8>, Failure> {
    let alloc = rt.alloc();
    let text = text_of(rt, file)?;
    let mut picture = Vec::new(alloc);
    match draw_scenario(alloc, &text, MemLog::new(alloc), &mut picture) {
        Ok(()) => Ok(picture),
        Err(ChartFault::TooLong) => Err(Failure::TooLong),
        Err(ChartFault::Run(fault)) => {
            Err(Source::of(file, &text, FileKind::Scenario).failure(alloc, fault))
        }
    }
}
