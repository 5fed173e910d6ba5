//! The files that are read and written.

use crate::failure::Failure;
use std::alloc::Global;
use std::fs;
use std::io::{self, ErrorKind, Input, Read, Write};
use xa_diagnostics::{FileKind, report};
use xa_files::{RunFault, write_text};

/// What an error tells, without its number.
fn without_number(told: &str) -> &str {
    match told.split_once(" (os error ") {
        Some((reason, _number)) => reason,
        None => told,
    }
}

/// A path, and why the system refuses it.
fn system_text(alloc: Global, path: &str, error: &io::Error) -> Result<String, Failure> {
    let told = format!(in alloc; "{error}")?;
    let reason = without_number(told.as_str());
    Ok(format!(in alloc; "{path}: {reason}")?)
}

/// The failure of a file that can't be read.
fn unreadable(alloc: Global, path: &str, error: &io::Error) -> Failure {
    match system_text(alloc, path, error) {
        Ok(text) => Failure::Unreadable(text).caused_by(error),
        Err(failure) => failure,
    }
}

/// The failure of a log or an output that the system refuses.
pub(crate) fn system_failure(alloc: Global, path: &str, error: &io::Error) -> Failure {
    match system_text(alloc, path, error) {
        Ok(text) => Failure::Failed(text).caused_by(error),
        Err(failure) => failure,
    }
}

/// The path as it is told: `-` is standard input.
pub fn told_path(path: &str) -> &str {
    if path == "-" { "<stdin>" } else { path }
}

/// All of standard input.
fn input_bytes(rt: &HostRuntime) -> io::Result<Vec<u8>> {
    let mut bytes = Vec::new(rt.alloc());
    let mut reader = rt.reader();
    reader.read_to_end(&mut bytes)?;
    Ok(bytes)
}

/// What the file at a path holds; `-` is standard input.
pub fn text_of(rt: &HostRuntime, path: &str) -> Result<Vec<u8>, Failure> {
    let text = if path == "-" {
        input_bytes(rt)
    } else {
        fs::read(rt, path)
    };
    text.map_err(|error| unreadable(rt.alloc(), told_path(path), &error))
}

/// What each of some files holds.
pub fn texts_of(rt: &HostRuntime, paths: &[&str]) -> Result<Vec<Vec<u8>>, Failure> {
    let mut texts = Vec::new(rt.alloc());
    for path in paths {
        texts.push(text_of(rt, path)?)?;
    }
    Ok(texts)
}

/// A file that was read, for what it is read, and how much is told of it.
#[derive(Clone, Copy)]
pub struct Source<'a> {
    pub path: &'a str,
    pub text: &'a [u8],
    /// The files before it, whose transactions it knows.
    pub earlier: &'a [Vec<u8>],
    pub kind: FileKind,
    /// Whether all faults are told, and not the first ten.
    pub is_whole: bool,
}

impl<'a> Source<'a> {
    /// A file by itself.
    pub fn of(path: &'a str, text: &'a [u8], kind: FileKind) -> Source<'a> {
        Source {
            path,
            text,
            earlier: &[],
            kind,
            is_whole: false,
        }
    }

    /// The failure of a run of the file. Where the file is refused, all that is wrong with it is told.
    pub fn failure(&self, alloc: Global, fault: RunFault) -> Failure {
        if fault.status() != 1 {
            return Failure::Run(fault);
        }
        let path = told_path(self.path);
        match report(
            alloc,
            path,
            self.text,
            self.earlier,
            self.kind,
            fault,
            self.is_whole,
        ) {
            Ok(told) => Failure::Told(fault, told),
            Err(error) => Failure::from(error),
        }
    }
}

/// Writes a text into the file at a path, or else prints it.
pub fn output_to<W: Write>(
    rt: &HostRuntime,
    path: Option<&str>,
    text: &[u8],
    out: &mut W,
) -> Result<(), Failure> {
    match path {
        None | Some("-") => Ok(write_text(text, out)?),
        Some(path) => fs::write(rt, path, text).map_err(|error| system_failure(
            rt.alloc(),
            path,
            &error,
        )),
    }
}

/// Whether the system says that there is no such file.
pub(crate) fn is_missing(error: &io::Error) -> bool {
    matches!(error.kind(), ErrorKind::NotFound)
}
