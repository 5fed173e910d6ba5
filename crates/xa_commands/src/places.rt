//! What lies at the path of a log, before it is opened or made.

ghost use Rattle.std.specs.Prelude.{◌<◌, ◌↔◌, IsTrue, length};

use crate::failure::Failure;
use crate::files::{is_missing, system_failure};
use crate::log_names::refuse_half;
use crate::log_reasons::{has_folder, refused};
use std::fs::{self, Metadata};
use std::hash::{BuildHasher, RandomState};
use std::os::unix::fs::MetadataExt;

/// The most bytes of the name of a log's file: SQLite's `-journal` stands behind it, and a name has 255 at most.
const NAME_LEN: usize = 247;

/// Whether the name of a file is too long for a log.
fn is_too_long(name: &str) -> bool
    ensures { IsTrue result ↔ (NAME_LEN < length name.now) }
{
    name.len() > NAME_LEN
}

/// Why a path names no file in which a log may lie, if so.
fn misnamed(path: &str) -> Option<&'static str> {
    if path.is_empty() || path == ":memory:" || path.starts_with("file:") {
        return Some("that is no path of a file");
    }
    let name = match path.rsplit_once('/') {
        Some((_folder, name)) => name,
        None => path,
    };
    if is_too_long(name) {
        return Some("its name is too long: a log's has 247 bytes at most");
    }
    None
}

/// Why no log can lie in what is there, if so.
fn misplaced(found: &Metadata) -> Option<&'static str> {
    if found.is_dir() {
        return Some("that is a folder");
    }
    if !found.is_file() {
        return Some("that is a pipe, a socket or a device, and no file");
    }
    if found.nlink() > 1 {
        return Some(
            "that file has another name too, a hard link: remove that one, since a journal lies \
            beside one name alone",
        );
    }
    None
}

/// Refuses a path at which no log can lie, by what is there. Nothing is opened for that.
pub(crate) fn check_place(rt: &HostRuntime, path: &str) -> Result<(), Failure> {
    let alloc = rt.alloc();
    if let Some(reason) = misnamed(path) {
        return Err(refused(alloc, path, reason)?);
    }
    let found = match fs::metadata(rt, path) {
        Ok(found) => found,
        Err(error) if is_missing(&error) && has_folder(rt, path) => return Ok(()),
        Err(error) if is_missing(&error) => return Err(refused(alloc, path, "no such folder")?),
        Err(error) => return Err(system_failure(alloc, path, &error)),
    };
    match misplaced(&found) {
        Some(reason) => Err(refused(alloc, path, reason)?),
        None => Ok(()),
    }
}

/// A path at which nothing was when it was looked at: no file, and no journal of one. Only that look gives it.
#[derive(Drop)]
pub(crate) struct Absent<'a> {
    path: &'a str,
}

impl<'a> Absent<'a> {
    /// Refuses a path at which a file is, or what is left of one.
    pub(crate) fn at(rt: &HostRuntime, path: &'a str) -> Result<Absent<'a>, Failure> {
        check_place(rt, path)?;
        refuse_half(rt, path)?;
        match fs::symlink_metadata(rt, path) {
            Ok(_) => Err(present(rt, path)),
            Err(error) if is_missing(&error) => Ok(Absent { path }),
            Err(error) => Err(system_failure(rt.alloc(), path, &error)),
        }
    }

    /// The path.
    pub(crate) fn path(&self) -> &'a str {
        self.path
    }
}

/// The refusal of a path at which there is a file.
pub(crate) fn present(rt: &HostRuntime, path: &str) -> Failure {
    match refused(
        rt.alloc(),
        path,
        "there is a file already: a log is made only where there is none",
    ) {
        Ok(failure) | Err(failure) => failure,
    }
}

/// A name in the folder of a path that no other call gives.
pub(crate) fn name_beside(rt: &HostRuntime, path: &str) -> Result<String, Failure> {
    let number = match RandomState::new(rt) {
        Ok(state) => state.hash_one(&0u8),
        Err(error) => return Err(system_failure(rt.alloc(), path, &error)),
    };
    let folder = match path.rsplit_once('/') {
        Some((folder, _name)) => folder,
        None => ".",
    };
    Ok(format!(in rt.alloc(); "{folder}/xatm-new-{number:016x}")?)
}
