//! The names that the lines of a log begin with.

ghost use Rattle.std.specs.Prelude.{◌≡◌, ◌≤◌, true, length, map, IfErr, IfOk, IfSome, take};
ghost use Rattle.std.specs.List.{AllByRecursion};
ghost use Rattle.xa_names.specs.Names.{is_manager_name};
ghost use Rattle.xa_restore.specs.Headings.{AreApart, IsFaultBehind, IsHeadingOf, IsWrongLine, is_rm_name, name_line, rm_line, rm_lines};

use crate::faults::{LineFault, RestoreFault};
use crate::spelling::is_written;
use std::alloc::Global;
use xa_base::Memory;
use xa_names::ManagerName;

/// The most letters of the name of a resource manager.
const RM_NAME_LEN: usize = 64;

/// Whether a text may be the name of a resource manager: 1 to 64 letters, digits, `_` and `-`.
pub fn is_rm_name(text: &str) -> bool
    ensures { result ≡ is_rm_name text.now }
{
    !text.is_empty() && text.len() <= RM_NAME_LEN && ManagerName::has_letters(text)
}

/// The name of the manager, which is empty where it has none, and those of its resource managers, from number 0.
#[derive(Drop)]
pub struct Heading<'a> {
    pub name: ManagerName,
    pub rms: Vec<&'a str>,
}

/// The name of the manager in the line that gives it, where this is one.
fn read_name(line: &str) -> Result<Option<ManagerName>, LineFault>
    ensures line { IfOk result (λ name. IfSome name (λ name. line.now ≡ name_line name)) }
    ensures named { IfOk result (λ name. IfSome name (λ name. is_manager_name name ≡ true)) }
    ensures fault { IfErr result (λ fault. IsWrongLine fault line.now) }
{
    let Some(word) = line.strip_prefix("name ") else {
        return Ok(None);
    };
    match ManagerName::of_text(word) {
        Some(name) => Ok(Some(name)),
        None => Err(LineFault::Name),
    }
}

/// The name of the resource manager of a number in the line that gives it.
fn read_rm<'a>(alloc: Global, number: usize, line: &'a str) -> Result<Option<&'a str>, Memory>
    ensures named { IfOk result (λ rm. IfSome rm (λ rm. is_rm_name rm.now ≡ true)) }
    ensures line { IfOk result (λ rm. IfSome rm (λ rm. line.now ≡ rm_line number rm.now)) }
{
    let Some((_front, rm)) = line.rsplit_once(' ') else {
        return Ok(None);
    };
    if !is_rm_name(rm) {
        return Ok(None);
    }
    let written = format!(in alloc; "rm {number} {rm}")?;
    if is_written(line, &written) {
        Ok(Some(rm))
    } else {
        Ok(None)
    }
}

/// The names of the resource managers in the first lines, of which the first has this number.
fn read_rms<'a>(
    alloc: Global,
    lines: &[&'a str],
    first: usize,
) -> Result<Vec<&'a str>, RestoreFault>
    requires { first ≤ 2 }
    ensures lines { IfOk result (λ rms. map (λ line. line.now) (take (length rms.items) lines.now)
        ≡ rm_lines (map (λ rm. rm.now) rms.items)) }
    ensures names { IfOk result (λ rms. AllByRecursion (λ rm. is_rm_name rm.now ≡ true) rms.items) }
    ensures apart { IfOk result (λ rms. AreApart rms.items) }
    ensures fault { IfErr result (IsFaultBehind first (map (λ line. line.now) lines.now)) }
{
    let mut rms: Vec<&'a str> = Vec::new(alloc);
    for (at, line) in lines.iter().enumerate() {
        if !line.starts_with("rm ") {
            break;
        }
        match read_rm(alloc, at, line)? {
            Some(rm) if !rms.contains(&rm) => rms.push(rm)?,
            _ => return Err(RestoreFault::Line(at + first, LineFault::Rm)),
        }
    }
    Ok(rms)
}

/// Reads the names that the lines of a log begin with, as `xatm log` prints them: `name shop-1`, where the manager has a name,
/// and `rm 0 bank`, a line for each resource manager that has one, from number 0. Behind them stand the other lines of the
/// log, which [`read_log`](crate::read_log) reads.
pub fn read_heading<'a>(alloc: Global, lines: &[&'a str]) -> Result<Heading<'a>, RestoreFault>
    ensures lines { IfOk result (λ h. IsHeadingOf h.name (map (λ rm. rm.now) h.rms.items)
        (map (λ line. line.now) lines.now)) }
    ensures names { IfOk result (λ h.
        AllByRecursion (λ rm. is_rm_name rm.now ≡ true) h.rms.items) }
    ensures apart { IfOk result (λ h. AreApart h.rms.items) }
    ensures fault { IfErr result (IsFaultBehind 1 (map (λ line. line.now) lines.now)) }
{
    let [first, rest @ ..] = lines else {
        return Ok(Heading {
            name: ManagerName::none(),
            rms: Vec::new(alloc),
        });
    };
    match read_name(first) {
        Ok(Some(name)) => {
            let rms = read_rms(alloc, rest, 2)?;
            Ok(Heading { name, rms })
        }
        Ok(None) => {
            let rms = read_rms(alloc, lines, 1)?;
            Ok(Heading {
                name: ManagerName::none(),
                rms,
            })
        }
        Err(fault) => Err(RestoreFault::Line(1, fault)),
    }
}

impl Heading<'_> {
    ghost use Rattle.std.specs.Prelude.{◌≡◌, ◌+◌, length};
    ghost use Rattle.xa_restore.specs.Headings.{name_lines};

    /// How many lines it takes.
    pub fn line_count(&self) -> usize
        ensures { result ≡ length (name_lines self.now.name) + length self.now.rms.items }
    {
        if self.name.as_slice().is_empty() {
            self.rms.len()
        } else {
            self.rms.len() + 1
        }
    }
}
