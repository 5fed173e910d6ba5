//! Whose log it is. Its label has the name of its manager, which is empty where that has none, and behind it those of its
//! resource managers, from number 0.

ghost use Rattle.std.specs.Prelude.{◌≡◌, ◌≢◌, ◌<◌, ◌++◌, ℕ, List, [], false, length, map, option_map, IfErr, IfOk, OnOk, Some, slice_get};
ghost use Rattle.std.specs.Borrow.{Bor};
ghost use Rattle.std.specs.String.{string_bytes};
ghost use Rattle.xa_commands.specs.Names.{MayName, MayOpen, label_of, name_given, label_names, spaced};

use crate::failure::Failure;
use crate::log_reasons::opening_failure;
use std::alloc::{AllocError, Global};
use std::io::Write;
use xa_files::RunFault;
use xa_names::{ManagerName, NameFault, check_names, line_renamed};
use xa_restore::is_rm_name;
use xa_sql_log::SqlLog;

/// The name that a manager is given.
pub(crate) fn manager_named(text: Option<&str>) -> Result<ManagerName, Failure>
    ensures { result ≡ name_given (option_map (λ text. text.now) text.entry) }
{
    let Some(text) = text else {
        return Ok(ManagerName::none());
    };
    match ManagerName::of_text(text) {
        Some(name) => Ok(name),
        None => Err(Failure::Name),
    }
}

/// Whether the name at a place stands before it too.
fn stands_before(names: &[&str], place: usize) -> bool
    requires { place < length names.now }
    ensures { result ≡ false → (i : ℕ) → (a b : Bor (List ℕ)) → i < place →
        slice_get names.now i ≡ Some a → slice_get names.now place ≡ Some b → a.now ≢ b.now }
{
    for earlier in 0..place {
        if names[earlier] == names[place] {
            return true;
        }
    }
    false
}

/// Refuses names of resource managers of which one isn't a name, or comes twice, or of which there are more or fewer than
/// resource managers. There may be none.
pub(crate) fn check_rm_names(names: &[&str], rms: u32) -> Result<(), Failure>
    ensures names { OnOk result (MayName rms names.now) }
    ensures fault { IfErr result (λ failure. failure ≡ Failure.RmNames) }
{
    if names.is_empty() {
        return Ok(());
    }
    for place in 0..names.len() {
        if !is_rm_name(names[place]) || stands_before(names, place) {
            return Err(Failure::RmNames);
        }
    }
    if names.len() == rms as usize {
        Ok(())
    } else {
        Err(Failure::RmNames)
    }
}

/// Refuses a log of which only a part is there.
pub(crate) fn refuse_half(rt: &HostRuntime, path: &str) -> Result<(), Failure> {
    match SqlLog::is_half(rt, path) {
        Ok(true) => Err(half(rt.alloc(), path)),
        Ok(false) => Ok(()),
        Err(fault) => Err(opening_failure(rt, path, fault)),
    }
}

/// The failure of a log of which only a part is there.
pub(crate) fn half(alloc: Global, path: &str) -> Failure {
    let told = format!(in alloc;
        "{path}: the file is missing or empty, and {path}-wal is what is left of it: put the \
        file back, since a new log would roll back what is decided"
    );
    match told {
        Ok(text) => Failure::Half(text),
        Err(error) => Failure::from(error),
    }
}

/// Why a log of these names is refused to others.
pub(crate) fn refusal(
    alloc: Global,
    path: &str,
    fault: NameFault,
    kept: &str,
    given: &str,
) -> Result<Failure, Failure> {
    let kept = label_names(alloc, kept)?;
    let given = label_names(alloc, given)?;
    let text = match fault {
        NameFault::Manager => format!(in alloc;
            "{path}: it is that of {}, not of {}",
            manager_told(alloc, &kept)?.as_str(),
            manager_told(alloc, &given)?.as_str()
        )?,
        NameFault::ResourceManager(number) => format!(in alloc;
            "{path}: its resource manager {number} is {}, not {}",
            name_at(&kept, number),
            name_at(&given, number)
        )?,
        NameFault::Unnamed => format!(in alloc;
            "{path}: it keeps names of resource managers, and --rm gives none"
        )?,
        NameFault::Unkept => format!(in alloc;
            "{path}: it keeps no names of resource managers, and --rm gives some"
        )?,
    };
    Ok(Failure::Refused(text))
}

/// Whose the first of some names is.
fn manager_told(alloc: Global, names: &[&str]) -> Result<String, Failure> {
    let name = names.first().copied().unwrap_or("");
    Ok(if name.is_empty() {
        String::from_str(alloc, "a manager without a name")?
    } else {
        format!(in alloc; "the manager {name}")?
    })
}

/// The name of a resource manager, by its number, behind that of the manager.
fn name_at<'a>(names: &[&'a str], number: usize) -> &'a str {
    names.iter().skip(1).nth(number).copied().unwrap_or("")
}

/// The names in a label.
pub(crate) fn label_names(alloc: Global, label: &str) -> Result<Vec<&str>, AllocError>
    ensures { IfOk result (λ names. map (λ name. name.now) names.items ≡ label_names label.now) }
{
    label.split(' ').collect(alloc)
}

/// Whether a log with this label may be opened by whoever has the other one, and why not.
pub(crate) fn verdict(
    alloc: Global,
    kept: &str,
    given: &str,
) -> Result<Result<(), NameFault>, AllocError>
    ensures opened { IfOk result (λ verdict. OnOk verdict (MayOpen kept.now given.now)) }
    ensures refused { IfOk result (λ verdict.
        IfErr verdict (λ _. MayOpen kept.now given.now → ⊥)) }
{
    let kept = label_names(alloc, kept)?;
    let given = label_names(alloc, given)?;
    Ok(check_names(&kept, &given))
}

/// Adds each word behind a space.
pub(crate) fn push_words(text: &mut String, words: &[&str]) -> Result<(), AllocError>
    ensures { OnOk result (string_bytes text.new ≡
        string_bytes text.old ++ spaced (map (λ word. word.now) words.now)) }
{
    for word in words {
        text.push_str(" ")?;
        text.push_str(word)?;
    }
    Ok(())
}

/// The name as text.
pub(crate) fn name_text(alloc: Global, name: &ManagerName) -> Result<String, AllocError>
    ensures { IfOk result (λ text. string_bytes text ≡ name.now) }
{
    String::from_utf8_lossy(alloc, name.as_slice())
}

/// The label of a log of these names.
pub(crate) fn label_of(
    alloc: Global,
    name: &ManagerName,
    rms: &[&str],
) -> Result<String, AllocError>
    ensures { IfOk result (λ text.
        string_bytes text ≡ label_of name.now (map (λ rm. rm.now) rms.now)) }
{
    let mut label = name_text(alloc, name)?;
    push_words(&mut label, rms)?;
    Ok(label)
}

/// Writes a text.
fn write_all<W: Write>(out: &mut W, text: &str) -> Result<(), Failure> {
    match out.write_all(text.as_bytes()) {
        Ok(()) => Ok(()),
        Err(error) => Err(Failure::Run(RunFault::Output).caused_by(&error)),
    }
}

/// The name of the manager in a label.
pub(crate) fn manager_in(label: &str) -> ManagerName {
    label
        .split(' ')
        .next()
        .and_then(|word| ManagerName::of_text(word))
        .unwrap_or(ManagerName::none())
}

/// Prints the names that a log keeps, and then this text about it, in which identifiers are as that manager gives them out. Of a
/// log without names it prints the text as it is.
pub(crate) fn print_named<W: Write>(
    alloc: Global,
    label: &str,
    text: &str,
    out: &mut W,
) -> Result<(), Failure> {
    let names: Vec<&str> = label.split(' ').collect(alloc)?;
    let name = manager_in(label);
    let mut all = String::new(alloc);
    for (at, word) in names.iter().enumerate() {
        let line = match at {
            0 if word.is_empty() => continue,
            0 => format!(in alloc; "name {word}\n")?,
            _ => format!(in alloc; "rm {} {word}\n", at - 1)?,
        };
        all.push_str(line.as_str())?;
    }
    for line in text.lines() {
        all.push_str(line_renamed(alloc, &name, line)?.as_str())?;
        all.push_str("\n")?;
    }
    write_all(out, all.as_str())
}
