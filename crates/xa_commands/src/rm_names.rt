//! How the names of resource managers that a log keeps are changed by hand. Their numbers stay: a
//! branch has the number in its identifier, and not the name.

ghost use Rattle.std.specs.Prelude.{◌≡◌, ◌≢◌, ◌++◌, ◌∷◌, ℕ, List, [], true, map, IfOk, IfNone, OnOk, Some, slice_get};
ghost use Rattle.std.specs.Borrow.{Bor};
ghost use Rattle.xa_restore.specs.Headings.{is_rm_name};
ghost use Rattle.xa_commands.specs.NameChanges.{names_changed, new_name, other_if};

use std::alloc::{AllocError, Global};
use xa_restore::is_rm_name;

/// The most resource managers of a service.
pub(crate) const MOST_RMS: usize = 64;

/// What is changed of the names.
#[derive(Clone, Copy)]
pub enum NameChange<'a> {
    /// One more resource manager has this name, after the others.
    Add(&'a str),
    /// The one of the first name has the second.
    Rename(&'a str, &'a str),
}

impl<'a> NameChange<'a> {
    /// The name that is new.
    pub(crate) fn new_name(&self) -> &'a str
        ensures { result.now ≡ new_name self.now }
    {
        match self {
            NameChange::Add(name) | NameChange::Rename(_, name) => name,
        }
    }

    /// The name that another one takes the place of, if one does.
    pub(crate) fn old_name(&self) -> &'a str {
        match self {
            NameChange::Add(_) => "",
            NameChange::Rename(name, _) => name,
        }
    }
}

/// Why names aren't changed.
#[derive(Clone, Copy, Debug, PartialEq, Eq)]
pub(crate) enum ChangeFault {
    /// The new name is none.
    NoName,
    /// There are no names.
    Unkept,
    /// The resource manager of this number has the new name already.
    Taken(usize),
    /// There are as many as there may be.
    Full,
    /// None has the old name.
    Unknown,
}

/// Which of these names is this one.
fn place_of(names: &[&str], name: &str) -> Option<usize>
    ensures none { IfNone result ((i : ℕ) (a : Bor (List ℕ)) →
        slice_get names.now i ≡ Some a → a.now ≢ name.now) }
{
    for place in 0..names.len() {
        if names[place] == name {
            return Some(place);
        }
    }
    None
}

/// Refuses a change.
pub(crate) fn check_change(names: &[&str], change: &NameChange<'_>) -> Result<(), ChangeFault>
    ensures right { OnOk result (is_rm_name (new_name change.now) ≡ true) }
    ensures free { OnOk result ((i : ℕ) (a : Bor (List ℕ)) →
        slice_get names.now i ≡ Some a → a.now ≢ new_name change.now) }
{
    if !is_rm_name(change.new_name()) {
        return Err(ChangeFault::NoName);
    }
    if names.is_empty() {
        return Err(ChangeFault::Unkept);
    }
    if let Some(place) = place_of(names, change.new_name()) {
        return Err(ChangeFault::Taken(place));
    }
    match change {
        NameChange::Add(_) if names.len() >= MOST_RMS => Err(ChangeFault::Full),
        NameChange::Rename(old, _) if place_of(names, old).is_none() => Err(ChangeFault::Unknown),
        _ => Ok(()),
    }
}

/// These names, of which the one is the other one now.
fn with_other<'a>(
    alloc: Global,
    names: &[&'a str],
    old: &str,
    new: &'a str,
) -> Result<Vec<&'a str>, AllocError>
    ensures { IfOk result (λ all. map (λ name. name.now) all.items
        ≡ map (other_if old.now new.now) (map (λ name. name.now) names.now)) }
{
    let mut all = Vec::new(alloc);
    for name in names {
        if *name == old {
            all.push(new)?;
        } else {
            all.push(*name)?;
        }
    }
    Ok(all)
}

/// These names, and one more.
fn with_one_more<'a>(
    alloc: Global,
    names: &[&'a str],
    name: &'a str,
) -> Result<Vec<&'a str>, AllocError>
    ensures { IfOk result (λ all. map (λ name. name.now) all.items
        ≡ map (λ name. name.now) names.now ++ name.now ∷ []) }
{
    let mut all = Vec::new(alloc);
    for name in names {
        all.push(*name)?;
    }
    all.push(name)?;
    Ok(all)
}

/// The names once they are changed.
pub(crate) fn names_changed<'a>(
    alloc: Global,
    names: &[&'a str],
    change: &NameChange<'a>,
) -> Result<Vec<&'a str>, AllocError>
    ensures { IfOk result (λ all. map (λ name. name.now) all.items
        ≡ names_changed change.now (map (λ name. name.now) names.now)) }
{
    match change {
        NameChange::Add(name) => with_one_more(alloc, names, name),
        NameChange::Rename(old, new) => with_other(alloc, names, old, new),
    }
}
