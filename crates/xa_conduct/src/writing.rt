//! What a driver is told.

ghost use Rattle.std.specs.List.{flat_map, list_any};
ghost use Rattle.std.specs.Prelude.{◌≡◌, ◌++◌, codes, OnOk, string_bytes};
ghost use Rattle.xa_conduct.specs.Texts.{asked_number, calls_text, ended_alone_text, is_against, is_mixed};
ghost use Rattle.xa_conduct.specs.Texts.{mixed_text, next_text, owed_branches_text, spaced_number, standing_with_reason};
ghost use Rattle.xa_conduct.specs.Texts.{told_text, why_text};

use crate::part::Part;
use crate::transaction::{Standing, Transaction};
use std::alloc::Global;
use xa_base::{Gtrid, How, Memory, RbCode};

/// Adds a number.
#[tactic(auto, using(xa_files::proofs::Pieces::four_pieces))]
fn add_number(text: &mut String, alloc: Global, number: u32) -> Result<(), Memory>
    ensures { OnOk result (string_bytes text.new ≡ string_bytes text.old ++ spaced_number number) }
{
    let word = format!(in alloc; " {number}")?;
    text.push_str(word.as_str())?;
    Ok(())
}

/// Adds the calls that are to be made next. They have one verb: calls of two kinds never wait at a time.
fn add_calls(text: &mut String, alloc: Global, transaction: &Transaction) -> Result<(), Memory>
    ensures { OnOk result
        (string_bytes text.new ≡ string_bytes text.old ++ calls_text transaction.now.parts.items) }
{
    text.push_str(transaction.first_verb())?;
    add_asked(text, alloc, transaction)?;
    Ok(())
}

/// Adds the resource managers of the branches that were told a call.
fn add_asked(text: &mut String, alloc: Global, transaction: &Transaction) -> Result<(), Memory>
    ensures { OnOk result (string_bytes text.new
        ≡ string_bytes text.old ++ flat_map asked_number transaction.now.parts.items) }
{
    for part in transaction.parts.as_slice() {
        if part.place.is_asked() {
            add_number(text, alloc, part.rm)?;
        }
    }
    Ok(())
}

/// Adds how it stands.
fn add_standing(text: &mut String, alloc: Global, standing: Standing) -> Result<(), Memory>
    ensures { OnOk result
        (string_bytes text.new ≡ string_bytes text.old ++ standing_with_reason standing) }
{
    match standing {
        Standing::Idle | Standing::Open | Standing::Ready => {
            text.push_str("joined")?;
            Ok(())
        }
        Standing::Committed => {
            text.push_str("committed")?;
            Ok(())
        }
        Standing::RolledBack(why) => {
            text.push_str("rolled-back")?;
            add_why(text, alloc, why)?;
            Ok(())
        }
        Standing::Unknown => {
            text.push_str("unknown")?;
            Ok(())
        }
    }
}

/// Adds why it was rolled back and at which resource manager, if a branch is the reason.
#[tactic(auto, using(xa_files::proofs::Pieces::four_pieces))]
fn add_why(text: &mut String, alloc: Global, why: Option<(RbCode, u32)>) -> Result<(), Memory>
    ensures { OnOk result (string_bytes text.new ≡ string_bytes text.old ++ why_text why) }
{
    let Some((code, rm)) = why else {
        return Ok(());
    };
    let number = code.number();
    let word = format!(in alloc; " {number} {rm}")?;
    text.push_str(word.as_str())?;
    Ok(())
}

/// Whether to end by itself so is against how the transaction stands.
fn is_against(how: How, standing: Standing) -> bool
    ensures { result ≡ is_against standing how }
{
    match (how, standing) {
        (How::Com, Standing::Committed) | (How::Rb, Standing::RolledBack(_)) => false,
        _ => true,
    }
}

/// Whether a branch ended by itself against how the transaction stands.
fn is_mixed(part: &Part, standing: Standing) -> bool
    ensures { result ≡ is_mixed standing part.now }
{
    match part.alone {
        Some(how) => is_against(how, standing),
        None => false,
    }
}

/// Whether one of the branches did.
fn has_mixed(transaction: &Transaction) -> bool
    ensures { result ≡ list_any (is_mixed transaction.now.standing) transaction.now.parts.items }
{
    transaction
        .parts
        .iter()
        .any(|part| is_mixed(part, transaction.standing))
}

/// Adds the branches whose end is left to the recovery.
fn add_owed(text: &mut String, alloc: Global, transaction: &Transaction) -> Result<(), Memory>
    ensures { OnOk result
        (string_bytes text.new ≡ string_bytes text.old ++ owed_branches_text transaction.now) }
{
    if !transaction.has_left() {
        return Ok(());
    }
    text.push_str(" owed")?;
    for part in transaction.parts.as_slice() {
        if part.is_owed() {
            add_number(text, alloc, part.rm)?;
        }
    }
    Ok(())
}

/// Adds the branches that ended otherwise than was decided.
fn add_mixed(text: &mut String, alloc: Global, transaction: &Transaction) -> Result<(), Memory>
    ensures { OnOk result
        (string_bytes text.new ≡ string_bytes text.old ++ mixed_text transaction.now) }
{
    if !has_mixed(transaction) {
        return Ok(());
    }
    text.push_str(" mixed")?;
    for part in transaction.parts.as_slice() {
        if is_mixed(part, transaction.standing) {
            add_end(text, alloc, part)?;
        }
    }
    Ok(())
}

/// Adds the resource manager of a branch that ended by itself, and how it did.
#[tactic(auto, using(xa_files::proofs::Pieces::four_pieces))]
fn add_end(text: &mut String, alloc: Global, part: &Part) -> Result<(), Memory>
    ensures { OnOk result
        (string_bytes text.new ≡ string_bytes text.old ++ ended_alone_text part.now.rm part.now.alone) }
{
    let Some(how) = part.alone else {
        return Ok(());
    };
    let number = how.number();
    let rm = part.rm;
    let word = format!(in alloc; " {rm} {number}")?;
    text.push_str(word.as_str())?;
    Ok(())
}

/// Adds the name of the thread's next transaction.
pub(crate) fn add_next(text: &mut String, alloc: Global, gtrid: Gtrid) -> Result<(), Memory>
    ensures { OnOk result (string_bytes text.new ≡ string_bytes text.old ++ next_text gtrid) }
{
    let name = gtrid.text(alloc)?;
    text.push_str(" next ")?;
    text.push_str(name.as_str())?;
    Ok(())
}

/// Adds what the driver of a thread is told: the calls that are to be made next; or, if it is over, the outcome.
pub(crate) fn add_told(
    text: &mut String,
    alloc: Global,
    transaction: &Transaction,
) -> Result<(), Memory>
    ensures { OnOk result
        (string_bytes text.new ≡ string_bytes text.old ++ told_text transaction.now) }
{
    if transaction.is_asked() {
        add_calls(text, alloc, transaction)?;
        return Ok(());
    }
    add_standing(text, alloc, transaction.standing)?;
    if transaction.has_outcome() {
        add_owed(text, alloc, transaction)?;
        add_mixed(text, alloc, transaction)?;
    }
    Ok(())
}
