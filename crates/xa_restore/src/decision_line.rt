//! The line of a decision.

ghost use Rattle.std.specs.Prelude.{◌≡◌, ◌++◌, ◌↔◌, All, IfOk, IfSome, IsSomeAnd, IsTrue, List, OnOk, Some, false, map};
ghost use Rattle.std.specs.List.{AllByRecursion};
ghost use Rattle.std.specs.String.{string_bytes};
ghost use Rattle.xa_base.specs.Branch.{IsBranch, branch_eq, gtrid_text};
ghost use Rattle.xa_base.specs.declared.branch.Branch.{Branch};
ghost use Rattle.xa_base.specs.declared.branch.Gtrid.{Gtrid};
ghost use Rattle.xa_log.specs.Contract.{FitsRow};
ghost use Rattle.xa_log.specs.declared.decision.Decision.{Decision};
ghost use Rattle.xa_restore.specs.LogLines.{AreBranchesOf, AreOnce, IsRow, OwnsBranches, branch_xid_text, branch_word, branch_words, decision_row_line, decision_words, stated};

use crate::spelling::is_written;
use std::alloc::Global;
use xa_base::{Branch, Gtrid, LAST_NUMBER, Memory, OWN_FORMAT, Xid};
use xa_log::Decision;

/// The identifier of a branch, behind a space.
fn branch_word(alloc: Global, branch: &Branch) -> Result<String, Memory>
    ensures { IfOk result (λ word. string_bytes word ≡ branch_word branch.now) }
{
    let text = branch.xid().text(alloc)?;
    Ok(format!(in alloc; " {text}")?)
}

/// Adds the identifiers of branches.
fn push_branches(line: &mut String, alloc: Global, branches: &[Branch]) -> Result<(), Memory>
    ensures { OnOk result (string_bytes line.new
        ≡ string_bytes line.old ++ branch_words branches.now) }
{
    for branch in branches {
        let word = branch_word(alloc, branch)?;
        line.push_str(word.as_str())?;
    }
    Ok(())
}

/// The line of a decision.
fn decision_line(alloc: Global, decision: &Decision) -> Result<String, Memory>
    ensures { IfOk result (λ line. string_bytes line ≡ decision_row_line decision.now) }
{
    let name = decision.gtrid.text(alloc)?;
    let mut line = format!(in alloc; "{name} {}", decision.participants.len())?;
    push_branches(&mut line, alloc, &decision.participants)?;
    Ok(line)
}

/// The branch that a word names by its identifier.
fn branch_named(word: &str) -> Option<Branch>
    ensures found { (b : Branch) → IsBranch b → word.now ≡ branch_xid_text b → result ≡ Some b }
{
    Xid::parse(word).ok()?.branch()
}

/// The transaction that a word names by its digits: that of the branch whose identifier has these.
fn gtrid_named(alloc: Global, word: &str) -> Result<Option<Gtrid>, Memory>
    ensures found { (g : Gtrid) → FitsRow g → word.now ≡ gtrid_text g →
        IfOk result (λ found. found ≡ Some g) }
{
    let text = format!(in alloc; "{}:{word}:0000000000000000", OWN_FORMAT)?;
    match branch_named(text.as_str()) {
        Some(branch) => Ok(Some(branch.gtrid)),
        None => Ok(None),
    }
}

/// The branch of the transaction that a word names, if it is none of those before it.
fn own_branch(gtrid: Gtrid, word: &str, earlier: &[Branch]) -> Option<Branch>
    ensures own { IfSome result (λ b. b.gtrid ≡ gtrid) }
    ensures once { IfSome result (λ b. All (λ c. branch_eq c b ≡ false) earlier.now) }
    ensures found { (b : Branch) → IsBranch b → b.gtrid ≡ gtrid →
        All (λ c. branch_eq c b ≡ false) earlier.now →
        word.now ≡ branch_xid_text b → result ≡ Some b }
{
    let branch = branch_named(word)?;
    if branch.gtrid != gtrid || earlier.contains(&branch) {
        return None;
    }
    Some(branch)
}

/// The branches that words name, where each is another one of the transaction.
fn own_branches(alloc: Global, gtrid: Gtrid, words: &[&str]) -> Result<Option<Vec<Branch>>, Memory>
    ensures own { IfOk result (λ branches. IfSome branches (λ branches.
        AllByRecursion (λ b. b.gtrid ≡ gtrid) branches.items)) }
    ensures once { IfOk result (λ branches. IfSome branches (λ branches. AreOnce branches.items)) }
    ensures found { (bs : List Branch) → AreBranchesOf gtrid bs →
        map (λ word. word.now) words.now ≡ map branch_xid_text bs →
        IfOk result (λ found. IsSomeAnd found (λ branches. branches.items ≡ bs)) }
{
    let mut branches = Vec::with_capacity(alloc, words.len())?;
    for word in words {
        let Some(branch) = own_branch(gtrid, word, &branches) else {
            return Ok(None);
        };
        branches.push(branch)?;
    }
    Ok(Some(branches))
}

/// What words say of a transaction and its participants, if they do.
fn decision_in(alloc: Global, words: &[&str]) -> Result<Option<Decision>, Memory>
    ensures own { IfOk result (λ decision. IfSome decision OwnsBranches) }
    ensures once { IfOk result (λ decision. IfSome decision (λ d. AreOnce d.participants.items)) }
    ensures found { (d : Decision) → IsRow d →
        map (λ word. word.now) words.now ≡ decision_words d →
        IfOk result (λ found. IsSomeAnd found (λ e. stated e ≡ stated d)) }
{
    let [gtrid, _count, branches @ ..] = words else {
        return Ok(None);
    };
    let Some(gtrid) = gtrid_named(alloc, gtrid)? else {
        return Ok(None);
    };
    Ok(match own_branches(alloc, gtrid, branches)? {
        Some(participants) => Some(Decision {
            gtrid,
            participants,
        }),
        None => None,
    })
}

/// What a line says of a transaction and its participants, if it does.
fn decision_in_line(alloc: Global, line: &str) -> Result<Option<Decision>, Memory>
    ensures own { IfOk result (λ decision. IfSome decision OwnsBranches) }
    ensures once { IfOk result (λ decision. IfSome decision (λ d. AreOnce d.participants.items)) }
    ensures found { (d : Decision) → IsRow d → line.now ≡ decision_row_line d →
        IfOk result (λ found. IsSomeAnd found (λ e. stated e ≡ stated d)) }
{
    let words: Vec<&str> = line.split(' ').collect(alloc)?;
    decision_in(alloc, &words)
}

/// Whether the numbers of a transaction fit into a row.
fn fits_row(gtrid: Gtrid) -> bool
    ensures { IsTrue result ↔ FitsRow gtrid }
{
    gtrid.incarnation <= LAST_NUMBER && gtrid.sequence <= LAST_NUMBER
}

/// The decision of which this is the line, if it is one whose numbers fit into a row.
///
/// What the words say is written again, and has to be that line: so each decision has one line.
pub(crate) fn read_decision(alloc: Global, line: &str) -> Result<Option<Decision>, Memory>
    ensures line { IfOk result (λ decision. IfSome decision (λ d. line.now ≡ decision_row_line d)) }
    ensures own { IfOk result (λ decision. IfSome decision OwnsBranches) }
    ensures once { IfOk result (λ decision. IfSome decision (λ d. AreOnce d.participants.items)) }
    ensures fits { IfOk result (λ decision. IfSome decision (λ d. FitsRow d.gtrid)) }
    ensures found { (d : Decision) → IsRow d → line.now ≡ decision_row_line d →
        IfOk result (λ found. IsSomeAnd found (λ e. stated e ≡ stated d)) }
{
    let Some(decision) = decision_in_line(alloc, line)? else {
        return Ok(None);
    };
    if !fits_row(decision.gtrid) {
        return Ok(None);
    }
    let written = decision_line(alloc, &decision)?;
    if is_written(line, &written) {
        Ok(Some(decision))
    } else {
        Ok(None)
    }
}
