//! All that a decision log holds, but for its incarnation, and whether a manager can start over it.

ghost use Rattle.std.specs.Prelude.{◌≡◌, map};
ghost use Rattle.std.specs.List.{list_all};
ghost use Rattle.xa_base.specs.Branch.{branch_cmp, gtrid_cmp};
ghost use Rattle.xa_base.specs.declared.branch.Branch.{Branch as Named};
ghost use Rattle.xa_base.specs.declared.code.How.{How as End};
ghost use Rattle.xa_log.specs.Starting.{are_ascending, are_old, ascends, can_start, fits_before, is_behind};

use std::cmp::Ordering;
use xa_base::{Branch, Gtrid, How, LAST_NUMBER};

/// The rows of a decision log, each list in the order of the identifiers (`xa_base`'s law `branches_in_order`).
#[derive(Drop)]
pub struct LogRows {
    /// The transactions that are decided to commit.
    pub decisions: Vec<Gtrid>,
    /// The branches whose xa_commit these transactions wait for.
    pub participants: Vec<Branch>,
    /// The branches that are recorded as heuristic, and how each ended.
    pub heuristics: Vec<(Branch, How)>,
}

impl LogRows {
    /// Whether a manager can start over these rows and records in an incarnation: all are of earlier incarnations, their
    /// numbers fit, and they stand in ascending order, none twice.
    pub fn can_start(&self, incarnation: u64) -> bool
        ensures { result ≡ can_start incarnation
            self.now.decisions.items self.now.heuristics.items }
    {
        self.are_old(incarnation) && self.are_ascending()
    }

    /// Whether all rows and records are of earlier incarnations, and their numbers fit.
    fn are_old(&self, incarnation: u64) -> bool
        ensures { result ≡ are_old incarnation
            self.now.decisions.items self.now.heuristics.items }
    {
        are_rows_old(self.decisions.as_slice(), incarnation)
            && are_records_old(self.heuristics.as_slice(), incarnation)
    }

    /// Whether the rows and the records stand in ascending order, none twice.
    fn are_ascending(&self) -> bool
        ensures { result ≡ are_ascending self.now.decisions.items self.now.heuristics.items }
    {
        do_gtrids_ascend(self.decisions.as_slice()) && do_ends_ascend(self.heuristics.as_slice())
    }
}

/// Whether all these transactions are of earlier incarnations, and their numbers fit.
fn are_rows_old(decisions: &[Gtrid], incarnation: u64) -> bool
    ensures { result ≡ list_all (fits_before incarnation) decisions.now }
{
    decisions.iter().all(|g| is_old(*g, incarnation))
}

/// The same of the branches with these ends.
fn are_records_old(ends: &[(Branch, How)], incarnation: u64) -> bool
    ensures { result ≡ list_all (λ (e : Named × End). fits_before incarnation e.0.gtrid) ends.now }
{
    ends.iter().all(|(b, _)| is_old(b.gtrid, incarnation))
}

/// Whether a transaction is of an earlier incarnation, and its numbers fit.
fn is_old(g: Gtrid, incarnation: u64) -> bool
    ensures { result ≡ fits_before incarnation g }
{
    g.incarnation < incarnation && g.sequence <= LAST_NUMBER
}

/// Whether a transaction stands behind another, if there is one.
fn is_gtrid_behind(last: Option<Gtrid>, g: Gtrid) -> bool
    ensures { result ≡ is_behind gtrid_cmp last g }
{
    match last {
        Some(last) => matches!(last.cmp(&g), Ordering::Less),
        None => true,
    }
}

/// Whether a branch stands behind another, if there is one.
fn is_branch_behind(last: Option<Branch>, b: Branch) -> bool
    ensures { result ≡ is_behind branch_cmp last b }
{
    match last {
        Some(last) => matches!(last.cmp(&b), Ordering::Less),
        None => true,
    }
}

/// Whether these transactions stand in ascending order.
fn do_gtrids_ascend(decisions: &[Gtrid]) -> bool
    ensures { result ≡ ascends gtrid_cmp decisions.now }
{
    let mut last = None;
    for g in decisions {
        if !is_gtrid_behind(last, *g) {
            return false;
        }
        last = Some(*g);
    }
    true
}

/// Whether the branches with these ends stand in ascending order.
fn do_ends_ascend(ends: &[(Branch, How)]) -> bool
    ensures { result ≡ ascends branch_cmp (map (λ (e : Named × End). e.0) ends.now) }
{
    let mut last = None;
    for end in ends {
        if !is_branch_behind(last, end.0) {
            return false;
        }
        last = Some(end.0);
    }
    true
}
