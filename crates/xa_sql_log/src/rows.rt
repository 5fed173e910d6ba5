//! All rows of a log.
ghost use Rattle.std.specs.Prelude.{◌≡◌, IfOk, IsSomeAnd, OnOk, Some, map, reverse, IfErr, ◌≢◌};
ghost use Rattle.std.specs.FinMap.{entries, from_entries, keys};
ghost use Rattle.sqlite.specs.Held.{state};
ghost use Rattle.sqlite.specs.State.{HasCleanDisk};
ghost use Rattle.xa_base.specs.Branch.{branch_cmp, gtrid_cmp};
ghost use Rattle.xa_log.specs.Content.{all_listed, unchanged};
ghost use Rattle.xa_log.specs.Contract.{Makes};
ghost use Rattle.xa_sql_log.specs.Rows.{branch_from, gtrid_from, heuristic_from};
ghost use Rattle.xa_log.specs.KeySet.{from_list, items};
ghost use Rattle.xa_sql_log.specs.Sql.{IsOrderly, OnlyReads, content_in};
ghost use Rattle.xa_log.specs.declared.log_fault.LogFault.{LogFault};

use crate::fields;
use crate::statements::ask;
use sqlite::{Alter, Connection, Row};
use std::collections::{BTreeMap, BTreeSet};
use xa_base::{Branch, Gtrid, How};
use xa_log::{LogFault, LogRows};

/// The transactions that rows name, in the order of their identifiers.
fn gtrids(rows: Vec<Row>) -> Result<Vec<Gtrid>, LogFault>
    ensures ok { IfOk result (λ list.
        list.items ≡ items (from_list {R = gtrid_cmp} (map gtrid_from rows.items))) }
    ensures unspent { IfErr result (λ fault. fault ≢ LogFault.Spent) }
{
    let alloc = *rows.allocator();
    let mut gtrids = BTreeSet::new(alloc);
    for row in &rows {
        gtrids.insert(fields::gtrid(row)?)?;
    }
    Ok(gtrids.into_iter().collect(alloc)?)
}

/// The branches that rows name, in the order of their identifiers.
fn branches(rows: Vec<Row>) -> Result<Vec<Branch>, LogFault>
    ensures ok { IfOk result (λ list.
        list.items ≡ items (from_list {R = branch_cmp} (map branch_from rows.items))) }
    ensures unspent { IfErr result (λ fault. fault ≢ LogFault.Spent) }
{
    let alloc = *rows.allocator();
    let mut branches = BTreeSet::new(alloc);
    for row in &rows {
        branches.insert(fields::branch(row)?)?;
    }
    Ok(branches.into_iter().collect(alloc)?)
}

/// The heuristic ends that rows record, in the order of the branches' identifiers. The last row of a branch counts.
fn ends(rows: Vec<Row>) -> Result<Vec<(Branch, How)>, LogFault>
    ensures ok { IfOk result (λ list. list.items ≡
        entries (from_entries {R = branch_cmp} (reverse (map heuristic_from rows.items)))) }
    ensures unspent { IfErr result (λ fault. fault ≢ LogFault.Spent) }
{
    let alloc = *rows.allocator();
    let mut ends = BTreeMap::new(alloc);
    for row in &rows {
        ends.insert(fields::branch(row)?, fields::how(row, 4)?)?;
    }
    Ok(ends.into_iter().collect(alloc)?)
}

fn all_decisions<S: Alter>(conn: &mut Connection<S>) -> Result<Vec<Gtrid>, LogFault>
    ensures reads { OnlyReads (state S.Store conn.old) (state S.Store conn.new) }
    ensures ok { IsOrderly (state S.Store conn.old) → HasCleanDisk (state S.Store conn.new) →
        IfOk result (λ list. IsSomeAnd (content_in (state S.Store conn.old)) (λ c.
        (content_in (state S.Store conn.new) ≡ Some c) × (list.items ≡ keys c.decisions))) }
    ensures unspent { IfErr result (λ fault. fault ≢ LogFault.Spent) }
{
    gtrids(ask(conn, "SELECT inc, seq FROM decision", &[])?)
}

fn all_participants<S: Alter>(conn: &mut Connection<S>) -> Result<Vec<Branch>, LogFault>
    ensures reads { OnlyReads (state S.Store conn.old) (state S.Store conn.new) }
    ensures ok { IsOrderly (state S.Store conn.old) → HasCleanDisk (state S.Store conn.new) →
        IfOk result (λ list. IsSomeAnd (content_in (state S.Store conn.old)) (λ c.
        (content_in (state S.Store conn.new) ≡ Some c)
        × (list.items ≡ all_listed (entries c.decisions)))) }
    ensures unspent { IfErr result (λ fault. fault ≢ LogFault.Spent) }
{
    branches(ask(conn, "SELECT inc, seq, thread, rm FROM participant", &[])?)
}

fn all_heuristics<S: Alter>(conn: &mut Connection<S>) -> Result<Vec<(Branch, How)>, LogFault>
    ensures reads { OnlyReads (state S.Store conn.old) (state S.Store conn.new) }
    ensures ok { IsOrderly (state S.Store conn.old) → HasCleanDisk (state S.Store conn.new) →
        IfOk result (λ list. IsSomeAnd (content_in (state S.Store conn.old)) (λ c.
        (content_in (state S.Store conn.new) ≡ Some c) × (list.items ≡ entries c.heuristics))) }
    ensures unspent { IfErr result (λ fault. fault ≢ LogFault.Spent) }
{
    ends(ask(conn, "SELECT inc, seq, thread, rm, how FROM heuristic", &[])?)
}

/// All rows.
pub(crate) fn rows<S: Alter>(conn: &mut Connection<S>) -> Result<LogRows, LogFault>
    ensures reads { OnlyReads (state S.Store conn.old) (state S.Store conn.new) }
    ensures kept { IsOrderly (state S.Store conn.old) → HasCleanDisk (state S.Store conn.new) →
        OnOk result (Makes unchanged
        (content_in (state S.Store conn.old)) (content_in (state S.Store conn.new))) }
    ensures decisions { IsOrderly (state S.Store conn.old) → HasCleanDisk (state S.Store conn.new) →
        IfOk result (λ rows. IsSomeAnd (content_in (state S.Store conn.old)) (λ c.
        rows.decisions.items ≡ keys c.decisions)) }
    ensures participants { IsOrderly (state S.Store conn.old)
        → HasCleanDisk (state S.Store conn.new) →
        IfOk result (λ rows. IsSomeAnd (content_in (state S.Store conn.old)) (λ c.
        rows.participants.items ≡ all_listed (entries c.decisions))) }
    ensures heuristics { IsOrderly (state S.Store conn.old)
        → HasCleanDisk (state S.Store conn.new) →
        IfOk result (λ rows. IsSomeAnd (content_in (state S.Store conn.old)) (λ c.
        rows.heuristics.items ≡ entries c.heuristics)) }
    ensures unspent { IfErr result (λ fault. fault ≢ LogFault.Spent) }
{
    let decisions = all_decisions(conn)?;
    let participants = all_participants(conn)?;
    let heuristics = all_heuristics(conn)?;
    Ok(LogRows {
        decisions,
        participants,
        heuristics,
    })
}
