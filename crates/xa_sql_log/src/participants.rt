//! The branches that a decision waits for.
ghost use Rattle.std.specs.Prelude.{map, ◌≡◌, ◌≢◌, Some, IsSomeAnd, IfOk, IfErr};
ghost use Rattle.sqlite.specs.State.{HasCleanDisk};
ghost use Rattle.sqlite.specs.Held.{state};
ghost use Rattle.xa_base.specs.Branch.{branch_cmp};
ghost use Rattle.xa_log.specs.Contract.{FitsRow};
ghost use Rattle.xa_log.specs.Content.{participants_of};
ghost use Rattle.xa_log.specs.KeySet.{from_list, items};
ghost use Rattle.xa_sql_log.specs.Rows.{participant_from};
ghost use Rattle.xa_sql_log.specs.Sql.{IsOrderly, content_in, OnlyReads};
ghost use Rattle.xa_log.specs.declared.log_fault.LogFault.{LogFault};

use crate::fields;
use crate::statements::{ask, stored};
use sqlite::{Alter, Connection, Row, params};
use std::collections::BTreeSet;
use xa_base::{Branch, Gtrid};
use xa_log::LogFault;

/// The branches of a transaction that rows name, in the order of their identifiers.
fn listed(g: Gtrid, rows: Vec<Row>) -> Result<Vec<Branch>, LogFault>
    ensures ok { IfOk result (λ list.
        list.items ≡ items (from_list {R = branch_cmp} (map (participant_from g) rows.items))) }
    ensures unspent { IfErr result (λ fault. fault ≢ LogFault.Spent) }
{
    let alloc = *rows.allocator();
    let mut branches = BTreeSet::new(alloc);
    for row in &rows {
        branches.insert(fields::participant(g, row)?)?;
    }
    Ok(branches.into_iter().collect(alloc)?)
}

/// The branches whose xa_commit a transaction waits for, in the order of their identifiers.
pub(crate) fn participants<S: Alter>(
    conn: &mut Connection<S>,
    g: Gtrid,
) -> Result<Vec<Branch>, LogFault>
    requires { FitsRow g }
    ensures reads { OnlyReads (state S.Store conn.old) (state S.Store conn.new) }
    ensures ok { IsOrderly (state S.Store conn.old) → HasCleanDisk (state S.Store conn.new) →
        IfOk result (λ list. IsSomeAnd (content_in (state S.Store conn.old)) (λ c.
        (content_in (state S.Store conn.new) ≡ Some c)
        × (list.items ≡ items (participants_of c g)))) }
    ensures unspent { IfErr result (λ fault. fault ≢ LogFault.Spent) }
{
    let rows = ask(
        conn,
        "SELECT thread, rm FROM participant WHERE inc = ?1 AND seq = ?2",
        params![stored(g.incarnation), stored(g.sequence)],
    )?;
    listed(g, rows)
}
