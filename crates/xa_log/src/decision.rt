//! A decision to commit.
use xa_base::{Branch, Gtrid};

/// A transaction that is to commit, and the branches whose xa_commit it then waits for.
#[derive(Drop)]
pub struct Decision {
    pub gtrid: Gtrid,
    pub participants: Vec<Branch>,
}
