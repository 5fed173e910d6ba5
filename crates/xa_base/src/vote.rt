//! What a resource manager answers when it is asked to prepare a branch.

use crate::RbCode;

/// A resource manager's vote on a branch, which it gives when the branch is prepared or committed
/// in one phase (XA, chapter 5, xa_prepare and xa_commit).
#[derive(Clone, Copy, Debug, PartialEq, Eq)]
pub enum Vote {
    /// The branch can be committed.
    Yes,
    /// The branch changed nothing, and is over once it has said so (XA, section 2.3.2, Protocol
    /// Optimisations).
    ReadOnly,
    /// The branch is rolled back, for this reason.
    No(RbCode),
}
