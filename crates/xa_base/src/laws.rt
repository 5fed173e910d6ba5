//! The order of this manager's identifiers, and the parts of calls. These functions do nothing:
//! each contract is a theorem.

ghost use Rattle.std.specs.Prelude.{◌≡◌, ◌&&◌, nat_eq, Some};
ghost use Rattle.xa_base.specs.Branch.{IsBranch, branch_cmp, branch_eq, branch_of_xid};
ghost use Rattle.xa_base.specs.Branch.{gtrid_eq, xid_of_branch};
ghost use Rattle.xa_base.specs.Call.{CallsHaveTheirParts};
ghost use Rattle.xa_base.specs.Xid.{IsXid, Xid, xid_cmp};
ghost use Rattle.xa_base.specs.declared.branch.Branch.{Branch};
ghost use Rattle.xa_base.specs.declared.branch.Gtrid.{Gtrid};

/// The branches of this manager and their identifiers are alike in number and order:
///
/// - `fit`: the numbers of the branch that an identifier names fit their types;
/// - `order`: branches are in the order of their identifiers, and so transactions are, and the
///   branches of each;
/// - `same_gtrid`, `same_branch`: two transactions, or two branches, of which neither comes before
///   the other have the same numbers.
pub fn branches_in_order()
    ensures fit { (x : Xid) (b : Branch) → IsXid x → branch_of_xid x ≡ Some b → IsBranch b }
    ensures order { (b c : Branch) →
        IsBranch b → IsBranch c → xid_cmp (xid_of_branch b) (xid_of_branch c) ≡ branch_cmp b c }
    ensures same_gtrid { (g h : Gtrid) →
        (nat_eq g.incarnation h.incarnation && nat_eq g.sequence h.sequence) ≡ gtrid_eq g h }
    ensures same_branch { (b c : Branch) →
        (gtrid_eq b.gtrid c.gtrid && (nat_eq b.thread c.thread && nat_eq b.rm c.rm))
        ≡ branch_eq b c }
{}

/// The call of some parts is the one that has them, wherever there is one.
pub fn calls_have_their_parts()
    ensures { CallsHaveTheirParts }
{}
