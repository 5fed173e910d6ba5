//! Identifiers as keys of a table by hash.
ghost use Rattle.std.specs.Prelude.{◌≡◌};

use std::hash::{Hash, Hasher};
use std::marker::Model;
use xa_base::Xid;

/// An identifier by which a table is asked that finds its keys by their hash.
#[derive(Drop)]
pub(crate) struct Key {
    xid: Xid,
}

impl Model for Key {
    ghost use Rattle.xa_base.specs.Xid.{Xid as Parts};

    ghost Value = { Parts };

    ghost view = { λ key. key.xid };
}

impl Key {
    /// The key of an identifier. No memory is taken.
    pub(crate) fn of(xid: &Xid) -> Key
        ensures { result ≡ xid.now }
    {
        Key { xid: xid.copy() }
    }

    /// The identifier.
    pub(crate) fn xid(&self) -> &Xid
        ensures { result.now ≡ self.now }
    {
        &self.xid
    }
}

impl PartialEq for Key {
    ghost use Rattle.std.specs.Cmp.{partial_equiv_from_equiv};
    ghost use Rattle.xa_base.specs.Xid.{xid_eq};
    ghost use Rattle.xa_rm.specs.Keys.{xid_eq_equiv};

    ghost eq = { xid_eq };

    ghost laws = { partial_equiv_from_equiv xid_eq_equiv };

    fn eq(&self, other: &Key) -> bool {
        self.xid == other.xid
    }
}

impl Eq for Key {
    ghost use Rattle.xa_rm.specs.Keys.{xid_eq_equiv};

    ghost laws = { xid_eq_equiv };
}

impl Hash for Key {
    ghost use Rattle.xa_rm.specs.Keys.{xid_writes, same_writes};

    ghost hash_input = { xid_writes };

    ghost respects_eq = { same_writes };

    fn hash<H: Hasher>(&self, state: &mut H) {
        state.write_i32(self.xid.format());
        state.write(self.xid.gtrid());
        state.write(self.xid.bqual());
    }
}
