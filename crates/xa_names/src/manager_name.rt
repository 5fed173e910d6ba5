//! The name of a manager, and the identifiers that stand for each other under it.

ghost use Rattle.std.specs.Prelude.{◌≡◌, [], true};
ghost use Rattle.std.specs.List.{list_all};
ghost use Rattle.std.specs.Option.{SomeIff};
ghost use Rattle.xa_names.specs.Names.{IsName, is_bare_of, is_manager_name, is_manager_name_byte};

use arrayvec::ArrayVec;
use std::marker::Model;
use xa_base::{OWN_FORMAT, Xid};

/// The most bytes that a name has.
pub(crate) const NAME_LEN: usize = 16;

/// The bytes of a transaction in an identifier of this manager, and those of a thread and a
/// resource manager.
const OWN_GTRID_LEN: usize = 16;

const OWN_BQUAL_LEN: usize = 8;

/// The name of a manager: 1 to 16 letters, digits, `_` and `-`. A manager may have none, and its
/// name is then empty.
///
/// The identifiers of its branches have the name's bytes in front of those of the transaction.
#[derive(PartialEq, Eq, Drop)]
pub struct ManagerName {
    bytes: ArrayVec<u8, NAME_LEN>,
}

impl Model for ManagerName {
    ghost use Rattle.std.specs.Prelude.{ℕ, List};
    ghost use Rattle.xa_names.specs.Names.{IsName};

    ghost Value = { List ℕ };

    ghost view = { λ n. n.bytes.items };

    ghost invariant = { λ n. IsName n.bytes.items };

    ghost inverse = { λ v. record { bytes = record { items = v } } };
}

/// Whether each byte may stand in a name.
fn are_name_bytes(bytes: &[u8]) -> bool
    ensures { result ≡ list_all is_manager_name_byte bytes.now }
{
    bytes.iter().all(|byte| matches!(*byte, b'0'..=b'9' | b'A'..=b'Z' | b'a'..=b'z' | b'_' | b'-'))
}

/// Whether an identifier has the shape of those that a manager without a name gives out.
fn is_bare(format: i32, gtrid: &[u8], bqual: &[u8]) -> bool
    ensures { result ≡ is_bare_of format gtrid.now bqual.now }
{
    format == OWN_FORMAT && gtrid.len() == OWN_GTRID_LEN && bqual.len() == OWN_BQUAL_LEN
}

impl ManagerName {
    ghost use Rattle.xa_names.specs.Names.{is_bare, renamed, with_name};

    /// No name. No memory is taken.
    pub fn none() -> ManagerName
        ensures { result ≡ [] }
    {
        ManagerName {
            bytes: ArrayVec::new(),
        }
    }

    /// The name that a text is, if it is one. No memory is taken.
    pub fn of_text(text: &str) -> Option<ManagerName>
        ensures { SomeIff result (is_manager_name text.now ≡ true) text.now }
    {
        let bytes = text.as_bytes();
        if bytes.is_empty() || !are_name_bytes(bytes) {
            return None;
        }
        let bytes = ArrayVec::try_from(bytes).ok()?;
        Some(ManagerName { bytes })
    }

    /// Whether a text, however long, has only what may stand in a name: letters, digits, `_` and
    /// `-`.
    pub fn has_letters(text: &str) -> bool
        ensures { result ≡ list_all is_manager_name_byte text.now }
    {
        are_name_bytes(text.as_bytes())
    }

    /// The bytes of the name.
    pub fn as_slice(&self) -> &[u8]
        ensures value { result.now ≡ self.now }
        ensures valid { IsName self.now }
    {
        self.bytes.as_slice()
    }

    /// The identifier with the name in front of its transaction.
    fn with_name(&self, xid: &Xid) -> Xid
        requires { is_bare xid.now ≡ true }
        ensures { result ≡ with_name self.now xid.now }
    {
        let mut gtrid: ArrayVec<u8, 32> = ArrayVec::new();
        gtrid.try_extend_from_slice(self.as_slice()).unwrap();
        gtrid.try_extend_from_slice(xid.gtrid()).unwrap();
        Xid::new(xid.format(), gtrid.as_slice(), xid.bqual()).unwrap()
    }

    /// The identifier that stands for this one at a manager of this name: what a manager without a
    /// name would call its branch, has the name in front; what has the name in front is what a
    /// manager without one would call its branch; and any other identifier stands for itself. No
    /// memory is taken.
    pub fn renamed(&self, xid: &Xid) -> Xid
        ensures { result ≡ renamed self.now xid.now }
    {
        if is_bare(xid.format(), xid.gtrid(), xid.bqual()) {
            return self.with_name(xid);
        }
        match xid.gtrid().strip_prefix(self.as_slice()) {
            Some(gtrid) if is_bare(xid.format(), gtrid, xid.bqual()) => {
                Xid::new(xid.format(), gtrid, xid.bqual()).unwrap()
            }
            _ => xid.copy(),
        }
    }
}
