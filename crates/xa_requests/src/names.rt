//! The transactions and branches that words name.

ghost use Rattle.std.specs.Prelude.{◌≡◌, ◌*◌, true, length, map, IfOk};
ghost use Rattle.std.specs.List.{list_all};
ghost use Rattle.xa_base.specs.XidText.{bytes_of, is_hex, is_lower_hex};
ghost use Rattle.xa_requests.specs.Names.{branch_named, gtrid_named, gtrid_of_bytes, gtrids_named, xid_named, xids_named};

use crate::request::Gtrids;
use std::alloc::{AllocError, Global};
use xa_base::{Branch, Gtrid, Page, Xid};

/// Whether each byte is a lower case hexadecimal digit.
fn are_lower_hex_digits(digits: &[u8]) -> bool
    ensures { result ≡ list_all is_lower_hex digits.now }
{
    digits
        .iter()
        .all(|digit| matches!(*digit, b'0'..=b'9' | b'a'..=b'f'))
}

/// Whether a text is pairs of lower case hexadecimal digits.
fn is_hex_text(digits: &[u8]) -> bool
    ensures { result ≡ is_hex digits.now }
{
    digits.len() % 2 == 0 && are_lower_hex_digits(digits)
}

/// Writes the bytes that pairs of digits spell.
fn decode(digits: &[u8], bytes: &mut [u8])
    requires hex { is_hex digits.now ≡ true }
    requires len { length digits.now ≡ 2 * length bytes.old }
    ensures { bytes.new ≡ bytes_of digits.now }
{
    hex::decode_to_slice(digits, bytes).unwrap();
}

/// The transaction of two numbers of eight bytes each, if there are as many bytes.
fn gtrid_of_bytes(bytes: &[u8]) -> Option<Gtrid>
    ensures { result ≡ gtrid_of_bytes bytes.now }
{
    if bytes.len() != 16 {
        return None;
    }
    let (first, second) = bytes.split_at(8);
    Some(Gtrid {
        incarnation: u64::from_be_bytes(first.try_into().unwrap()),
        sequence: u64::from_be_bytes(second.try_into().unwrap()),
    })
}

/// The transaction that a word names by 32 hexadecimal digits.
#[tactic(auto, unfolding(crate::specs::Names::gtrid_named))]
pub(crate) fn gtrid_named(word: &str) -> Option<Gtrid>
    ensures { result ≡ gtrid_named word.now }
{
    let digits = word.as_bytes();
    if digits.len() != 32 || !is_hex_text(digits) {
        return None;
    }
    let mut bytes = [0; 16];
    decode(digits, &mut bytes);
    gtrid_of_bytes(&bytes)
}

/// The identifier that a word spells.
fn xid_named(word: &str) -> Option<Xid>
    ensures { result ≡ xid_named word.now }
{
    Xid::parse(word).ok()
}

/// The identifier that a word spells; or, if it names a transaction, that of its branch of the
/// thread at the resource manager.
#[tactic(auto, unfolding(crate::specs::Names::branch_named))]
pub(crate) fn branch_named(thread: u32, rm: u32, word: &str) -> Option<Xid>
    ensures { result ≡ branch_named thread rm word.now }
{
    match gtrid_named(word) {
        Some(gtrid) => {
            let branch = Branch { gtrid, thread, rm };
            Some(branch.xid())
        }
        None => xid_named(word),
    }
}

/// The transactions that the words name, if each names one.
pub(crate) fn gtrids_named(alloc: Global, words: &[&str]) -> Result<Option<Gtrids>, AllocError>
    ensures { IfOk result (λ gtrids. gtrids
        ≡ gtrids_named (map (λ word. word.now) words.now)) }
{
    let mut gtrids = Vec::with_capacity(alloc, words.len())?;
    for word in words {
        let Some(gtrid) = gtrid_named(word) else {
            return Ok(None);
        };
        gtrids.push(gtrid)?;
    }
    Ok(Some(Gtrids::new(gtrids)))
}

/// The page of the identifiers that the words spell, if each spells one.
pub(crate) fn xids_named(alloc: Global, words: &[&str]) -> Result<Option<Page>, AllocError>
    ensures { IfOk result (λ page. page ≡ xids_named (map (λ word. word.now) words.now)) }
{
    let mut xids = Vec::with_capacity(alloc, words.len())?;
    for word in words {
        let Some(xid) = xid_named(word) else {
            return Ok(None);
        };
        xids.push(xid)?;
    }
    Ok(Some(Page::new(xids)))
}
