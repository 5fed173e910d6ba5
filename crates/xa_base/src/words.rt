//! The order of byte strings, a word of eight bytes at a time.
ghost use Rattle.std.specs.Prelude.{◌≡◌};
ghost use Rattle.std.specs.Ordering.{nat_cmp};
ghost use Rattle.std.specs.Cmp.Lexicographic.{slice_cmp};

use std::cmp::Ordering;

/// The order of two byte strings: that of the first bytes that differ, and a string comes before a
/// longer one that it begins.
pub(crate) fn order_of_bytes(bytes: &[u8], others: &[u8]) -> Ordering
    ensures { result ≡ slice_cmp nat_cmp bytes.now others.now }
{
    let mut rest = bytes;
    let mut other_rest = others;
    'words: while let (Some((word, later)), Some((other, other_later))) = (
        rest.split_first_chunk::<8>(),
        other_rest.split_first_chunk::<8>(),
    ) {
        let order = order_of_words(*word, *other);
        if order.is_ne() {
            return order;
        }
        rest = later;
        other_rest = other_later;
    }
    rest.cmp(&other_rest)
}

/// The order of two words of eight bytes. As numbers with their highest byte first they stand in
/// the order of their bytes.
fn order_of_words(word: [u8; 8], other: [u8; 8]) -> Ordering
    ensures { result ≡ slice_cmp nat_cmp word other }
{
    u64::from_be_bytes(word).cmp(&u64::from_be_bytes(other))
}
