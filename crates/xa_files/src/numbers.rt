//! The numbers that words spell.

ghost use Rattle.std.specs.Prelude.{◌≡◌};
ghost use Rattle.xa_base.specs.XidText.{is_canonical_decimal};
ghost use Rattle.xa_files.specs.Numbers.{index_of, integer_of};

/// Whether a decimal text is `0` or begins with another digit, after a minus sign at most.
fn is_canonical(text: &[u8]) -> bool
    ensures { result ≡ is_canonical_decimal text.now }
{
    match text {
        [b'0'] => true,
        [b'-', first, ..] | [first, ..] => matches!(first, b'1'..=b'9'),
        [] => false,
    }
}

/// The number of 32 bits that a word spells in decimal, without a sign or leading zeros.
pub fn index_of(word: &str) -> Option<u32>
    ensures { result ≡ index_of word.now }
{
    match word.parse() {
        Ok(number) if is_canonical(word.as_bytes()) => Some(number),
        _ => None,
    }
}

/// The signed number of 64 bits that a word spells in decimal, without a plus sign, leading zeros
/// or `-0`.
pub fn integer_of(word: &str) -> Option<i64>
    ensures { result ≡ integer_of word.now }
{
    match word.parse() {
        Ok(number) if is_canonical(word.as_bytes()) => Some(number),
        _ => None,
    }
}
