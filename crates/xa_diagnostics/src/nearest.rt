//! Which word was meant, if another was written.

use std::alloc::Global;
use strsim::osa_distance;
use xa_base::Memory;

/// A longer word is near no other.
const MOST_LETTERS: usize = 40;

/// The nearest of some words to one that is none of them, if a third of its letters or fewer are
/// wrong.
pub fn nearest<'a>(
    alloc: Global,
    word: &str,
    words: &[&'a str],
) -> Result<Option<&'a str>, Memory> {
    let mut best = None;
    let mut least = word.len() / 3 + 1;
    for other in words {
        let distance = distance(alloc, word, other)?;
        if distance < least {
            least = distance;
            best = Some(*other);
        }
    }
    Ok(best)
}

/// How many letters of a word are wrong, if another was meant. That a letter is a capital is no
/// fault if no other is wrong.
fn distance(alloc: Global, word: &str, meant: &str) -> Result<usize, Memory> {
    if word.eq_ignore_ascii_case(meant) {
        return Ok(0);
    }
    if word.len() > MOST_LETTERS {
        return Ok(usize::MAX);
    }
    Ok(osa_distance(alloc, word, meant)?)
}
