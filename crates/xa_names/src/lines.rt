//! The lines between a driver and a manager of a name.

ghost use Rattle.std.specs.Prelude.{◌≡◌, map, IfOk};
ghost use Rattle.std.specs.String.{string_bytes};
ghost use Rattle.xa_names.specs.Lines.{line_renamed, word_renamed};
ghost use Rattle.xa_requests.specs.Names.{xid_named};
ghost use Rattle.xa_requests.specs.Words.{words_of};

use crate::ManagerName;
use std::alloc::{AllocError, Global};
use xa_base::{Memory, Xid};
use xa_requests::laws::words_have_one_spelling;

/// The line, cut at each space.
fn words_of(alloc: Global, line: &str) -> Result<Vec<&str>, AllocError>
    ensures { IfOk result (λ words. map (λ word. word.now) words.items ≡ words_of line.now) }
{
    line.split(' ').collect(alloc)
}

/// The identifier that a word spells.
fn xid_named(word: &str) -> Option<Xid>
    ensures { result ≡ xid_named word.now }
{
    words_have_one_spelling();
    Xid::parse(word).ok()
}

/// A word; if it spells an identifier, that of the one that stands for it.
fn word_renamed(alloc: Global, name: &ManagerName, word: &str) -> Result<String, Memory>
    ensures { IfOk result (λ text. string_bytes text ≡ word_renamed name.now word.now) }
{
    match xid_named(word) {
        Some(xid) => name.renamed(&xid).text(alloc),
        None => Ok(String::from_str(alloc, word)?),
    }
}

/// Each of these words so.
fn words_renamed(alloc: Global, name: &ManagerName, words: &[&str]) -> Result<Vec<String>, Memory>
    ensures { IfOk result (λ texts. map string_bytes texts.items
        ≡ map (λ word. word_renamed name.now word.now) words.now) }
{
    let mut texts = Vec::with_capacity(alloc, words.len())?;
    for word in words {
        let text = word_renamed(alloc, name, word)?;
        texts.push(text)?;
    }
    Ok(texts)
}

/// A line, without its line feed, as a manager of this name means it: each word that spells an
/// identifier is that of the one that stands for it.
pub fn line_renamed(alloc: Global, name: &ManagerName, line: &str) -> Result<String, Memory>
    ensures { IfOk result (λ text. string_bytes text ≡ line_renamed name.now line.now) }
{
    let words = words_of(alloc, line)?;
    let texts = words_renamed(alloc, name, words.as_slice())?;
    Ok(texts.as_slice().join(alloc, " ")?)
}
