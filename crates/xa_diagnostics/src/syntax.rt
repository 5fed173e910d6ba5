//! Why a text is no document of TOML.

use crate::diagnostic::Diagnostic;
use crate::tokens::{Token, Tokens};
use std::alloc::Global;
use xa_base::Memory;
use xa_files::RunFault;

/// The line and the column of a place in a text, both from 1. A column counts characters.
fn place_in(before: &[u8]) -> (usize, usize) {
    let mut line = 1usize;
    let mut column = 1usize;
    for byte in before {
        if *byte == b'\n' {
            line = line.saturating_add(1);
            column = 1;
        } else if *byte & 0xC0 != 0x80 {
            column = column.saturating_add(1);
        }
    }
    (line, column)
}

/// What stands before a place of a text, and what stands from there on.
fn parts_at(text: &[u8], place: usize) -> (&[u8], &[u8]) {
    if place <= text.len() {
        text.split_at(place)
    } else {
        (text, &[])
    }
}

/// The first token of a text that is no line feed.
fn first_token(text: &[u8]) -> Option<Token<'_>> {
    let mut tokens = Tokens::of(text);
    for _ in 0..text.len() {
        let token = tokens.next()?;
        if token.first() != b'\n' {
            return Some(token);
        }
    }
    None
}

/// The line on which a key was given before, in the same table.
fn earlier_line(before: &[u8], key: &[u8]) -> Option<usize> {
    let mut found = None;
    for (i, line) in before.split(|byte| *byte == b'\n').enumerate() {
        match first_token(line) {
            Some(token) if token.first() == b'[' => found = None,
            Some(token) if token.text == key && found.is_none() => found = Some(i.saturating_add(
                1,
            )),
            _ => {}
        }
    }
    found
}

/// What is said of a key that is given twice.
fn twice(alloc: Global, before: &[u8], rest: &[u8]) -> Result<String, Memory> {
    let key = match first_token(rest) {
        Some(token) if token.first() != b'[' => token.text,
        _ => return Ok(String::from_str(alloc, "a table is given twice")?),
    };
    let name = String::from_utf8_lossy(alloc, key)?;
    match earlier_line(before, key) {
        Some(line) => Ok(format!(in alloc; "{name} is given twice, and first on line {line}")?),
        None => Ok(format!(in alloc; "{name} is given twice in one table")?),
    }
}

/// The line of a text on which the bytes before a place end.
fn line_at<'a>(text: &'a [u8], before: &[u8]) -> &'a [u8] {
    let begun = before
        .iter()
        .rev()
        .take_while(|byte| **byte != b'\n')
        .count();
    let (_, rest) = parts_at(text, before.len().saturating_sub(begun));
    let length = rest.iter().take_while(|byte| **byte != b'\n').count();
    rest.get(..length).unwrap_or(rest)
}

/// Where on a line a string begins that isn't closed there.
fn unclosed_at(line: &[u8]) -> Option<usize> {
    let mut open: Option<(usize, u8)> = None;
    let mut is_escaped = false;
    for (i, byte) in line.iter().enumerate() {
        match open {
            None if *byte == b'#' => return None,
            None if matches!(*byte, b'"' | b'\'') => open = Some((i, *byte)),
            None => {}
            Some(_) if is_escaped => is_escaped = false,
            Some((_, quote)) if *byte == quote => open = None,
            Some((_, quote)) => is_escaped = *byte == b'\\' && quote == b'"',
        }
    }
    open.map(|begun| begun.0)
}

/// The fault of a string that isn't closed on the line before a place, if that is what is wrong.
fn of_unclosed(
    alloc: Global,
    text: &[u8],
    before: &[u8],
    message: &str,
) -> Result<Option<Diagnostic>, Memory> {
    if message != "invalid string" {
        return Ok(None);
    }
    let line = line_at(text, before);
    let Some(at) = unclosed_at(line) else {
        return Ok(None);
    };
    let (number, _) = place_in(before);
    let (_, column) = place_in(line.get(..at).unwrap_or(line));
    Ok(Some(Diagnostic {
        fault: RunFault::NotToml,
        line: Some(number),
        column: Some(column),
        reason: String::from_str(alloc, "the string isn't closed on this line")?,
    }))
}

/// Why the text is no document, in words: as TOML's reader tells it, or plainer.
fn reason(
    alloc: Global,
    text: &[u8],
    before: &[u8],
    rest: &[u8],
    message: &str,
) -> Result<String, Memory> {
    let first = first_token(text).map_or(b'\n', |token| token.first());
    if first == b'{' {
        return Ok(String::from_str(
            alloc,
            "this looks like JSON; the file is TOML, as in threads = 1",
        )?);
    }
    match message {
        "duplicate key" => twice(alloc, before, rest),
        _ => Ok(String::from_str(alloc, message)?),
    }
}

/// Why the text is no document, and where.
pub fn explain_syntax(alloc: Global, text: &[u8]) -> Result<Option<Diagnostic>, Memory> {
    match toml::table_from_slice(alloc, text) {
        Ok(_) => Ok(None),
        Err(error) => {
            let Some(span) = error.span() else {
                return Err(Memory);
            };
            let (before, rest) = parts_at(text, span.start);
            if let Some(found) = of_unclosed(alloc, text, before, error.message())? {
                return Ok(Some(found));
            }
            let (line, column) = place_in(before);
            Ok(Some(Diagnostic {
                fault: RunFault::NotToml,
                line: Some(line),
                column: Some(column),
                reason: reason(alloc, text, before, rest, error.message())?,
            }))
        }
    }
}
