//! How wide texts are, and how they are broken into lines.

use std::alloc::Global;
use xa_base::Memory;

/// How wide a character is, in hundredths of the size of its font. It is at least what DejaVu Sans
/// Bold gives, the widest of the fonts that a picture asks for.
fn advance(character: char) -> usize {
    match character {
        ' ' | '\'' | 'i' | 'j' | 'l' => 35,
        ',' | '-' | '.' | '/' | ':' | ';' | 'I' | 'J' => 42,
        '(' | ')' | 'f' | 'r' | 't' => 50,
        '?' | '_' | 'c' | 's' | 'z' => 60,
        'w' => 93,
        'm' | 'M' | 'W' => 111,
        '0'..='9' | 'a'..='z' => 72,
        'A'..='Z' => 85,
        _ => 111,
    }
}

/// How wide a text is at most, in pixels, in a font of this size.
pub fn text_width(text: &str, size: usize) -> usize {
    let mut hundredths: usize = 0;
    for character in text.chars() {
        hundredths = hundredths.saturating_add(advance(character).saturating_mul(size));
    }
    (hundredths / 100).saturating_add(1)
}

/// The lines of a text, broken between words. None is wider than this, except a word that is.
pub fn broken(alloc: Global, text: &str, size: usize, width: usize) -> Result<Vec<String>, Memory> {
    let mut lines = Vec::new(alloc);
    let mut line = String::new(alloc);
    for word in text.split(' ') {
        let is_full = text_width(line.as_str(), size)
            .saturating_add(text_width(word, size))
            .saturating_add(size)
            > width;
        if is_full && !line.is_empty() {
            lines.push(line)?;
            line = String::new(alloc);
        }
        if !line.is_empty() {
            line.push_str(" ")?;
        }
        line.push_str(word)?;
    }
    lines.push(line)?;
    Ok(lines)
}
