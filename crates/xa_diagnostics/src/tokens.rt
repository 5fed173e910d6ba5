//! The tokens of a document of TOML, each with its line.

/// A token: a bracket, a comma, a dot, an equals sign, a line feed, a string with its quotes, or a
/// word.
#[derive(Clone, Copy)]
pub struct Token<'a> {
    pub text: &'a [u8],
    /// The line on which it begins, from 1.
    pub line: usize,
}

impl Token<'_> {
    /// Its first byte.
    pub fn first(&self) -> u8 {
        match self.text.first() {
            Some(byte) => *byte,
            None => b'\n',
        }
    }

    /// Whether it is this word as a key, bare or in quotes.
    pub fn is_key(&self, word: &str) -> bool {
        match self.text {
            [b'"', inner @ .., b'"'] | [b'\'', inner @ .., b'\''] => inner == word.as_bytes(),
            _ => self.text == word.as_bytes(),
        }
    }
}

/// The tokens that are left of a document.
#[derive(Drop)]
pub struct Tokens<'a> {
    rest: &'a [u8],
    line: usize,
}

/// Whether the byte is a token by itself.
fn is_sign(byte: u8) -> bool {
    matches!(byte, b'[' | b']' | b'{' | b'}' | b',' | b'=' | b'.' | b'\n')
}

/// Whether the byte separates tokens on a line.
fn is_blank(byte: u8) -> bool {
    matches!(byte, b' ' | b'\t' | b'\r')
}

/// Whether the byte may stand in a word.
fn is_of_word(byte: u8) -> bool {
    !is_sign(byte) && !is_blank(byte) && !matches!(byte, b'"' | b'\'' | b'#')
}

/// The first bytes, at most so many.
fn front(bytes: &[u8], count: usize) -> &[u8] {
    if count <= bytes.len() {
        &bytes[..count]
    } else {
        bytes
    }
}

/// What is after so many bytes.
fn behind(bytes: &[u8], count: usize) -> &[u8] {
    if count <= bytes.len() {
        &bytes[count..]
    } else {
        &[]
    }
}

/// How long the string is that begins with this quote.
fn string_len(bytes: &[u8], quote: u8) -> usize {
    let quotes = bytes.iter().take_while(|byte| **byte == quote).count();
    // Of two quotes the second one ends the string; three begin one of several lines.
    let wanted = if quotes < 3 { 1 } else { 3 };
    let mut closing = 0usize;
    let mut is_escaped = false;
    for (i, byte) in bytes.iter().enumerate() {
        if i < wanted {
            continue;
        }
        // A string of several lines may end with two quotes of its own.
        if closing >= wanted && (wanted == 1 || closing == 5 || *byte != quote) {
            return i;
        }
        if is_escaped {
            is_escaped = false;
        } else if *byte == quote {
            closing = closing.saturating_add(1);
        } else {
            closing = 0;
            is_escaped = *byte == b'\\' && quote == b'"';
        }
    }
    bytes.len()
}

/// How long the token is that begins here, with this byte.
fn token_len(bytes: &[u8], first: u8) -> usize {
    if is_sign(first) {
        1
    } else if first == b'"' || first == b'\'' {
        string_len(bytes, first)
    } else {
        bytes.iter().take_while(|byte| is_of_word(**byte)).count()
    }
}

impl<'a> Tokens<'a> {
    /// The tokens of a text.
    pub fn of(text: &'a [u8]) -> Tokens<'a> {
        Tokens {
            rest: text,
            line: 1,
        }
    }

    /// Passes blanks and a comment.
    fn pass_blank(&mut self) {
        let blanks = self.rest.iter().take_while(|byte| is_blank(**byte)).count();
        self.rest = behind(self.rest, blanks);
        if self.rest.first() == Some(&b'#') {
            let comment = self.rest.iter().take_while(|byte| **byte != b'\n').count();
            self.rest = behind(self.rest, comment);
        }
    }

    /// The next one.
    pub fn next(&mut self) -> Option<Token<'a>> {
        self.pass_blank();
        let first = *self.rest.first()?;
        let length = token_len(self.rest, first);
        let text = front(self.rest, length);
        let line = self.line;
        let feeds = text.iter().filter(|byte| **byte == b'\n').count();
        self.rest = behind(self.rest, length);
        self.line = self.line.saturating_add(feeds);
        Some(Token { text, line })
    }
}
