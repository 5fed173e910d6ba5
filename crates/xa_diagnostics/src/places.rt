//! On which line an entry of a file begins, and on which a key of it.

use crate::tokens::{Token, Tokens};

/// What is looked for: a key at the top of a document, or a table of an array of tables and a key
/// in it.
#[derive(Clone, Copy)]
pub struct Wanted<'a> {
    /// The key of the array.
    pub array: &'a str,
    /// The number of the table, from 1; 0 if the key stands at the top.
    pub number: usize,
    /// The key, if there is one.
    pub key: Option<&'a str>,
}

/// What a key of a line belongs to.
#[derive(Clone, Copy, PartialEq, Eq)]
enum Section {
    /// The document.
    Top,
    /// The last table of the array.
    Table,
    /// Another table.
    Other,
}

/// What the tokens before have begun.
#[derive(Clone, Copy, PartialEq, Eq)]
enum State {
    /// A line, at which a header or a key may stand.
    Line,
    /// A header, with how many words of its key.
    Header { words: usize },
    /// A value, or the end of a line.
    Value,
}

/// How far a document was read.
#[derive(Drop)]
struct Walk<'a> {
    wanted: Wanted<'a>,
    section: Section,
    state: State,
    /// Whether the header is that of an array of tables.
    is_double: bool,
    /// Whether the header, or the key before the value, begins with the array's.
    is_array: bool,
    /// How many brackets of a value are open.
    depth: usize,
    /// Whether a key may come in an inline table.
    may_be_key: bool,
    /// How many tables of the array were met.
    tables: usize,
    /// The line of the table.
    table_line: Option<usize>,
    /// The line of the key.
    key_line: Option<usize>,
}

impl Walk<'_> {
    /// Notes the line of a key, if it is the one that is looked for.
    fn note_key(&mut self, token: &Token<'_>, number: usize) {
        if let Some(key) = self.wanted.key {
            if self.key_line.is_none() && number == self.wanted.number && token.is_key(key) {
                self.key_line = Some(token.line);
            }
        }
    }

    /// A table of the array begins.
    fn begin_table(&mut self, line: usize) {
        self.tables = self.tables.saturating_add(1);
        if self.tables == self.wanted.number {
            self.table_line = Some(line);
        }
    }

    /// A token at which a line begins.
    fn take_first(&mut self, token: &Token<'_>) {
        match token.first() {
            b'\n' => {}
            b'[' => {
                self.state = State::Header { words: 0 };
                self.is_double = false;
                self.is_array = false;
            }
            _ => {
                match self.section {
                    Section::Top => self.note_key(token, 0),
                    Section::Table => self.note_key(token, self.tables),
                    Section::Other => {}
                }
                self.is_array = self.section == Section::Top && token.is_key(self.wanted.array);
                self.state = State::Value;
            }
        }
    }

    /// A token of a header.
    fn take_in_header(&mut self, token: &Token<'_>, words: usize) {
        match token.first() {
            b'[' => self.is_double = true,
            b']' => self.end_header(token.line, words),
            b'.' => {}
            _ => {
                if words == 0 {
                    self.is_array = token.is_key(self.wanted.array);
                    self.note_key(token, 0);
                } else if words == 1 && self.is_array {
                    self.note_key(token, self.tables);
                }
                self.state = State::Header {
                    words: words.saturating_add(1),
                };
            }
        }
    }

    /// The end of a header.
    fn end_header(&mut self, line: usize, words: usize) {
        if self.is_array && self.is_double && words == 1 {
            self.begin_table(line);
            self.section = Section::Table;
        } else {
            self.section = Section::Other;
        }
        self.is_array = false;
        self.state = State::Value;
    }

    /// A token of a value, or after a header.
    fn take_in_value(&mut self, token: &Token<'_>) {
        match token.first() {
            b'\n' => {
                if self.depth == 0 {
                    self.state = State::Line;
                }
            }
            b'[' | b'{' => {
                self.depth = self.depth.saturating_add(1);
                self.may_be_key = self.depth == 2;
                if self.is_array && self.depth == 2 {
                    self.begin_table(token.line);
                }
            }
            b']' | b'}' => self.depth = self.depth.saturating_sub(1),
            b',' => self.may_be_key = self.depth == 2,
            _ => {
                if self.is_array && self.may_be_key {
                    self.note_key(token, self.tables);
                }
                self.may_be_key = false;
            }
        }
    }

    /// The next token.
    fn take(&mut self, token: &Token<'_>) {
        match self.state {
            State::Line => self.take_first(token),
            State::Header { words } => self.take_in_header(token, words),
            State::Value => self.take_in_value(token),
        }
    }
}

/// The line of what is looked for: that of the key, or else that of the table.
///
/// A table is numbered by the text alone. So there is no line if one is looked for and the text
/// doesn't show as many tables as the document has, for a key may be spelled in other ways.
pub fn line_of(text: &[u8], wanted: Wanted<'_>, tables: usize) -> Option<usize> {
    let mut walk = Walk {
        wanted,
        section: Section::Top,
        state: State::Line,
        is_double: false,
        is_array: false,
        depth: 0,
        may_be_key: false,
        tables: 0,
        table_line: None,
        key_line: None,
    };
    let mut tokens = Tokens::of(text);
    for _ in 0..text.len() {
        let Some(token) = tokens.next() else {
            break;
        };
        walk.take(&token);
    }
    if wanted.number > 0 && walk.tables != tables {
        return None;
    }
    match walk.key_line {
        Some(line) => Some(line),
        None => walk.table_line,
    }
}
