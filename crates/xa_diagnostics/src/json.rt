//! What is printed, as JSON.

ghost use Rattle.std.specs.Prelude.{◌≡◌, ◌++◌, map, IfOk, OnOk};
ghost use Rattle.std.specs.List.{flat_map};
ghost use Rattle.std.specs.Str.Lines.{lines};
ghost use Rattle.std.specs.String.{string_bytes};
ghost use Rattle.xa_diagnostics.specs.Json.{array, escaped, first_or_null, is_item, item_in, item_text, items_in, json_word_of, log_json, quoted, rest_of, run_json, tells_branch};

use std::alloc::{AllocError, Global};
use xa_base::Memory;

/// What a line is told as.
#[derive(Clone, Copy)]
pub enum Item {
    /// A text.
    Line,
    /// A branch with its fate.
    Branch,
    /// A line of a trace.
    Event,
    /// The name of a manager.
    Name,
    /// The name of a resource manager.
    Rm,
    /// How often a manager has started over a log.
    Incarnation,
    /// A transaction that is decided to commit, and how many branches it waits for.
    Decision,
}

/// A character, as it stands in a text in quotes.
fn escaped(alloc: Global, letter: char) -> Result<String, Memory>
    ensures { IfOk result (λ text. string_bytes text ≡ escaped letter) }
{
    Ok(match letter {
        '"' => String::from_str(alloc, "\\\"")?,
        '\\' => String::from_str(alloc, "\\\\")?,
        '\n' => String::from_str(alloc, "\\n")?,
        '\t' => String::from_str(alloc, "\\t")?,
        '\r' => String::from_str(alloc, "\\r")?,
        '\0'..='\u{1f}' => {
            let code = letter as u32;
            format!(in alloc; "\\u00{code:02x}")?
        }
        _ => {
            let mut text = String::new(alloc);
            text.push(letter)?;
            text
        }
    })
}

/// A text in quotes.
pub fn quoted(alloc: Global, text: &str) -> Result<String, Memory>
    ensures { IfOk result (λ told. string_bytes told ≡ quoted text.now) }
{
    let mut told = String::from_str(alloc, "\"")?;
    for letter in text.chars() {
        let letter = escaped(alloc, letter)?;
        told.push_str(letter.as_str())?;
    }
    told.push_str("\"")?;
    Ok(told)
}

/// Items in brackets.
pub fn array(alloc: Global, items: &[String]) -> Result<String, Memory>
    ensures { IfOk result (λ told. string_bytes told ≡ array (map string_bytes items.now)) }
{
    let told = items.join(alloc, ",")?;
    Ok(format!(in alloc; "[{told}]")?)
}

/// The lines of a text.
pub fn lines_of(alloc: Global, text: &str) -> Result<Vec<&str>, AllocError>
    ensures { IfOk result (λ all. map (λ line. line.now) all.items ≡ lines text.now) }
{
    text.lines().collect(alloc)
}

/// What stands before the first space of a line, and what stands after it.
fn cut(line: &str) -> (&str, &str)
    ensures word { result.0.now ≡ json_word_of line.now }
    ensures rest { result.1.now ≡ rest_of line.now }
{
    match line.split_once(' ') {
        Some(parts) => parts,
        None => (line, ""),
    }
}

/// Whether a line tells of a branch, by its identifier.
fn tells_branch(line: &str) -> bool
    ensures { result ≡ tells_branch line.now }
{
    line.starts_with("7:")
}

/// A branch with its fate.
fn branch(alloc: Global, line: &str) -> Result<String, Memory>
    ensures { IfOk result (λ text. string_bytes text ≡ item_text Item.Branch line.now) }
{
    let (name, fate) = cut(line);
    let name = quoted(alloc, name)?;
    let fate = quoted(alloc, fate)?;
    Ok(format!(in alloc; "{{\"branch\":{name},\"fate\":{fate}}}")?)
}

/// A transaction that is decided to commit.
fn decision(alloc: Global, line: &str) -> Result<String, Memory>
    ensures { IfOk result (λ text. string_bytes text ≡ item_text Item.Decision line.now) }
{
    let (name, count) = cut(line);
    let name = quoted(alloc, name)?;
    Ok(format!(in alloc; "{{\"transaction\":{name},\"branches\":{count}}}")?)
}

impl Item {
    /// Whether a line is one.
    fn is(self, line: &str) -> bool
        ensures { result ≡ is_item self line.now }
    {
        let word = cut(line).0;
        let is_branch = tells_branch(line);
        let is_name = word == "name";
        let is_rm = word == "rm";
        let is_incarnation = word == "incarnation";
        match self {
            Item::Line => true,
            Item::Branch => is_branch,
            Item::Event => !is_branch,
            Item::Name => is_name,
            Item::Rm => is_rm,
            Item::Incarnation => is_incarnation,
            Item::Decision => !(is_branch || is_name || is_rm || is_incarnation),
        }
    }

    /// The item that a line is.
    fn text(self, alloc: Global, line: &str) -> Result<String, Memory>
        ensures { IfOk result (λ text. string_bytes text ≡ item_text self line.now) }
    {
        match self {
            Item::Branch => branch(alloc, line),
            Item::Line | Item::Event => quoted(alloc, line),
            Item::Name => quoted(alloc, cut(line).1),
            Item::Rm => quoted(alloc, cut(cut(line).1).1),
            Item::Incarnation => Ok(String::from_str(alloc, cut(line).1)?),
            Item::Decision => decision(alloc, line),
        }
    }

    /// Adds the item that a line is, if it is one.
    fn push(self, alloc: Global, texts: &mut Vec<String>, line: &str) -> Result<(), Memory>
        ensures { OnOk result (map string_bytes texts.new.items
            ≡ map string_bytes texts.old.items ++ item_in self line.now) }
    {
        if self.is(line) {
            let text = self.text(alloc, line)?;
            texts.push(text)?;
        }
        Ok(())
    }

    /// Those of some lines, line by line.
    fn collected(self, alloc: Global, lines: &[&str]) -> Result<Vec<String>, Memory>
        ensures { IfOk result (λ texts. map string_bytes texts.items
            ≡ flat_map (λ line. item_in self line.now) lines.now) }
    {
        let mut texts = Vec::new(alloc);
        for line in lines {
            self.push(alloc, &mut texts, line)?;
        }
        Ok(texts)
    }

    /// Those of some lines.
    pub fn all_in(self, alloc: Global, lines: &[&str]) -> Result<Vec<String>, Memory>
        ensures { IfOk result (λ texts. map string_bytes texts.items
            ≡ items_in self (map (λ line. line.now) lines.now)) }
    {
        let texts = self.collected(alloc, lines)?;
        Ok(texts)
    }

    /// Those of some lines, in brackets.
    pub fn array_in(self, alloc: Global, lines: &[&str]) -> Result<String, Memory>
        ensures { IfOk result (λ text. string_bytes text
            ≡ array (items_in self (map (λ line. line.now) lines.now))) }
    {
        let items = self.all_in(alloc, lines)?;
        array(alloc, items.as_slice())
    }
}

/// The first of some texts, or null.
fn first_or_null(alloc: Global, texts: &[String]) -> Result<String, Memory>
    ensures { IfOk result (λ text. string_bytes text ≡ first_or_null (map string_bytes texts.now)) }
{
    match texts.first() {
        Some(text) => Ok(text.clone()?),
        None => Ok(String::from_str(alloc, "null")?),
    }
}

impl Item {
    /// The first of some lines, or null.
    pub fn first_in(self, alloc: Global, lines: &[&str]) -> Result<String, Memory>
        ensures { IfOk result (λ text. string_bytes text
            ≡ first_or_null (items_in self (map (λ line. line.now) lines.now))) }
    {
        let items = self.all_in(alloc, lines)?;
        first_or_null(alloc, items.as_slice())
    }
}

/// What a run prints, as JSON: its branches with their fates, and the other lines of its trace, if
/// it has one.
pub fn run_json(alloc: Global, printed: &str, with_trace: bool) -> Result<String, Memory>
    ensures { IfOk result (λ text. string_bytes text ≡ run_json with_trace printed.now) }
{
    let lines = lines_of(alloc, printed)?;
    let branches = Item::Branch.array_in(alloc, lines.as_slice())?;
    if with_trace {
        let events = Item::Event.array_in(alloc, lines.as_slice())?;
        Ok(format!(in alloc; "{{\"events\":{events},\"branches\":{branches}}}\n")?)
    } else {
        Ok(format!(in alloc; "{{\"branches\":{branches}}}\n")?)
    }
}

/// What a look at a log prints, as JSON: the names that it keeps, its incarnation, its decisions,
/// and its heuristic ends.
pub fn log_json(alloc: Global, printed: &str) -> Result<String, Memory>
    ensures { IfOk result (λ text. string_bytes text ≡ log_json printed.now) }
{
    let lines = lines_of(alloc, printed)?;
    let name = Item::Name.first_in(alloc, lines.as_slice())?;
    let rms = Item::Rm.array_in(alloc, lines.as_slice())?;
    let incarnation = Item::Incarnation.first_in(alloc, lines.as_slice())?;
    let decisions = Item::Decision.array_in(alloc, lines.as_slice())?;
    let ends = Item::Branch.array_in(alloc, lines.as_slice())?;
    Ok(format!(in alloc;
        "{{\"name\":{name},\"rms\":{rms},\"incarnation\":{incarnation},\
        \"decisions\":{decisions},\"heuristics\":{ends}}}\n"
    )?)
}
