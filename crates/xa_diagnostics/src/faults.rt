//! All faults of a file.

ghost use Rattle.std.specs.Prelude.{◌≡◌, ◌-◌, IfOk};
ghost use Rattle.xa_diagnostics.specs.Tables.{table_fault};

use crate::advice::reason_text;
use crate::diagnostic::Diagnostic;
use crate::document::{
    FileKind, begun_in, items_at, mend_key, mend_table, name_in, put_begins, remove_key, table_at,
};
use crate::places::{Wanted, line_of};
use crate::syntax::explain_syntax;
use std::alloc::Global;
use toml::{Table, Value};
use xa_base::Memory;
use xa_files::{Finding, Misfit, RunFault, document_of, holds};
use xa_jobs::jobs_in;
use xa_scenario_file::scenario_in;

/// The most faults that are looked for in one file.
const MOST_FAULTS: usize = 100;

/// What is mended before the next fault is looked for.
#[derive(Drop)]
enum Mend {
    /// A key at the top.
    Key(String),
    /// A key of the top that stands in the table of a number.
    Moved(String, usize),
    /// The table of a number.
    Table(usize),
    /// Nothing: there is no sense in what is after such a fault.
    Nothing,
}

/// A file whose faults are looked for.
#[derive(Drop)]
struct Search<'a> {
    alloc: Global,
    text: &'a [u8],
    kind: FileKind,
    /// How many tables the text has.
    tables: usize,
    /// How many entries of earlier files stand before the first table.
    earlier: usize,
    /// The names in faulty tables: that no faultless one begins them is no further fault.
    suspects: Vec<String>,
}

/// Why a document is refused, if it is.
fn refusal_in<'a>(alloc: Global, document: &'a Table, kind: FileKind) -> Option<Misfit<'a>> {
    match kind {
        FileKind::Scenario => scenario_in(alloc, document).err(),
        FileKind::Jobs => jobs_in(alloc, document).err(),
    }
}

/// The names that the file begins.
fn begun_names<'a>(alloc: Global, document: &'a Table) -> Result<Vec<&'a str>, Memory> {
    let mut names = Vec::new(alloc);
    for item in items_at(document, "step") {
        if let Some(name) = begun_in(item) {
            names.push(name)?;
        }
    }
    Ok(names)
}

/// Whether an item is a table with the key.
fn has_key(item: &Value, key: &str) -> bool {
    match item.as_table() {
        Some(table) => holds(table, key),
        None => false,
    }
}

/// The number of the first table that has the key.
fn number_with(document: &Table, kind: FileKind, key: &str) -> Option<usize> {
    let items = items_at(document, kind.array());
    let at = items.iter().position(|item| has_key(item, key))?;
    at.checked_add(1)
}

impl Search<'_> {
    /// The line of a key, or else of the table of a number.
    fn line(&self, number: usize, key: Option<&str>) -> Option<usize> {
        let wanted = Wanted {
            array: self.kind.array(),
            number,
            key,
        };
        line_of(self.text, wanted, self.tables)
    }

    /// The fault of the top, and what is to be mended of it.
    fn of_top(
        &self,
        document: &Table,
        finding: &Finding<'_>,
    ) -> Result<(Diagnostic, Mend), Memory> {
        if let Finding::Missing { key, .. } = finding {
            if let Some(number) = number_with(document, self.kind, key) {
                return self.of_moved(key, number);
            }
        }
        let found = Diagnostic {
            fault: RunFault::Header,
            line: self.line(0, finding.key()),
            column: None,
            reason: reason_text(self.alloc, Some(document), &[], finding)?,
        };
        Ok((found, top_mend(self.alloc, self.kind, finding)?))
    }

    /// The fault of the top whose key stands in the table of a number, and what is to be mended of
    /// it.
    fn of_moved(&self, key: &str, number: usize) -> Result<(Diagnostic, Mend), Memory> {
        let own = number.saturating_sub(self.earlier);
        let array = self.kind.array();
        let found = Diagnostic {
            fault: RunFault::Header,
            line: self.line(own, Some(key)),
            column: None,
            reason: format!(in self.alloc;
                "{key} stands in {array} {own}: keys of the top come before the first [[{array}]]"
            )?,
        };
        let mend = match self.kind {
            FileKind::Jobs if key == "rms" => Mend::Nothing,
            _ => Mend::Moved(String::from_str(self.alloc, key)?, number),
        };
        Ok((found, mend))
    }

    /// The fault of a table.
    fn of_table(
        &self,
        document: &Table,
        number: usize,
        finding: &Finding<'_>,
    ) -> Result<Diagnostic, Memory>
        ensures { IfOk result (λ found. found.fault ≡
            table_fault self.now.kind (number - self.now.earlier)) }
    {
        let own = number.saturating_sub(self.earlier);
        let begun = begun_names(self.alloc, document)?;
        let table = table_at(document, self.kind, number);
        Ok(Diagnostic {
            fault: match self.kind {
                FileKind::Scenario => RunFault::Step(own),
                FileKind::Jobs => RunFault::Job(own),
            },
            line: self.line(own, finding.key()),
            column: None,
            reason: reason_text(self.alloc, table, begun.as_slice(), finding)?,
        })
    }

    /// Whether a fault only follows from another: the table that begins the transaction is faulty
    /// itself.
    fn follows(&self, finding: &Finding<'_>) -> bool {
        match finding {
            Finding::NotBegun(name) => self.suspects.iter().any(|it| it.as_str() == *name),
            _ => false,
        }
    }

    /// Notes the name in a faulty table.
    fn note_name(&mut self, document: &Table, number: usize) -> Result<(), Memory> {
        if let Some(name) = table_at(document, self.kind, number).and_then(name_in) {
            self.suspects.push(String::from_str(self.alloc, name)?)?;
        }
        Ok(())
    }

    /// The first fault of a document, if it has one, and what is to be mended of it. A fault that
    /// only follows is left out.
    fn first_in(&mut self, document: &Table) -> Result<Option<(Option<Diagnostic>, Mend)>, Memory> {
        match refusal_in(self.alloc, document, self.kind) {
            None => Ok(None),
            Some(Misfit::Memory) => Err(Memory),
            Some(Misfit::Header(finding)) => {
                let (found, mend) = self.of_top(document, &finding)?;
                Ok(Some((Some(found), mend)))
            }
            Some(Misfit::Step(number, finding)) | Some(Misfit::Job(number, finding)) => {
                let mend = match finding {
                    Finding::TooMany(_) => Mend::Nothing,
                    _ => Mend::Table(number),
                };
                if self.follows(&finding) {
                    return Ok(Some((None, mend)));
                }
                let found = self.of_table(document, number, &finding)?;
                self.note_name(document, number)?;
                Ok(Some((Some(found), mend)))
            }
        }
    }

    /// Mends what is to be mended of a document. Tells whether there is sense in what is after it.
    fn mend(&self, document: &mut Table, mend: &Mend) -> Result<bool, Memory> {
        match mend {
            Mend::Key(key) => mend_key(self.alloc, document, key.as_str())?,
            Mend::Moved(key, number) => {
                mend_key(self.alloc, document, key.as_str())?;
                remove_key(document, self.kind, *number, key.as_str());
            }
            Mend::Table(number) => mend_table(self.alloc, document, self.kind, *number)?,
            Mend::Nothing => return Ok(false),
        }
        Ok(true)
    }

    /// Adds the first fault of a document, and mends it. Tells whether there may be a further one.
    fn add_first(
        &mut self,
        document: &mut Table,
        found: &mut Vec<Diagnostic>,
    ) -> Result<bool, Memory> {
        match self.first_in(document)? {
            Some((diagnostic, mend)) => {
                if let Some(diagnostic) = diagnostic {
                    found.push(diagnostic)?;
                }
                self.mend(document, &mend)
            }
            None => Ok(false),
        }
    }

    /// Adds the faults of a document.
    fn add_all(&mut self, document: &mut Table, found: &mut Vec<Diagnostic>) -> Result<(), Memory> {
        for _ in 0..MOST_FAULTS {
            if !self.add_first(document, found)? {
                break;
            }
        }
        Ok(())
    }
}

/// What is to be mended of a fault of the top. Of jobs whose number of resource managers isn't
/// known there is no more to tell.
fn top_mend(alloc: Global, kind: FileKind, finding: &Finding<'_>) -> Result<Mend, Memory> {
    let key = match finding {
        Finding::Missing { key, .. } => *key,
        _ => finding.key().unwrap_or(""),
    };
    if key.is_empty() || (kind == FileKind::Jobs && key == "rms") {
        return Ok(Mend::Nothing);
    }
    Ok(Mend::Key(String::from_str(alloc, key)?))
}

/// Adds the names that a document begins.
fn add_names(alloc: Global, document: &Table, names: &mut Vec<String>) -> Result<(), Memory> {
    for item in items_at(document, "step") {
        if let Some(name) = begun_in(item) {
            names.push(String::from_str(alloc, name)?)?;
        }
    }
    Ok(())
}

/// Adds the names that a text begins, if it is a document.
fn add_names_of(alloc: Global, text: &[u8], names: &mut Vec<String>) -> Result<(), Memory> {
    match document_of(alloc, text) {
        Ok(document) => add_names(alloc, &document, names),
        Err(_) => Ok(()),
    }
}

/// The names that earlier files begin.
fn earlier_names(alloc: Global, earlier: &[Vec<u8>]) -> Result<Vec<String>, Memory> {
    let mut names = Vec::new(alloc);
    for text in earlier {
        add_names_of(alloc, text, &mut names)?;
    }
    Ok(names)
}

/// The fault of a text that is no document.
fn fault_of_syntax(alloc: Global, text: &[u8]) -> Result<Vec<Diagnostic>, Memory> {
    let mut found = Vec::new(alloc);
    if let Some(diagnostic) = explain_syntax(alloc, text)? {
        found.push(diagnostic)?;
    }
    Ok(found)
}

/// Adds the faults of a document, after earlier files that begin these names.
fn add_faults(
    alloc: Global,
    text: &[u8],
    names: &[String],
    kind: FileKind,
    document: &mut Table,
    found: &mut Vec<Diagnostic>,
) -> Result<(), Memory> {
    let tables = items_at(document, kind.array()).len();
    if kind == FileKind::Scenario && !names.is_empty() {
        put_begins(alloc, document, names)?;
    }
    let mut search = Search {
        alloc,
        text,
        kind,
        tables,
        earlier: names.len(),
        suspects: Vec::new(alloc),
    };
    search.add_all(document, found)
}

/// The faults of a document after earlier files.
fn faults_in(
    alloc: Global,
    text: &[u8],
    earlier: &[Vec<u8>],
    kind: FileKind,
    document: &mut Table,
) -> Result<Vec<Diagnostic>, Memory> {
    let names = earlier_names(alloc, earlier)?;
    let mut found = Vec::new(alloc);
    add_faults(alloc, text, names.as_slice(), kind, document, &mut found)?;
    Ok(found)
}

/// All faults of a file after earlier ones, each with its reason, in the order in which its reader
/// meets them; not more than a hundred.
pub fn faults_of(
    alloc: Global,
    text: &[u8],
    earlier: &[Vec<u8>],
    kind: FileKind,
) -> Result<Vec<Diagnostic>, Memory> {
    match document_of(alloc, text) {
        Ok(mut document) => faults_in(alloc, text, earlier, kind, &mut document),
        Err(RunFault::Memory) => Err(Memory),
        Err(_) => fault_of_syntax(alloc, text),
    }
}
