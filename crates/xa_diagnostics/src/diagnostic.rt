//! One fault of a file.

use crate::told::fault_line;
use std::alloc::Global;
use xa_base::Memory;
use xa_files::RunFault;

/// A fault of a file: where it lies, and why.
#[derive(Drop)]
pub struct Diagnostic {
    pub fault: RunFault,
    /// The line, from 1, if the text shows it.
    pub line: Option<usize>,
    /// The column, from 1, of a text that is no TOML.
    pub column: Option<usize>,
    pub reason: String,
}

impl Diagnostic {
    /// The line that tells of it.
    pub fn told(&self, alloc: Global, path: &str) -> Result<String, Memory> {
        let mut text = fault_line(
            alloc,
            path,
            self.fault,
            self.line,
            self.column,
            self.reason.as_str(),
        )?;
        text.push_str("\n")?;
        Ok(text)
    }
}
