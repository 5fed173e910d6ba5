//! The label of a log: a comment in the text that made its table `participant`. A database keeps that text word for word, so
//! a label lies in the log's own file and is copied with it, while the tables are those of a log without one.
ghost use Rattle.std.specs.Prelude.{◌≡◌, ◌≢◌, ℕ, List, None, Ok, IfErr, IfNone, IfOk, IfSome};
ghost use Rattle.std.specs.String.{string_bytes};
ghost use Rattle.sqlite.specs.Held.{state};
ghost use Rattle.sqlite.specs.State.{HasCleanDisk};
ghost use Rattle.xa_log.specs.Contract.{IsStoreFault};
ghost use Rattle.xa_sql_log.specs.Labels.{is_label, labelled};
ghost use Rattle.xa_sql_log.specs.OpenedDatabase.{IsBlank};

use crate::layout::has_log;
use crate::statements::of_store;
use sqlite::{Alter, Connection};
use std::alloc::{AllocError, Global};
use xa_log::LogFault;

/// What stands before the label, and behind it. Without the comment it is the text of a log that has none.
const LABEL_START: &str = "CREATE TABLE participant (inc INTEGER NOT NULL, \
    seq INTEGER NOT NULL, thread INTEGER NOT NULL, rm INTEGER NOT NULL, \
    PRIMARY KEY (inc, seq, thread, rm), \
    FOREIGN KEY (inc, seq) REFERENCES decision (inc, seq) ON DELETE CASCADE /* ";

const LABEL_END: &str = " */)";

const FIND_TEXT: &str = "SELECT sql FROM sqlite_schema WHERE name = 'participant'";

/// Whether a text may be a label: it has letters, digits, `_`, `-` and spaces alone, which end no comment.
pub fn is_label(text: &str) -> bool
    ensures { result ≡ is_label text.now }
{
    text.as_bytes().iter().all(
        |byte| matches!(*byte, b'0'..=b'9' | b'A'..=b'Z' | b'a'..=b'z' | b'_' | b'-' | b' '),
    )
}

/// The text that makes the table of a log with this label.
pub(crate) fn labelled_text(alloc: Global, label: &str) -> Result<String, AllocError>
    ensures { IfOk result (λ text. string_bytes text ≡ labelled label.now) }
{
    let mut text = String::from_str(alloc, LABEL_START)?;
    text.push_str(label)?;
    text.push_str(LABEL_END)?;
    Ok(text)
}

/// The label in such a text.
fn label_in(sql: &[u8]) -> Option<&[u8]>
    ensures found { IfSome result (λ label. sql.now ≡ labelled label.now) }
    ensures none { IfNone result ((label : List ℕ) → sql.now ≢ labelled label) }
{
    sql.strip_prefix(LABEL_START.as_bytes())?
        .strip_suffix(LABEL_END.as_bytes())
}

/// The label of the log in a database, which is empty where the log has none. Where there is no log, there is no label.
pub(crate) fn find_label<S: Alter>(
    alloc: Global,
    conn: &mut Connection<S>,
) -> Result<Option<String>, LogFault>
    ensures honest { HasCleanDisk (state S.Store conn.new) → HasCleanDisk (state S.Store conn.old) }
    ensures blank { IsBlank (state S.Store conn.old) → result ≡ Ok None }
    ensures cause { IfErr result IsStoreFault }
{
    if !has_log(conn) {
        return Ok(None);
    }
    let rows = of_store(conn.query_all(FIND_TEXT, &[]))?;
    let text: String = match rows.first() {
        Some(row) => of_store(row.get(0))?,
        // A log of version 1 has no such table.
        None => String::new(alloc),
    };
    let label = label_in(text.as_bytes()).unwrap_or(b"");
    Ok(Some(String::from_utf8_lossy(alloc, label)?))
}
