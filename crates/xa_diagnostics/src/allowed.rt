//! What is allowed, in words.

use std::fmt;
use xa_base::{CallKind, MAX_RMS, MAX_THREADS};
use xa_files::CALL_KINDS;

/// The words of entries.
const ENTRIES: &[&str] = &[
    "begin",
    "issue",
    "call",
    "take",
    "hear",
    "drain",
    "vote",
    "busy",
    "heuristic",
    "decide",
    "recover",
    "resolve",
    "done",
    "crash",
    "restart",
    "claim",
    "settle",
    "abandon",
    "resolve-open",
];

/// The names of flags.
const FLAGS: &[&str] = &[
    "TMNOFLAGS",
    "TMJOIN",
    "TMENDRSCAN",
    "TMSTARTRSCAN",
    "TMSUCCESS",
    "TMFAIL",
    "TMONEPHASE",
];

/// The names of calls.
pub fn call_names() -> [&'static str; 9] {
    let mut names = [""; 9];
    for (i, kind) in CALL_KINDS.iter().enumerate() {
        names[i] = kind.name();
    }
    names
}

/// The words that a key may hold, if it holds a word other than the name of a call.
pub fn words_at(key: &str) -> &'static [&'static str] {
    match key {
        "do" => ENTRIES,
        "flags" => FLAGS,
        "vote" => &[
            "ok", "ro", "100", "101", "102", "103", "104", "105", "106", "107",
        ],
        "votes" => &[
            "ok", "ro", "100", "101", "102", "103", "104", "105", "106", "107", "none",
        ],
        "how" => &["com", "rb", "mix", "haz"],
        "outcome" => &["commit", "rollback"],
        "part" => &["line", "rm", "manager"],
        _ => &[],
    }
}

/// What a key may hold that holds no word.
fn other_at(key: &str) -> &'static str {
    match key {
        "step" | "job" => "an array of tables",
        "sweep" => "true or false",
        "thread" | "rm" | "of" => "an integer from 0 to 4294967295",
        "tx" => "a name: a text of 1 to 32 characters from a to z, 0 to 9 and the hyphen",
        "flags" => "an array of names of flags",
        "count" => "an integer of 64 bits",
        "vote" => "ok, ro, or a number from 100 to 107, as a text",
        "votes" => "an array of texts, one for each resource manager",
        "times" => "an integer from 0 to 1000",
        _ => "something else",
    }
}

/// Writes words with commas between them, and `joint` before the last.
pub fn write_list<W: fmt::Write>(
    f: &mut fmt::Formatter<W>,
    words: &[&str],
    joint: &str,
) -> fmt::Result {
    let last = words.len().saturating_sub(1);
    for (i, word) in words.iter().enumerate() {
        if i > 0 && i == last {
            write!(f, " {joint} ")?;
        } else if i > 0 {
            f.write_str(", ")?;
        }
        f.write_str(word)?;
    }
    Ok(())
}

/// Writes the words that a text may be.
fn write_words<W: fmt::Write>(f: &mut fmt::Formatter<W>, words: &[&str]) -> fmt::Result {
    write_list(f, words, "or")?;
    write!(f, ", as a text")
}

/// What a key may hold, in words.
#[derive(Clone, Copy)]
pub struct Allowed<'a>(pub &'a str);

impl fmt::Display for Allowed<'_> {
    fn fmt<W: fmt::Write>(&self, f: &mut fmt::Formatter<W>) -> fmt::Result {
        match self.0 {
            "xa" => write_words(f, &call_names()),
            "do" | "how" | "outcome" | "part" => write_words(f, words_at(self.0)),
            "threads" => write!(f, "an integer from 1 to {}", MAX_THREADS),
            "rms" => write!(f, "an integer from 1 to {}", MAX_RMS),
            _ => write!(f, "{}", other_at(self.0)),
        }
    }
}

/// The flags that there are, in words.
#[derive(Clone, Copy)]
pub struct AllFlags;

impl fmt::Display for AllFlags {
    fn fmt<W: fmt::Write>(&self, f: &mut fmt::Formatter<W>) -> fmt::Result {
        write_list(f, FLAGS, "and")
    }
}

/// The flags that a call takes.
pub fn flags_of_call(kind: CallKind) -> &'static str {
    match kind {
        CallKind::Start => "no flag but TMJOIN",
        CallKind::End => "just one of TMSUCCESS and TMFAIL",
        CallKind::Commit => "no flag but TMONEPHASE",
        CallKind::Recover => "no flags but TMSTARTRSCAN and TMENDRSCAN",
        CallKind::OpenRm
        | CallKind::CloseRm
        | CallKind::Prepare
        | CallKind::Rollback
        | CallKind::Forget => "no flag",
    }
}
