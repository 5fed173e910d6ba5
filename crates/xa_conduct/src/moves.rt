//! The moves of a driver: what its words ask for.

ghost use Rattle.std.specs.Prelude.{◌≡◌, ◌==◌, ◌≤◌, None, length, map, IfOk};
ghost use Rattle.std.specs.List.{slice_split};
ghost use Rattle.xa_conduct.specs.Moves.{ArePairedInOrder, IsMoveBy, IsReadOf, parts_of, thread_behind};
ghost use Rattle.xa_conduct.specs.Moves.{thread_moved};
ghost use Rattle.xa_requests.specs.Words.{words_of};

use crate::report::{Report, report_in};
use std::alloc::{AllocError, Global};
use xa_base::{Gtrid, Xid};
use xa_files::index_of;

/// What a driver asks for.
#[derive(Drop)]
pub enum Move {
    /// `start T`: the first transaction of a thread begins.
    Start { thread: u32 },
    /// `join T R [R ..]`: branches of the thread's transaction began at these resource managers.
    Join { thread: u32, rms: Vec<u32> },
    /// `commit T`: the work is over, and is to be committed.
    Commit { thread: u32 },
    /// `rollback T`: it is to be rolled back.
    Rollback { thread: u32 },
    /// `tell T A [A ..]`: the calls that were told were answered so, each in its turn.
    Tell { thread: u32, reports: Vec<Report> },
    /// `recover R`: a recovery of the resource manager begins.
    Recover { rm: u32 },
    /// `page R [XID ..]`: it lists these.
    Page { rm: u32, xids: Vec<Xid> },
    /// `end R A`: the call that was told was answered so.
    End { rm: u32, report: Report },
    /// `due`: which resource managers are to be recovered.
    Due,
    /// `fate G`: what became of a transaction that the session before was deciding.
    Fate { gtrid: Gtrid },
    /// `quit`: the session ends.
    Quit,
}

/// The numbers that these words spell, if each spells one and there is one.
fn numbers_of(alloc: Global, words: &[&str]) -> Result<Option<Vec<u32>>, AllocError> {
    let mut numbers = Vec::with_capacity(alloc, words.len())?;
    for word in words {
        let Some(number) = index_of(word) else {
            return Ok(None);
        };
        numbers.push(number)?;
    }
    if numbers.is_empty() {
        return Ok(None);
    }
    Ok(Some(numbers))
}

/// What these words report, if each reports something and there is one.
fn reports_of(alloc: Global, words: &[&str]) -> Result<Option<Vec<Report>>, AllocError> {
    let mut reports = Vec::with_capacity(alloc, words.len())?;
    for word in words {
        let Some(report) = report_in(word) else {
            return Ok(None);
        };
        reports.push(report)?;
    }
    if reports.is_empty() {
        return Ok(None);
    }
    Ok(Some(reports))
}

/// The identifiers that these words spell, if each spells one.
fn xids_of(alloc: Global, words: &[&str]) -> Result<Option<Vec<Xid>>, AllocError> {
    let mut xids = Vec::with_capacity(alloc, words.len())?;
    for word in words {
        let Ok(xid) = Xid::parse(word) else {
            return Ok(None);
        };
        xids.push(xid)?;
    }
    Ok(Some(xids))
}

/// The transaction that 32 hexadecimal digits name.
fn gtrid_of(word: &str) -> Option<Gtrid> {
    let digits = word.as_bytes();
    if digits.len() != 32 {
        return None;
    }
    let (first, second) = digits.split_at(16);
    Some(Gtrid {
        incarnation: number_of(first)?,
        sequence: number_of(second)?,
    })
}

/// The number that hexadecimal digits spell, at most 16 of them.
fn number_of(digits: &[u8]) -> Option<u64> {
    let mut number = 0u64;
    for digit in digits {
        let value = match *digit {
            b'0'..=b'9' => *digit - b'0',
            b'a'..=b'f' => *digit - b'a' + 10,
            _ => return None,
        };
        number = number.wrapping_mul(16).wrapping_add(u64::from(value));
    }
    Some(number)
}

/// A move on a thread alone.
fn on_thread(verb: &str, words: &[&str]) -> Option<Move>
    ensures { IsMoveBy (thread_behind (map (λ word. word.now) words.now)) result }
{
    let [thread] = words else {
        return None;
    };
    let thread = index_of(thread)?;
    match verb {
        "start" => Some(Move::Start { thread }),
        "commit" => Some(Move::Commit { thread }),
        "rollback" => Some(Move::Rollback { thread }),
        _ => None,
    }
}

/// What a word that is a number, and the words behind it, ask for.
fn with_list(alloc: Global, verb: &str, words: &[&str]) -> Result<Option<Move>, AllocError>
    ensures { IfOk result (IsMoveBy (thread_behind (map (λ word. word.now) words.now))) }
{
    let [number, words @ ..] = words else {
        return Ok(None);
    };
    let Some(number) = index_of(number) else {
        return Ok(None);
    };
    Ok(match verb {
        "join" => match numbers_of(alloc, words)? {
            Some(rms) => Some(Move::Join {
                thread: number,
                rms,
            }),
            None => None,
        },
        "tell" => match reports_of(alloc, words)? {
            Some(reports) => Some(Move::Tell {
                thread: number,
                reports,
            }),
            None => None,
        },
        _ => match xids_of(alloc, words)? {
            Some(xids) => Some(Move::Page { rm: number, xids }),
            None => None,
        },
    })
}

/// What `recover` and `end` ask for.
fn on_rm(verb: &str, words: &[&str]) -> Option<Move>
    ensures { thread_moved result ≡ None }
{
    match (verb, words) {
        ("recover", [rm]) => Some(Move::Recover { rm: index_of(rm)? }),
        ("end", [rm, word]) => Some(Move::End {
            rm: index_of(rm)?,
            report: report_in(word)?,
        }),
        _ => None,
    }
}

/// The line, cut at each space.
fn words_of(alloc: Global, line: &str) -> Result<Vec<&str>, AllocError>
    ensures { IfOk result (λ words. map (λ word. word.now) words.items ≡ words_of line.now) }
{
    line.split(' ').collect(alloc)
}

/// What the words of a line, or of a part of it, ask for; none, where that is no move.
pub fn read_move(alloc: Global, line: &str) -> Result<Option<Move>, AllocError>
    ensures { IfOk result (IsReadOf line.now) }
{
    let words = words_of(alloc, line)?;
    let [verb, words @ ..] = words.as_slice() else {
        return Ok(None);
    };
    Ok(match *verb {
        "tell" | "join" | "page" => with_list(alloc, verb, words)?,
        "start" | "commit" | "rollback" => on_thread(verb, words),
        "recover" | "end" => on_rm(verb, words),
        "due" if words.is_empty() => Some(Move::Due),
        "quit" if words.is_empty() => Some(Move::Quit),
        "fate" => match words {
            [word] => match gtrid_of(word) {
                Some(gtrid) => Some(Move::Fate { gtrid }),
                None => None,
            },
            _ => None,
        },
        _ => None,
    })
}

/// The most moves that a line has.
const MOST_MOVES: usize = 1024;

/// The line, cut at each semicolon.
fn cut_in_parts(alloc: Global, line: &str) -> Result<Vec<&str>, AllocError>
    ensures { IfOk result (λ parts. map (λ part. part.now) parts.items
        ≡ slice_split (λ c. c == 59) line.now) }
{
    line.split(';').collect(alloc)
}

/// What each of these parts of a line asks for.
fn read_each(alloc: Global, parts: &[&str]) -> Result<Vec<Option<Move>>, AllocError>
    ensures count { IfOk result (λ moves. length moves.items ≡ length parts.now) }
    ensures read { IfOk result (λ moves.
        ArePairedInOrder IsReadOf (map (λ part. part.now) parts.now) moves.items) }
{
    let mut moves = Vec::with_capacity(alloc, parts.len())?;
    for part in parts {
        let asked = read_move(alloc, part)?;
        moves.push(asked)?;
    }
    Ok(moves)
}

/// What the parts of a line ask for. One that has too many parts asks for nothing.
pub fn read_moves(alloc: Global, line: &str) -> Result<Vec<Option<Move>>, AllocError>
    ensures few { IfOk result (λ moves. length moves.items ≤ 1024) }
    ensures read { IfOk result (λ moves. ArePairedInOrder IsReadOf (parts_of line.now) moves.items) }
{
    let parts = cut_in_parts(alloc, line)?;
    if parts.len() > MOST_MOVES {
        let mut none = Vec::with_capacity(alloc, 1)?;
        none.push(None)?;
        return Ok(none);
    }
    read_each(alloc, parts.as_slice())
}
