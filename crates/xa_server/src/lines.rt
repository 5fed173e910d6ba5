//! How the lines of a driver are read, and those of the server written.

ghost use Rattle.std.specs.Prelude.{◌≡◌, ◌≢◌, ◌⊎◌, ◌<◌, length, map, IfErr, IfOk, OnErr, OnOk};
ghost use Rattle.std.specs.Io.KnownBytes.{Appends, Keeps};
ghost use Rattle.std.specs.IoError.{error_kind};
ghost use Rattle.std.specs.String.{string_bytes};
ghost use Rattle.xa_server.specs.Lines.{KeepsShort, ReadsBeginning, ReadsLine, ReadsOne, asked_in, cut_at_marks, is_nothing, lone_reply, requests_in};
ghost use Rattle.xa_server.specs.NamedLines.{line_read, line_written};
ghost use Rattle.xa_files.specs.Outputs.{AppendsBeginning};
ghost use Rattle.xa_names.specs.Lines.{line_renamed};

use crate::serving::ServeFault;
use std::alloc::{AllocError, Global};
use std::io::{self, Error, ErrorKind, Read, Write};
use std::str::from_utf8;
use xa_base::Memory;
use xa_files::write_unflushed;
use xa_names::laws::without_a_name_nothing_changes;
use xa_names::{ManagerName, line_renamed};
use xa_requests::{Request, Response, read_request, response_text};

/// The most bytes that a line has, without its line feed. A longer one is no request.
pub(crate) const LINE_LIMIT: usize = 65_536;

/// A line that was read.
#[derive(Drop)]
pub(crate) struct Line {
    /// Its bytes, without the line feed. Of a line that is too long more than a line may have, and not all.
    pub bytes: Vec<u8>,
    /// Whether a line feed ended it, and not the end of the input.
    pub is_ended: bool,
}

/// What a line is replied.
#[derive(Drop)]
pub(crate) struct LineReply {
    /// How many of its requests were done before the last.
    pub before: usize,
    /// The reply to the last of its requests that was done, or was refused.
    pub reply: Response,
}

impl LineReply {
    /// The reply to a line of one request.
    pub fn alone(reply: Response) -> LineReply
        ensures { result ≡ lone_reply reply }
    {
        LineReply { before: 0, reply }
    }
}

/// Whether nothing was left to read.
pub(crate) fn is_nothing(line: &Line) -> bool
    ensures { result ≡ is_nothing line.now.bytes.items line.now.is_ended }
{
    line.bytes.is_empty() && !line.is_ended
}

/// The error of a read, unless that was only interrupted: then it is tried again.
fn unless_interrupted(error: Error) -> io::Result<()>
    ensures again { OnOk result (error_kind error ≡ ErrorKind.Interrupted) }
    ensures err { IfErr result
        (λ told. (told ≡ error) × (error_kind told ≢ ErrorKind.Interrupted)) }
{
    match error.kind() {
        ErrorKind::Interrupted => Ok(()),
        _ => Err(error),
    }
}

/// The next byte, if there is one. A read that was interrupted is tried again.
fn read_byte<R: Read>(input: &mut R) -> io::Result<Option<u8>>
    ensures ok { IfOk result (ReadsOne (R.remaining input.old) (R.remaining input.new)) }
    ensures err { OnErr result (Keeps (R.remaining input.old) (R.remaining input.new)) }
    ensures retried { IfErr result (λ error. error_kind error ≢ ErrorKind.Interrupted) }
{
    let mut bytes = [0; 1];
    for _ in 0..u64::MAX {
        match input.read(&mut bytes) {
            Ok(0) => return Ok(None),
            Ok(_) => return Ok(Some(bytes[0])),
            Err(error) => unless_interrupted(error)?,
        }
    }
    Err(Error::from(ErrorKind::TimedOut))
}

/// Adds a byte to what is kept of a line, unless that is too long already.
fn keep(kept: &mut Vec<u8>, byte: u8) -> Result<(), AllocError>
    ensures ok { OnOk result (KeepsShort byte kept.old.items kept.new.items) }
    ensures long { LINE_LIMIT < length kept.old.items →
        (result ≡ Ok tt) × (kept.new ≡ kept.old) }
{
    if kept.len() <= LINE_LIMIT {
        kept.push(byte)?;
    }
    Ok(())
}

/// The next line. At the end of the input it is empty, and not ended.
pub(crate) fn read_line<R: Read>(alloc: Global, input: &mut R) -> Result<Line, ServeFault>
    ensures ok { IfOk result (λ line. ReadsLine (R.remaining input.old) (R.remaining input.new)
        line.bytes.items line.is_ended) }
    ensures err { OnErr result (ReadsBeginning (R.remaining input.old) (R.remaining input.new)) }
{
    let mut bytes = Vec::new(alloc);
    for _ in 0..u64::MAX {
        match read_byte(input) {
            Err(_) => return Err(ServeFault::Input),
            Ok(None) => {
                return Ok(Line {
                    bytes,
                    is_ended: false,
                });
            }
            Ok(Some(b'\n')) => {
                return Ok(Line {
                    bytes,
                    is_ended: true,
                });
            }
            Ok(Some(byte)) => keep(&mut bytes, byte)?,
        }
    }
    Err(ServeFault::Input)
}

/// What a line asks for; none, where it is no request.
fn asked_in(alloc: Global, line: &[u8]) -> Result<Option<Request>, Memory>
    ensures { IfOk result (λ request. request ≡ asked_in line.now) }
{
    if line.len() > LINE_LIMIT {
        return Ok(None);
    }
    match from_utf8(line) {
        Ok(text) => read_request(alloc, text),
        Err(_) => Ok(None),
    }
}

/// What a line asks a manager of this name for; none, where it is no request.
pub(crate) fn asked_by(
    alloc: Global,
    name: &ManagerName,
    line: &[u8],
) -> Result<Option<Request>, Memory>
    ensures { IfOk result (λ request. request ≡ asked_in (line_read name.now line.now)) }
{
    without_a_name_nothing_changes();
    if name.as_slice().is_empty() {
        return asked_in(alloc, line);
    }
    if line.len() > LINE_LIMIT {
        return Ok(None);
    }
    match from_utf8(line) {
        Ok(text) => {
            let meant = line_renamed(alloc, name, text)?;
            asked_in(alloc, meant.as_bytes())
        }
        Err(_) => Ok(None),
    }
}

/// The requests of a line, each as a line of its own: a `;` stands between two.
fn cut_at_marks(alloc: Global, line: &[u8]) -> Result<Vec<&[u8]>, AllocError>
    ensures { IfOk result (λ requests. map (λ request. request.now) requests.items
        ≡ cut_at_marks line.now) }
{
    line.split(|byte| *byte == b';').collect(alloc)
}

/// What the requests of a line ask a manager of this name for, in turn.
pub(crate) fn all_asked_by(
    alloc: Global,
    name: &ManagerName,
    line: &[u8],
) -> Result<Vec<Option<Request>>, Memory>
    ensures asked { IfOk result (λ asked. asked.items
        ≡ map (λ request. asked_in (line_read name.now request)) (requests_in line.now)) }
    ensures some { IfOk result (λ asked. 0 < length asked.items) }
{
    let mut asked = Vec::new(alloc);
    if line.len() > LINE_LIMIT {
        asked.push(None)?;
        return Ok(asked);
    }
    let requests = cut_at_marks(alloc, line)?;
    for request in requests.as_slice() {
        let what = asked_by(alloc, name, request)?;
        asked.push(what)?;
    }
    Ok(asked)
}

/// A line, as a manager of this name means it.
fn meant_by(alloc: Global, name: &ManagerName, line: String) -> Result<String, Memory>
    ensures { IfOk result (λ text. string_bytes text ≡ line_renamed name.now (string_bytes line)) }
{
    without_a_name_nothing_changes();
    if name.as_slice().is_empty() {
        return Ok(line);
    }
    line_renamed(alloc, name, line.as_str())
}

/// The line of a reply of a manager of this name, with its line feed.
fn line_written(alloc: Global, name: &ManagerName, told: &LineReply) -> Result<String, Memory>
    ensures { IfOk result (λ text. string_bytes text ≡ line_written name.now told.now) }
{
    let line = response_text(alloc, &told.reply)?;
    let meant = meant_by(alloc, name, line)?;
    let mut text = ";".repeat(alloc, told.before)?;
    text.push_str(meant.as_str())?;
    text.push_str("\n")?;
    Ok(text)
}

/// Writes the line of a reply, and flushes nothing.
pub(crate) fn write_reply<W: Write>(
    alloc: Global,
    name: &ManagerName,
    told: &LineReply,
    output: &mut W,
) -> Result<(), ServeFault>
    ensures ok { OnOk result (Appends (W.contents output.old) (W.contents output.new)
        (line_written name.now told.now)) }
    ensures err { OnErr result (AppendsBeginning (W.contents output.old)
        (W.contents output.new) (line_written name.now told.now)) }
    ensures fault { IfErr result
        (λ fault. (fault ≡ ServeFault.Memory) ⊎ (fault ≡ ServeFault.Output)) }
{
    let Ok(text) = line_written(alloc, name, told) else {
        return Err(ServeFault::Memory);
    };
    match write_unflushed(text.as_bytes(), output) {
        Ok(()) => Ok(()),
        Err(_) => Err(ServeFault::Output),
    }
}
