//! How the lines of a driver are read.

use std::alloc::{AllocError, Global};
use std::io::{BufReader, ErrorKind, Read, Write};
use xa_server::ServeFault;

/// The most bytes that a line has, without its line feed. A longer one is no move.
const LINE_LIMIT: usize = 65_536;

/// A line that was read.
#[derive(Drop)]
pub(crate) struct Line {
    /// Its bytes, without the line feed. Of a line that is too long more than a line may have, and not all.
    pub bytes: Vec<u8>,
    /// Whether a line feed ended it, and not the end of the input.
    pub is_ended: bool,
}

/// Whether the line has no more bytes than it may have.
pub(crate) fn is_short(line: &Line) -> bool {
    line.bytes.len() <= LINE_LIMIT
}

/// Whether nothing was left to read.
pub(crate) fn is_nothing(line: &Line) -> bool {
    line.bytes.is_empty() && !line.is_ended
}

/// The next byte, if there is one.
fn read_byte<R: Read>(input: &mut R) -> Result<Option<u8>, ServeFault> {
    let mut bytes = [0; 1];
    for _ in 0..u64::MAX {
        match input.read(&mut bytes) {
            Ok(0) => return Ok(None),
            Ok(_) => return Ok(Some(bytes[0])),
            Err(error) => {
                if error.kind() != ErrorKind::Interrupted {
                    break;
                }
            }
        }
    }
    Err(ServeFault::Input)
}

/// Adds a byte to what is kept of a line, unless that is too long already.
fn keep(kept: &mut Vec<u8>, byte: u8) -> Result<(), AllocError> {
    if kept.len() <= LINE_LIMIT {
        kept.push(byte)?;
    }
    Ok(())
}

/// The next line. At the end of the input it is empty, and not ended.
pub(crate) fn read_line<R: Read>(alloc: Global, input: &mut R) -> Result<Line, ServeFault> {
    let mut bytes = Vec::new(alloc);
    for _ in 0..u64::MAX {
        match read_byte(input)? {
            None => {
                return Ok(Line {
                    bytes,
                    is_ended: false,
                });
            }
            Some(b'\n') => {
                return Ok(Line {
                    bytes,
                    is_ended: true,
                });
            }
            Some(byte) => keep(&mut bytes, byte)?,
        }
    }
    Err(ServeFault::Input)
}

/// Flushes what was written, unless a whole line was read ahead: then no input is waited for.
pub(crate) fn flush_before_waiting<R: Read, W: Write>(
    input: &BufReader<R>,
    output: &mut W,
) -> Result<(), ServeFault> {
    if input.buffer().contains(&b'\n') {
        return Ok(());
    }
    match output.flush() {
        Ok(()) => Ok(()),
        Err(_) => Err(ServeFault::Output),
    }
}

/// Writes bytes, and flushes nothing.
pub(crate) fn write<W: Write>(bytes: &[u8], output: &mut W) -> Result<(), ServeFault> {
    match output.write_all(bytes) {
        Ok(()) => Ok(()),
        Err(_) => Err(ServeFault::Output),
    }
}
