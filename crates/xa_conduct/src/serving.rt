//! The loop over the lines of a driver.

ghost use Rattle.std.specs.Prelude.{IfOk, List};
ghost use Rattle.xa_conduct.specs.Acting.{Acts, GoesOn};
ghost use Rattle.xa_conduct.specs.BetweenLines.{KeepsAtRest, RestsBetween};
ghost use Rattle.xa_conduct.specs.Conducting.{Conducts, KeepsConducting};
ghost use Rattle.xa_requests.specs.declared.request.Request.{Request};
ghost use Rattle.xa_server.specs.declared.server.Server.{Server};
ghost use Rattle.xa_session.specs.Session.{IsReady};

use crate::conductor::Conductor;
use crate::lines::{flush_before_waiting, is_nothing, is_short, read_line, write};
use std::alloc::Global;
use std::io::{BufReader, Read, Write};
use std::str::from_utf8;
use xa_log::DecisionLog;
use xa_names::{ManagerName, line_renamed};
use xa_requests::response_text;
use xa_server::{ServeFault, Server};

/// Whether identifiers may stand on a line: what lists branches, and the calls of a recovery.
fn has_identifiers(line: &str) -> bool {
    line.starts_with("page ") || line.starts_with("xa_") || line.starts_with("strange ")
}

/// A line, as a manager of this name means it.
fn meant(alloc: Global, name: &ManagerName, line: String) -> Result<String, ServeFault> {
    if name.as_slice().is_empty() || !has_identifiers(line.as_str()) {
        return Ok(line);
    }
    match line_renamed(alloc, name, line.as_str()) {
        Ok(line) => Ok(line),
        Err(_) => Err(ServeFault::Memory),
    }
}

/// The text of a line, which is empty where it is none.
fn text_of(alloc: Global, line: &[u8]) -> Result<String, ServeFault> {
    let text = match from_utf8(line) {
        Ok(text) => text,
        Err(_) => "",
    };
    match String::from_str(alloc, text) {
        Ok(text) => Ok(text),
        Err(_) => Err(ServeFault::Memory),
    }
}

/// Serves a line of moves. Whether the session goes on.
fn serve_moves<L: DecisionLog + Drop, R: Read, W: Write>(
    conductor: &mut Conductor<L>,
    alloc: Global,
    name: &ManagerName,
    input: &mut BufReader<R>,
    output: &mut W,
) -> Result<bool, ServeFault>
    requires { IsReady conductor.old.server.session }
    ensures ready { IsReady conductor.new.server.session }
    ensures acts { GoesOn L.moment conductor.old.server conductor.new.server }
    ensures rests { IfOk result (λ _. KeepsConducting L.moment conductor.old conductor.new) }
    ensures at_rest { IfOk result (λ _. KeepsAtRest L.moment conductor.old conductor.new) }
{
    flush_before_waiting(input, output)?;
    let line = read_line(alloc, input)?;
    if is_nothing(&line) {
        return Ok(false);
    }
    let text = if is_short(&line) {
        text_of(alloc, line.bytes.as_slice())?
    } else {
        text_of(alloc, b"")?
    };
    let asked = meant(alloc, name, text)?;
    let Ok(reply) = conductor.turn(asked.as_str()) else {
        return Err(ServeFault::Memory);
    };
    let told = meant(alloc, name, reply)?;
    write(told.as_bytes(), output)?;
    write(b"\n", output)?;
    Ok(line.is_ended && !conductor.has_ended())
}

/// Serves a driver by moves, a line for each line, until it quits, its lines end, or nothing more can be told. The conductor that is given
/// back has the server, and says whether the session is over since a branch was strange.
pub fn serve<L: DecisionLog + Drop, R: Read, W: Write>(
    server: Server<L>,
    alloc: Global,
    name: &ManagerName,
    threads: u32,
    rms: u32,
    input: &mut BufReader<R>,
    output: &mut W,
) -> Result<Conductor<L>, ServeFault>
    requires { IsReady server.session }
    ensures ready { IfOk result (λ c. IsReady c.server.session) }
    ensures acts { IfOk result (λ c. GoesOn L.moment server c.server) }
    ensures rests { IfOk result (λ c. (done : List Request) → (first : Server L) →
        Acts L.moment done first server → Conducts L.moment first c) }
    ensures at_rest { IfOk result (RestsBetween L.moment) }
{
    let Ok(greeting) = response_text(alloc, &server.greeting()) else {
        return Err(ServeFault::Memory);
    };
    write(greeting.as_bytes(), output)?;
    write(b"\n", output)?;
    let Ok(mut conductor) = Conductor::new(alloc, server, threads, rms) else {
        return Err(ServeFault::Memory);
    };
    for _ in 0..u64::MAX {
        if !serve_moves(&mut conductor, alloc, name, input, output)? {
            return Ok(conductor);
        }
    }
    Err(ServeFault::Input)
}
