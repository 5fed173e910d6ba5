//! The loop over the lines of a driver.

ghost use Rattle.std.specs.Prelude.{◌≡◌, ◌==◌, ◌<◌, ◌&&◌, length, map, not, Err, IfErr, IfOk, OnErr, OnOk};
ghost use Rattle.std.specs.Io.Buffered.{reader_buffer, reader_remaining};
ghost use Rattle.std.specs.Io.KnownBytes.{Keeps};
ghost use Rattle.std.specs.List.{list_any};
ghost use Rattle.xa_server.specs.Replies.{greeting_of};
ghost use Rattle.xa_server.specs.Lines.{asked_in, requests_in};
ghost use Rattle.xa_server.specs.NamedLines.{BreaksSessionUnder, InputFailsUnder, ServesUnder, line_read};
ghost use Rattle.xa_server.specs.Serving.{BreaksSession, InputFails, RepliesBy, RepliesToLine, Serves, ends_line, is_bye};
ghost use Rattle.xa_server.specs.ServingLines.{BreaksOff, FindsNoLine, ServesLine};
ghost use Rattle.xa_session.specs.Session.{IsReady};

use crate::lines::{LineReply, all_asked_by, is_nothing, read_line, write_reply};
use crate::server::Server;
use crate::strange::Beginnings;
use std::alloc::AllocError;
use std::io::{BufReader, Read, Write};
use thiserror::Error;
use xa_log::DecisionLog;
use xa_names::ManagerName;
use xa_names::laws::without_a_name_nothing_changes;
use xa_requests::{Request, RequestFault, Response};

/// Why a session ends early.
#[derive(Clone, Copy, Debug, PartialEq, Eq, Error)]
pub enum ServeFault {
    /// The requests can't be read.
    #[error("the requests can't be read")]
    Input,
    /// A reply can't be written.
    #[error("a reply can't be written")]
    Output,
    /// A request for memory was refused outside of a step.
    #[error("out of memory")]
    Memory,
    /// A page was refused that lists a branch which no session over the log began.
    #[error("a resource manager lists a branch that no session over the log began")]
    Strange,
}

impl From<AllocError> for ServeFault {
    ghost use Rattle.xa_server.specs.declared.serving.ServeFault.TheVariants.{Memory};

    ghost from_gives = { λ fault made. made ≡ Memory };

    fn from(_fault: AllocError) -> ServeFault {
        ServeFault::Memory
    }
}

/// Whether the session goes on behind a line: not behind `quit`, and not where the end of the input ended it.
fn goes_on(is_ended: bool, reply: &Response) -> bool
    ensures { result ≡ (is_ended && not (is_bye reply.now)) }
{
    is_ended && !matches!(reply, Response::Bye)
}

/// Whether the requests behind this reply on its line aren't done: it is a refusal, or ends the session.
fn ends_line(reply: &Response) -> bool
    ensures { result ≡ ends_line reply.now }
{
    matches!(
        reply,
        Response::Refused(_) | Response::Fault(_) | Response::Bye
    )
}

/// Flushes what was written, unless a whole line was read ahead: then no input is waited for. Says whether it did.
fn flush_before_waiting<R: Read, W: Write>(
    input: &BufReader<R>,
    output: &mut W,
) -> Result<bool, ServeFault>
    ensures keeps { Keeps (W.contents output.old) (W.contents output.new) }
    ensures told { IfOk result (λ flushed. flushed ≡
        not (list_any (λ byte. byte == 10) (reader_buffer input.now))) }
    ensures fault { IfErr result (λ fault. fault ≡ ServeFault.Output) }
{
    if input.buffer().contains(&b'\n') {
        return Ok(false);
    }
    match output.flush() {
        Ok(()) => Ok(true),
        Err(_) => Err(ServeFault::Output),
    }
}

impl<L: DecisionLog + Drop> Server<L> {
    /// Does what a request asks for, and gives its reply.
    fn reply_by(&mut self, beginnings: &mut Beginnings, asked: &Option<Request>) -> Response
        requires { IsReady self.old.session }
        ensures ready { IsReady self.new.session }
        ensures replies { RepliesBy L.moment asked.now self.old result self.new }
    {
        match asked {
            Some(request) => {
                let reply = self.perform(request);
                beginnings.hear(request, &reply);
                reply
            }
            None => Response::Fault(RequestFault::NoRequest),
        }
    }

    /// Does what the requests of a line ask for, in turn, up to the first that is refused. Gives the reply to the last.
    fn reply_in_turn(&mut self, beginnings: &mut Beginnings, asked: &[Option<Request>]) -> LineReply
        requires ready { IsReady self.old.session }
        requires some { 0 < length asked.now }
        ensures ready { IsReady self.new.session }
        ensures replies { RepliesToLine L.moment asked.now self.old result self.new }
    {
        let [first, others @ ..] = asked else {
            return LineReply::alone(Response::Fault(RequestFault::NoRequest));
        };
        let mut told = LineReply::alone(self.reply_by(beginnings, first));
        for request in others {
            if ends_line(&told.reply) {
                return told;
            }
            told = LineReply {
                before: told.before + 1,
                reply: self.reply_by(beginnings, request),
            };
        }
        told
    }

    /// Does what a line asks for, and gives its reply.
    fn reply_to(
        &mut self,
        beginnings: &mut Beginnings,
        name: &ManagerName,
        line: &[u8],
    ) -> Result<LineReply, ServeFault>
        requires { IsReady self.old.session }
        ensures ready { IsReady self.new.session }
        ensures ok { IfOk result (λ told. RepliesToLine L.moment
            (map (λ request. asked_in (line_read name.now request)) (requests_in line.now))
            self.old told self.new) }
        ensures err { OnErr result (self.new ≡ self.old) }
        ensures fault { IfErr result (λ fault. fault ≡ ServeFault.Memory) }
    {
        match all_asked_by(self.alloc, name, line) {
            Ok(asked) => Ok(self.reply_in_turn(beginnings, asked.as_slice())),
            Err(_) => Err(ServeFault::Memory),
        }
    }

    /// Reads a line, does what it asks for, and writes its reply. What was written before is flushed
    /// first, if the line may have to be waited for. Says whether the session goes on: not after
    /// `quit`, and not at the end of the input. It is broken off after the reply that refuses a page
    /// with a strange branch.
    fn serve_line<R: Read, W: Write>(
        &mut self,
        beginnings: &mut Beginnings,
        name: &ManagerName,
        input: &mut BufReader<R>,
        output: &mut W,
    ) -> Result<bool, ServeFault>
        requires { IsReady self.old.session }
        ensures ready { IsReady self.new.session }
        ensures ok { IfOk result (ServesLine L.moment name.now
            (reader_remaining R.remaining input.old) (reader_remaining R.remaining input.new)
            (W.contents output.old) (W.contents output.new) self.old self.new) }
        ensures err { OnErr result
            (BreaksOff L.moment name.now (reader_remaining R.remaining input.old)
            (W.contents output.old) (W.contents output.new) self.old self.new) }
        ensures input { result ≡ Err ServeFault.Input → FindsNoLine
            (reader_remaining R.remaining input.old) (reader_remaining R.remaining input.new)
            (W.contents output.old) (W.contents output.new) self.old self.new }
    {
        flush_before_waiting(input, output)?;
        let line = read_line(self.alloc, input)?;
        if is_nothing(&line) {
            return Ok(false);
        }
        let told = self.reply_to(beginnings, name, &line.bytes)?;
        write_reply(self.alloc, name, &told, output)?;
        if beginnings.is_strange {
            return Err(ServeFault::Strange);
        }
        Ok(goes_on(line.is_ended, &told.reply))
    }

    /// Serves a driver: first a line that says how the session starts, and then one line for each line that is read, in
    /// their order, until `quit` or the end of the input. A line may hold several requests, with a `;` between two: they
    /// are done in turn, up to the first that is refused, and the reply is that to the last of these, behind a `;` for
    /// each before it. What was written is flushed before input is waited for: so what was read together is replied by
    /// one write. What is written last the caller flushes. A line is ended by a line feed, which the last one may lack.
    ///
    /// Input comes if the requests can't be read, Output if a reply can't be written, Memory if a request for memory
    /// was refused outside of a step, and Strange once a page was refused that lists a branch which no session over the
    /// log began: then the session is over, and whoever has the log keeps others from starting over it. What was done
    /// then is what whole lines that were read ask for, in their order, and each reply was written but the last, of which
    /// a beginning was, or all. At Input each of these replies was written whole: of the line behind them at most a
    /// beginning was read. A read that was interrupted is tried again.
    pub fn serve<R: Read, W: Write>(
        &mut self,
        input: &mut BufReader<R>,
        output: &mut W,
    ) -> Result<(), ServeFault>
        requires { IsReady self.old.session }
        ensures ready { IsReady self.new.session }
        ensures served { OnOk result (Serves L.moment (greeting_of self.old)
            (reader_remaining R.remaining input.old) (reader_remaining R.remaining input.new)
            (W.contents output.old) (W.contents output.new) self.old self.new) }
        ensures broken { OnErr result (BreaksSession L.moment (greeting_of self.old)
            (reader_remaining R.remaining input.old)
            (W.contents output.old) (W.contents output.new) self.old self.new) }
        ensures input { result ≡ Err ServeFault.Input → InputFails L.moment (greeting_of self.old)
            (reader_remaining R.remaining input.old) (reader_remaining R.remaining input.new)
            (W.contents output.old) (W.contents output.new) self.old self.new }
    {
        without_a_name_nothing_changes();
        self.serve_under(&ManagerName::none(), input, output)
    }

    /// The same for a manager of this name: in each line that is read, and in each that is written, an identifier stands
    /// for another one (`renamed` of [`xa_names`]). So the branches of this manager have its name in their identifiers,
    /// and those of managers of other names, and of one without, are others' to it.
    pub fn serve_under<R: Read, W: Write>(
        &mut self,
        name: &ManagerName,
        input: &mut BufReader<R>,
        output: &mut W,
    ) -> Result<(), ServeFault>
        requires { IsReady self.old.session }
        ensures ready { IsReady self.new.session }
        ensures served { OnOk result (ServesUnder L.moment name.now (greeting_of self.old)
            (reader_remaining R.remaining input.old) (reader_remaining R.remaining input.new)
            (W.contents output.old) (W.contents output.new) self.old self.new) }
        ensures broken { OnErr result (BreaksSessionUnder L.moment name.now (greeting_of self.old)
            (reader_remaining R.remaining input.old)
            (W.contents output.old) (W.contents output.new) self.old self.new) }
        ensures input { result ≡ Err ServeFault.Input → InputFailsUnder L.moment name.now
            (greeting_of self.old)
            (reader_remaining R.remaining input.old) (reader_remaining R.remaining input.new)
            (W.contents output.old) (W.contents output.new) self.old self.new }
    {
        let mut beginnings = Beginnings::before(self.session.incarnation());
        let greeting = LineReply::alone(self.greeting());
        write_reply(self.alloc, name, &greeting, output)?;
        for _ in 0..u64::MAX {
            if !self.serve_line(&mut beginnings, name, input, output)? {
                return Ok(());
            }
        }
        Err(ServeFault::Input)
    }
}
