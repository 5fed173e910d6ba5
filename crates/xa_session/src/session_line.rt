//! The line of one thread of a session to one resource manager.

ghost use Rattle.std.specs.Prelude.{◌≡◌, []};
ghost use Rattle.xa_line.specs.Traffic.{calls_issued};
ghost use Rattle.xa_session.specs.Hearing.{with_answer_heard};

use std::marker::Model;
use xa_base::{Answer, Call, LINE_LIMIT, Refusal};
use xa_line::Line;

/// A line that takes memory only while it is open: its rings are made with its first xa_open, and
/// dropped with its connection.
#[derive(Drop)]
pub struct SessionLine {
    line: Option<Line>,
}

impl Model for SessionLine {
    ghost use Rattle.std.specs.Prelude.{◌≡◌, IfSome, true, unwrap_or};
    ghost use Rattle.xa_base.specs.Opening.{has_opened};
    ghost use Rattle.xa_line.specs.Traffic.{Traffic, calls_issued, no_traffic};

    ghost Value = { Traffic };

    ghost view = { λ l. unwrap_or l.line no_traffic };

    ghost invariant = { λ l. IfSome l.line (λ line. has_opened (calls_issued line) ≡ true) };
}

impl SessionLine {
    ghost use Rattle.std.specs.Prelude.{◌+◌, ◌++◌, ◌≤◌, IfSome, IsSome, None, OnErr, OnOk, length, slice_get, vec_len};
    ghost use Rattle.std.specs.Prelude.{false, true};
    ghost use Rattle.std.specs.Option.{option_copied};
    ghost use Rattle.std.specs.Result.{result_err};
    ghost use Rattle.xa_base.specs.Opening.{has_closed, has_opened};
    ghost use Rattle.xa_line.specs.Traffic.{no_traffic, places, with_more, with_one_more};
    ghost use Rattle.xa_line.specs.Traffic.{barred, opening_refusal, refusal, room_refusal};

    /// A line that isn't open. It takes no memory.
    pub(crate) fn new() -> SessionLine
        ensures { result ≡ no_traffic }
    {
        SessionLine { line: None }
    }

    /// Lets a call wait, as [`Line::issue`] does. The first xa_open takes the room.
    pub(crate) fn issue(&mut self, call: Call, room: Option<Line>) -> Result<(), Refusal>
        requires new { IfSome room (λ line. line ≡ no_traffic) }
        requires made { room ≡ None → has_opened (calls_issued self.old) ≡ true }
        ensures reason { result_err result ≡ refusal self.old call }
        ensures accepted { OnOk result (self.new ≡
            record self.old { calls = with_one_more self.old.calls call }) }
        ensures refused { OnErr result (self.new ≡ self.old) }
    {
        match &mut self.line {
            Some(line) => line.issue(call),
            None => self.open(call, room),
        }
    }

    /// The same on a line that isn't made yet.
    fn open(&mut self, call: Call, room: Option<Line>) -> Result<(), Refusal>
        requires new { IfSome room (λ line. line ≡ no_traffic) }
        requires made { IsSome room }
        requires unmade { self.old ≡ no_traffic }
        ensures reason { result_err result ≡ refusal self.old call }
        ensures accepted { OnOk result (self.new ≡
            record self.old { calls = with_one_more self.old.calls call }) }
        ensures refused { OnErr result (self.new ≡ self.old) }
    {
        let mut line = room.unwrap();
        line.issue(call)?;
        self.line = Some(line);
        Ok(())
    }

    /// The call that waits first is taken, answered and heard.
    pub(crate) fn answer_first(&mut self, answer: Answer)
        requires { self.old.answers.waiting ≡ [] }
        ensures { self.new ≡ with_answer_heard self.old answer }
    {
        if let Some(line) = &mut self.line {
            answer_first(line, answer);
        }
    }

    /// Makes the line as new: not open, with nothing that waits. The calls that wait are lost.
    pub(crate) fn renew(&mut self)
        ensures { self.new ≡ no_traffic }
    {
        self.line = None;
    }

    /// The oldest waiting call.
    pub(crate) fn front(&self) -> Option<&Call>
        ensures { option_copied result ≡ slice_get self.now.calls.waiting 0 }
    {
        match &self.line {
            Some(line) => line.front(),
            None => None,
        }
    }

    /// Whether an xa_open was issued since the line was new or renewed. A closed line is open too.
    pub(crate) fn is_open(&self) -> bool
        ensures { result ≡ has_opened (calls_issued self.now) }
    {
        self.line.is_some()
    }

    /// Says why a call may not follow those that were issued, as [`Line::check`] does.
    pub(crate) fn check(&self, call: &Call) -> Result<(), Refusal>
        ensures { result_err result ≡ barred (calls_issued self.now) call.now }
    {
        if let Some(line) = &self.line {
            return line.check(call);
        }
        if !matches!(call, Call::OpenRm) {
            return Err(Refusal::NotOpen);
        }
        Ok(())
    }

    /// The same for any call but xa_open.
    pub(crate) fn check_open(&self) -> Result<(), Refusal>
        ensures { result_err result ≡ opening_refusal (calls_issued self.now) }
    {
        match &self.line {
            Some(line) => line.check_open(),
            None => Err(Refusal::NotOpen),
        }
    }

    /// Refuses this many calls more, as [`Refusal::Full`], if they are too many to wait.
    pub(crate) fn check_room(&self, count: usize) -> Result<(), Refusal>
        ensures { result_err result ≡ room_refusal self.now count }
    {
        match &self.line {
            Some(line) => line.check_room(count),
            None if count > LINE_LIMIT => Err(Refusal::Full),
            None => Ok(()),
        }
    }

    /// Lets these calls wait, in turn, as [`Line::issue_all`] does.
    pub(crate) fn issue_all(&mut self, calls: Vec<Call>)
        requires room { length self.old.calls.waiting + vec_len calls ≤ places }
        requires open { has_opened (calls_issued self.old) ≡ true }
        requires unclosed { has_closed (calls_issued self.old ++ calls.items) ≡ false }
        ensures { self.new ≡ record self.old { calls = with_more self.old.calls calls.items } }
    {
        if let Some(line) = &mut self.line {
            line.issue_all(calls);
        }
    }
}

/// The call that waits first is taken, answered and heard.
fn answer_first(line: &mut Line, answer: Answer)
    requires { line.old.answers.waiting ≡ [] }
    ensures value { line.new ≡ with_answer_heard line.old answer }
    ensures issued { calls_issued line.new ≡ calls_issued line.old }
{
    if let Some(call) = line.take() {
        let _ = line.answer(call, answer);
        let _ = line.hear();
    }
}
