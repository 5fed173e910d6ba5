//! The conductor: a line of moves in turn. A file for the pages of recoveries, and one for what they end.

ghost use Rattle.std.specs.Prelude.{◌≡◌, ◌≤◌, ℕ, true, false, length, IfOk, List, string_bytes};
ghost use Rattle.xa_conduct.specs.Acting.{Acts, GoesOn};
ghost use Rattle.xa_conduct.specs.BetweenLines.{AreAtRest, KeepsAtRest};
ghost use Rattle.xa_conduct.specs.Conducting.{Conducts, TurnsSo};
ghost use Rattle.xa_conduct.specs.Moves.{ArePairedInOrder, IsReadOf, parts_of};
ghost use Rattle.xa_conduct.specs.Turns.{StepsOn};
ghost use Rattle.xa_requests.specs.declared.request.Request.{Request};
ghost use Rattle.xa_server.specs.declared.server.Server.{Server};
ghost use Rattle.xa_session.specs.Session.{IsReady};

mod ends;
mod pages;

use crate::asking::{ask_all, reply_to};
use crate::moves::{Move, read_moves};
use crate::notes::Notes;
use crate::plan::Plan;
use std::alloc::Global;
use xa_base::Memory;
use xa_log::DecisionLog;
use xa_requests::{Request, Response};
use xa_server::Server;

/// A conductor over a server.
#[derive(Drop)]
pub struct Conductor<L: DecisionLog + Drop> {
    alloc: Global,
    server: Server<L>,
    notes: Notes,
}

impl<L: DecisionLog + Drop> Conductor<L> {
    /// A conductor over a new server of so many threads and resource managers.
    pub fn new(
        alloc: Global,
        mut server: Server<L>,
        threads: u32,
        rms: u32,
    ) -> Result<Conductor<L>, Memory>
        requires { IsReady server.session }
        ensures ready { IfOk result (λ c. IsReady c.server.session) }
        ensures acts { IfOk result (λ c. GoesOn L.moment server c.server) }
        ensures rests { IfOk result (λ c. (done : List Request) → (first : Server L) →
            Acts L.moment done first server → Conducts L.moment first c) }
        ensures at_rest { IfOk result (AreAtRest L.moment) }
    {
        let (incarnation, rows) = start_of(&server.greeting());
        let mut notes = Notes::new(alloc, incarnation, threads, rms)?;
        find_rows(&mut server, &mut notes, rms)?;
        notes.has_found_all = notes.found.len() == rows;
        Ok(Conductor {
            alloc,
            server,
            notes,
        })
    }

    /// Its server, where it ends.
    pub fn into_server(self) -> Server<L>
        ensures { result ≡ self.server }
    {
        self.server
    }

    /// Whether the session is over: its driver has quit, or nothing more can be told.
    pub fn has_ended(&self) -> bool {
        self.notes.has_quit || self.notes.is_stopped
    }

    /// Whether the session is over since a branch was strange.
    pub fn is_strange(&self) -> bool {
        self.notes.is_strange
    }

    /// The reply to a line of moves.
    pub fn turn(&mut self, line: &str) -> Result<String, Memory>
        requires { IsReady self.old.server.session }
        ensures ready { IsReady self.new.server.session }
        ensures acts { GoesOn L.moment self.old.server self.new.server }
        ensures rests { IfOk result (λ text.
            TurnsSo L.moment self.old self.new line.now (string_bytes text)) }
        ensures steps { IfOk result (λ text.
            StepsOn L.moment self.old self.new (string_bytes text)) }
        ensures at_rest { IfOk result (λ _. KeepsAtRest L.moment self.old self.new) }
    {
        if self.notes.is_stopped {
            return self.text("stopped");
        }
        let moves = read_moves(self.alloc, line)?;
        match moves.as_slice() {
            [Some(Move::Recover { rm })] => self.recover(*rm),
            [Some(Move::Page { rm, xids })] => self.hear_page(*rm, xids.as_slice()),
            [Some(Move::End { rm, report })] => self.hear_end(*rm, *report),
            [Some(Move::Due)] => self.tell_due(),
            [Some(Move::Fate { gtrid })] => self.notes.tell_fate(*gtrid),
            [Some(Move::Quit)] => self.quit(),
            _ => self.move_threads(moves.as_slice()),
        }
    }

    /// The moves of threads, which are one line. All that follows from them is asked of the server before one is replied.
    fn move_threads(&mut self, moves: &[Option<Move>]) -> Result<String, Memory>
        requires few { length moves.now ≤ 1024 }
        requires going { self.old.notes.is_stopped ≡ false }
        requires ready { IsReady self.old.server.session }
        ensures ready { IsReady self.new.server.session }
        ensures acts { GoesOn L.moment self.old.server self.new.server }
        ensures rests { IfOk result (λ text. (line : List ℕ) →
            ArePairedInOrder IsReadOf (parts_of line) moves.now →
            TurnsSo L.moment self.old self.new line (string_bytes text)) }
        ensures steps { IfOk result (λ text.
            StepsOn L.moment self.old self.new (string_bytes text)) }
    {
        let mut plan = Plan::new(self.alloc);
        let replies = self.notes.take_all(moves, &mut plan)?;
        self.notes.decide(replies.as_slice(), &mut plan)?;
        self.notes.finish(replies.as_slice(), &mut plan)?;
        let nexts = self.notes.begin_next(replies.as_slice(), &mut plan)?;
        if !ask_all(&mut self.server, &plan) {
            return self.stop();
        }
        let text = self.notes.reply(replies.as_slice(), nexts.as_slice())?;
        Ok(text)
    }

    /// A request was refused that couldn't be: nothing more is told.
    fn stop(&mut self) -> Result<String, Memory>
        requires { IsReady self.old.server.session }
        ensures ready { IsReady self.new.server.session }
        ensures acts { GoesOn L.moment self.old.server self.new.server }
        ensures kept { self.new.notes.transactions ≡ self.old.notes.transactions }
        ensures stopped { self.new.notes.is_stopped ≡ true }
    {
        self.notes.is_stopped = true;
        self.text("stopped")
    }

    /// The rows of transactions that are over leave the log. False, if they can't.
    fn ask_over(&mut self) -> Result<bool, Memory>
        requires { IsReady self.old.server.session }
        ensures ready { IsReady self.new.server.session }
        ensures acts { GoesOn L.moment self.old.server self.new.server }
        ensures kept { self.new.notes.transactions ≡ self.old.notes.transactions }
    {
        let mut plan = Plan::new(self.alloc);
        plan.done(self.notes.over.as_slice())?;
        self.notes.over.clear();
        Ok(ask_all(&mut self.server, &plan))
    }

    /// Which resource managers are to be recovered. Rows leave the log that may, since a session
    /// that is idle has no other time for that.
    fn tell_due(&mut self) -> Result<String, Memory>
        requires { IsReady self.old.server.session }
        ensures ready { IsReady self.new.server.session }
        ensures acts { GoesOn L.moment self.old.server self.new.server }
        ensures kept { self.new.notes.transactions ≡ self.old.notes.transactions }
    {
        if !self.ask_over()? {
            return self.stop();
        }
        self.notes.tell_due()
    }

    /// The session ends; rows leave the log first that may.
    fn quit(&mut self) -> Result<String, Memory>
        requires { IsReady self.old.server.session }
        ensures ready { IsReady self.new.server.session }
        ensures acts { GoesOn L.moment self.old.server self.new.server }
        ensures kept { self.new.notes.transactions ≡ self.old.notes.transactions }
    {
        let _ = self.ask_over()?;
        self.notes.has_quit = true;
        self.text("bye")
    }

    /// A text.
    fn text(&self, text: &str) -> Result<String, Memory> {
        Ok(String::from_str(self.alloc, text)?)
    }
}

/// The incarnation that a server greets with, and how many rows its log has.
fn start_of(greeting: &Response) -> (u64, usize) {
    match greeting {
        Response::Restarted {
            incarnation,
            decisions,
            ..
        } => (*incarnation, *decisions),
        _ => (0, 0),
    }
}

/// Notes the transactions that had a row at the start.
fn find_rows<L: DecisionLog + Drop>(
    server: &mut Server<L>,
    notes: &mut Notes,
    rms: u32,
) -> Result<(), Memory>
    requires { IsReady server.old.session }
    ensures ready { IsReady server.new.session }
    ensures acts { GoesOn L.moment server.old server.new }
    ensures kept { notes.new.transactions ≡ notes.old.transactions }
{
    for rm in 0..rms {
        let owed = reply_to(server, &Request::Owed { rm });
        notes.add_found(&owed)?;
    }
    Ok(())
}
