//! The lines of a session: one for each thread and each resource manager, of which only those that
//! are open take memory.

use crate::session_line::SessionLine;
use std::alloc::Global;
use std::marker::Model;
use xa_base::Memory;
use xa_line::Line;

/// One line for each thread and each resource manager of a session, both numbered from 0.
#[derive(Drop)]
pub struct SessionLines {
    threads: u32,
    rms: u32,
    lines: Vec<SessionLine>,
    alloc: Global,
}

impl Model for SessionLines {
    ghost use Rattle.std.specs.Prelude.{◌≡◌, ◌*◌, length};
    ghost use Rattle.xa_line.specs.Grid.{Grid};

    ghost Value = { Grid };

    ghost view = { λ l. record { threads = l.threads; rms = l.rms; lines = l.lines.items } };

    ghost invariant = { λ l. length l.lines.items ≡ l.threads * l.rms };
}

impl SessionLines {
    ghost use Rattle.std.specs.Prelude.{◌≡◌, ◌+◌, ◌*◌, ◌<◌, length, IfOk, IfSome, None, true};
    ghost use Rattle.std.specs.Borrow.{sem};
    ghost use Rattle.xa_line.specs.Grid.{HasLine, IsWhole, grid_has_line, line_at, new_grid, place};
    ghost use Rattle.xa_base.specs.Opening.{has_opened};
    ghost use Rattle.xa_line.specs.Traffic.{calls_issued, no_traffic};
    ghost use Rattle.xa_session.specs.Lending.{LendsSessionLine};

    /// The lines of so many threads to so many resource managers, all of them new.
    pub(crate) fn new(alloc: Global, threads: u32, rms: u32) -> Result<SessionLines, Memory>
        ensures { IfOk result (λ lines. lines ≡ new_grid threads rms) }
    {
        let count = threads as usize * rms as usize;
        let mut lines = Vec::with_capacity(alloc, count)?;
        for _ in 0..count {
            lines.push(SessionLine::new())?;
        }
        Ok(SessionLines {
            threads,
            rms,
            lines,
            alloc,
        })
    }

    /// How many threads have lines.
    pub(crate) fn threads(&self) -> u32
        ensures value { result ≡ self.now.threads }
        ensures whole { IsWhole self.now }
    {
        self.threads
    }

    /// How many resource managers have lines.
    pub(crate) fn rms(&self) -> u32
        ensures value { result ≡ self.now.rms }
        ensures whole { IsWhole self.now }
    {
        self.rms
    }

    /// Whether there is a line of the thread to the resource manager.
    pub(crate) fn has(&self, thread: u32, rm: u32) -> bool
        ensures value { result ≡ grid_has_line self.now thread rm }
        ensures whole { IsWhole self.now }
    {
        thread < self.threads && rm < self.rms
    }

    /// The line of a thread to a resource manager.
    pub(crate) fn line(&self, thread: u32, rm: u32) -> &SessionLine
        requires { HasLine self.now thread rm }
        ensures value { result.now ≡ line_at self.now thread rm }
        ensures whole { IsWhole self.now }
    {
        &self.lines[self.place(thread, rm)]
    }

    /// The line of a thread to a resource manager, to be changed. All other lines stay as they are.
    pub(crate) fn line_mut(&mut self, thread: u32, rm: u32) -> &mut SessionLine
        requires { HasLine self.old thread rm }
        ensures* writes_back { sem 𝓛 (LendsSessionLine self.entry thread rm result) }
        ensures value { result.now ≡ line_at self.old thread rm }
        ensures whole { IsWhole self.old }
    {
        let place = self.place(thread, rm);
        &mut self.lines[place]
    }

    /// The rings that a line takes with its next call, if that opens it.
    pub(crate) fn room(&self, thread: u32, rm: u32) -> Result<Option<Line>, Memory>
        requires { HasLine self.now thread rm }
        ensures new { IfOk result (λ room. IfSome room (λ line. line ≡ no_traffic)) }
        ensures made { IfOk result (λ room. room ≡ None →
            has_opened (calls_issued (line_at self.now thread rm)) ≡ true) }
    {
        if self.line(thread, rm).is_open() {
            return Ok(None);
        }
        Ok(Some(Line::new(self.alloc)?))
    }

    /// Where the line of a thread to a resource manager stands.
    fn place(&self, thread: u32, rm: u32) -> usize
        requires { HasLine self.now thread rm }
        ensures value { result ≡ place self.now thread rm }
        ensures within { result < length self.now.lines }
    {
        thread as usize * self.rms as usize + rm as usize
    }

    /// Renews all lines.
    pub(crate) fn renew_all(&mut self)
        ensures { self.new ≡ new_grid self.old.threads self.old.rms }
    {
        for line in self.lines.iter_mut() {
            line.renew();
        }
    }
}
