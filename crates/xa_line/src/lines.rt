//! The lines of a system.

use crate::Line;
use std::alloc::Global;
use std::marker::Model;
use xa_base::Memory;

/// One line for each thread and each resource manager of a system, both numbered from 0.
#[derive(Drop)]
pub struct Lines {
    threads: u32,
    rms: u32,
    lines: Vec<Line>,
}

impl Model for Lines {
    ghost use Rattle.std.specs.Prelude.{◌≡◌, ◌*◌, length};
    ghost use Rattle.xa_line.specs.Grid.{Grid};

    ghost Value = { Grid };

    ghost view = { λ l. record { threads = l.threads; rms = l.rms; lines = l.lines.items } };

    ghost invariant = { λ l. length l.lines.items ≡ l.threads * l.rms };
}

impl Lines {
    ghost use Rattle.std.specs.Prelude.{◌≡◌, ◌+◌, ◌*◌, ◌<◌, length, IfOk};
    ghost use Rattle.std.specs.Borrow.{sem};
    ghost use Rattle.xa_line.specs.Grid.{HasLine, IsWhole, RenewsRm, grid_has_line, line_at, new_grid, place};
    ghost use Rattle.xa_line.specs.Lending.{LendsLine};

    /// The lines of so many threads to so many resource managers, all of them new. Takes all the
    /// memory that they ever need.
    pub fn new(alloc: Global, threads: u32, rms: u32) -> Result<Lines, Memory>
        ensures { IfOk result (λ lines. lines ≡ new_grid threads rms) }
    {
        let count = threads as usize * rms as usize;
        let mut lines = Vec::with_capacity(alloc, count)?;
        for _ in 0..count {
            lines.push(Line::new(alloc)?)?;
        }
        Ok(Lines {
            threads,
            rms,
            lines,
        })
    }

    /// How many threads have lines.
    pub fn threads(&self) -> u32
        ensures value { result ≡ self.now.threads }
        ensures whole { IsWhole self.now }
    {
        self.threads
    }

    /// How many resource managers have lines.
    pub fn rms(&self) -> u32
        ensures value { result ≡ self.now.rms }
        ensures whole { IsWhole self.now }
    {
        self.rms
    }

    /// Whether there is a line of the thread to the resource manager.
    pub fn has(&self, thread: u32, rm: u32) -> bool
        ensures value { result ≡ grid_has_line self.now thread rm }
        ensures whole { IsWhole self.now }
    {
        thread < self.threads && rm < self.rms
    }

    /// The line of a thread to a resource manager.
    pub fn line(&self, thread: u32, rm: u32) -> &Line
        requires { HasLine self.now thread rm }
        ensures value { result.now ≡ line_at self.now thread rm }
        ensures whole { IsWhole self.now }
    {
        &self.lines[self.place(thread, rm)]
    }

    /// The line of a thread to a resource manager, to be changed. All other lines stay as they are.
    pub fn line_mut(&mut self, thread: u32, rm: u32) -> &mut Line
        requires { HasLine self.old thread rm }
        ensures* writes_back { sem 𝓛 (LendsLine self.entry thread rm result) }
        ensures value { result.now ≡ line_at self.old thread rm }
        ensures whole { IsWhole self.old }
    {
        let place = self.place(thread, rm);
        &mut self.lines[place]
    }

    /// Where the line of a thread to a resource manager stands.
    fn place(&self, thread: u32, rm: u32) -> usize
        requires { HasLine self.now thread rm }
        ensures value { result ≡ place self.now thread rm }
        ensures within { result < length self.now.lines }
    {
        thread as usize * self.rms as usize + rm as usize
    }

    /// Renews the lines of all threads to one resource manager. All other lines stay as they are.
    pub fn renew_rm(&mut self, rm: u32)
        requires { rm < self.old.rms }
        ensures { RenewsRm self.old self.new rm }
    {
        for thread in 0..self.threads() {
            self.line_mut(thread, rm).renew();
        }
    }

    /// Renews all lines.
    pub fn renew_all(&mut self)
        ensures { self.new ≡ new_grid self.old.threads self.old.rms }
    {
        for line in self.lines.iter_mut() {
            line.renew();
        }
    }
}
