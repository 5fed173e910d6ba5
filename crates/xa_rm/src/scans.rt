//! Where the recovery scans of threads stand.
ghost use Rattle.std.specs.Prelude.{◌≡◌, ◌==◌, ℕ, if◌then◌else◌, OnOk, OnErr};

use std::alloc::Global;
use std::collections::BTreeMap;
use std::ops::Bound;
use xa_base::{Memory, Xid};

/// Where an open recovery scan stands.
#[derive(Drop)]
pub(crate) enum Cursor {
    /// Before all identifiers.
    Start,
    /// After the one that it listed last.
    Behind(Xid),
}

/// The recovery scans that are open, by the thread that opened each.
#[derive(Drop)]
pub(crate) struct Scans {
    cursors: BTreeMap<u32, Cursor>,
}

impl Cursor {
    ghost use Rattle.xa_base.specs.Scan.{last_of};
    ghost use Rattle.std.specs.Range.Bound.{bound_map};
    ghost use Rattle.xa_rm.specs.Scans.{place_of, bound_of};

    /// The same cursor. No memory is taken.
    pub(crate) fn copy(&self) -> Cursor
        ensures { result ≡ self.now }
    {
        match self {
            Cursor::Start => Cursor::Start,
            Cursor::Behind(xid) => Cursor::Behind(xid.copy()),
        }
    }

    /// Where a range of identifiers after the cursor begins.
    pub(crate) fn bound(&self) -> Bound<&Xid>
        ensures { bound_map (λ x. x.now) result ≡ bound_of self.now }
    {
        match self {
            Cursor::Start => Bound::Unbounded,
            Cursor::Behind(xid) => Bound::Excluded(xid),
        }
    }

    /// The cursor after a page that it listed: after the last identifier of the page, if it lists
    /// any.
    pub(crate) fn after(self, page: &[Xid]) -> Cursor
        ensures { place_of result ≡ last_of (place_of self) page.now }
    {
        match page.last() {
            Some(xid) => Cursor::Behind(xid.copy()),
            None => self,
        }
    }
}

impl Scans {
    ghost use Rattle.std.specs.Option.{option_map};
    ghost use Rattle.xa_base.specs.Scan.{Scan.NotOpen, Scan.Behind, reads_from};
    ghost use Rattle.xa_rm.specs.Scans.{scan_at, place_of};

    pub(crate) fn new(alloc: Global) -> Scans
        ensures { (t : ℕ) → scan_at result.cursors t ≡ NotOpen }
    {
        Scans {
            cursors: BTreeMap::new(alloc),
        }
    }

    /// From where a thread's call reads: from the start if it asks for that, else from where its
    /// scan stands, if one is open.
    pub(crate) fn reads_from(&self, thread: u32, start_scan: bool) -> Option<Cursor>
        ensures { option_map place_of result
            ≡ reads_from (scan_at self.now.cursors thread) start_scan }
    {
        if start_scan {
            return Some(Cursor::Start);
        }
        match self.cursors.get(&thread) {
            Some(cursor) => Some(cursor.copy()),
            None => None,
        }
    }

    /// Opens the thread's scan, or moves it.
    pub(crate) fn stand(&mut self, thread: u32, cursor: Cursor) -> Result<(), Memory>
        ensures moved { OnOk result ((t : ℕ) → scan_at self.new.cursors t ≡
            (if t == thread then Behind (place_of cursor) else scan_at self.old.cursors t)) }
        ensures err { OnErr result ((t : ℕ)
            → scan_at self.new.cursors t ≡ scan_at self.old.cursors t) }
    {
        self.cursors.insert(thread, cursor)?;
        Ok(())
    }

    /// Ends the thread's scan.
    pub(crate) fn close(&mut self, thread: u32)
        ensures { (t : ℕ) → scan_at self.new.cursors t
            ≡ (if t == thread then NotOpen else scan_at self.old.cursors t) }
    {
        self.cursors.remove(&thread);
    }

    /// Ends all scans.
    pub(crate) fn close_all(&mut self)
        ensures { (t : ℕ) → scan_at self.new.cursors t ≡ NotOpen }
    {
        self.cursors.clear();
    }
}
