//! The decision board: a word for each slot, on which threads decide without a lock how each job
//! ends.
ghost use Rattle.std.specs.Prelude.{◌≡◌, ◌≢◌, ◌≤◌, ◌<◌, IfOk};
ghost use Rattle.xa_workers.specs.Words.{after_rollback, exchanged};
ghost use Rattle.xa_workers.specs.Views.{blank, entry, claim_entry, with_entry, InOrder, HoldsSlot, SawDecided};
ghost use Rattle.xa_workers.specs.Views.{MayExchange, Agree, HoldApart};
ghost use Rattle.xa_workers.specs.BoardRule.{OnOneBoard};

use crate::limits::JOB_LIMIT;
use crate::rule::{Agreement, Comparing, Newcomer, Noting, Visit};
use crate::view::Place;
use crate::word::{Claim, Word};
use atomic_table::{Seat, Table};
use std::alloc::Global;
use std::marker::Model;
use std::mem;
use xa_base::Memory;

/// A word for each slot, which threads share by `&`. Each call is one atomic step on one word,
/// tried once; it neither waits nor takes memory.
///
/// Between any two steps of any seats the board keeps its rule (`specs/BoardRule.antt`): a slot is
/// held by at most one seat, and is claimed then; what a seat saw decided stays so for good; and
/// each seat finds what it left, or what comes after it.
#[derive(Drop)]
pub struct Board {
    table: Table<(), Place, usize, Agreement, Global>,
}

impl Model for Board {
    ghost use Rattle.std.specs.Prelude.{◌≡◌, ◌+◌, ◌≤◌};
    ghost use Rattle.xa_workers.specs.Views.{BoardId};
    ghost use Rattle.xa_workers.specs.declared.limits.TheConstants.{JOB_LIMIT};

    ghost Value = { BoardId };

    ghost view = { λ b. record { table = b.table.shared.table_id; slots = b.table.shared.key } };

    ghost invariant = { λ b. (b.table.shared.table_id.words ≡ b.table.shared.key + 1)
        × (b.table.shared.key ≤ JOB_LIMIT) };
}

/// The right to take steps on one board. Contracts see in it the steps that were taken with it, and
/// the slots that it holds. It has no bytes.
#[derive(Drop)]
pub struct BoardSeat {
    seat: Seat<(), Place>,
}

impl Model for BoardSeat {
    ghost use Rattle.std.specs.Prelude.{◌≡◌, []};
    ghost use Rattle.xa_workers.specs.Views.{SeatState, alone, InOrder};

    ghost Value = { SeatState };

    ghost view = { λ s. record { board = s.seat.table_id; view = s.seat.me.0.own } };

    ghost invariant = { λ s. s.seat.me ≡ (alone s.seat.me.0.own, []) };
}

impl Board {
    /// A board of 0 to 1,000 slots, all of them open, and its first seat. Takes all the memory that
    /// it ever needs, and fails only if that is refused.
    pub fn new(alloc: Global, slots: usize) -> Result<(Board, BoardSeat), Memory>
        requires { slots ≤ JOB_LIMIT }
        ensures slots { IfOk result (λ r. r.0.slots ≡ slots) }
        ensures seat { IfOk result (λ r. (r.1.board ≡ r.0.table) × (r.1.view ≡ blank)) }
    {
        let Ok(words) = vec![in alloc; 0u64; slots + 1] else {
            return Err(Memory);
        };
        let Ok((table, seat)) = Table::of_words(alloc, words.as_slice(), &slots) else {
            return Err(Memory);
        };
        Ok((Board { table }, BoardSeat { seat }))
    }

    /// How many slots there are, at most 1,000. They are numbered from 0.
    pub fn slots(&self) -> usize
        ensures { result ≡ self.now.slots }
    {
        self.table.word_count() - 1
    }

    /// The same seat, and one more, which has seen nothing.
    pub fn split(&self, seat: BoardSeat) -> (BoardSeat, BoardSeat)
        requires { seat.board ≡ self.now.table }
        ensures same { result.0 ≡ seat }
        ensures new { (result.1.board ≡ self.now.table) × (result.1.view ≡ blank) }
    {
        let BoardSeat { mut seat } = seat;
        let other = self.table.shared.split_seat::<Newcomer>(&mut seat);
        (BoardSeat { seat }, BoardSeat { seat: other })
    }

    /// Claims the slot if it is open, for the seat to settle or abandon it. Else it stays as it is
    /// found.
    pub fn claim(&self, seat: &mut BoardSeat, slot: usize) -> Claim
        requires board { seat.old.board ≡ self.now.table }
        requires slot { slot < self.now.slots }
        ensures board { seat.new.board ≡ seat.old.board }
        ensures entry { seat.new.view ≡ with_entry seat.old.view (claim_entry slot result) }
        ensures taken { result ≢ Claim.Found Word.Open }
        ensures decided { (w : _) → SawDecided seat.old.view slot w → result ≡ Claim.Found w }
        ensures in_order { InOrder seat.new.view }
    {
        match self.exchange(seat, slot, Word::Open, Word::Claimed) {
            Word::Open => Claim::Won,
            word => Claim::Found(word),
        }
    }

    /// Commits a slot that the seat holds, for good.
    pub fn settle(&self, seat: &mut BoardSeat, slot: usize)
        requires board { seat.old.board ≡ self.now.table }
        requires slot { slot < self.now.slots }
        requires held { HoldsSlot seat.old.view slot }
        ensures board { seat.new.board ≡ seat.old.board }
        ensures entry { seat.new.view ≡ with_entry seat.old.view
            (entry slot Word.Claimed Word.Committed) }
        ensures in_order { InOrder seat.new.view }
    {
        self.exchange(seat, slot, Word::Claimed, Word::Committed);
    }

    /// Rolls back a slot that the seat holds, for good.
    pub fn abandon(&self, seat: &mut BoardSeat, slot: usize)
        requires board { seat.old.board ≡ self.now.table }
        requires slot { slot < self.now.slots }
        requires held { HoldsSlot seat.old.view slot }
        ensures board { seat.new.board ≡ seat.old.board }
        ensures entry { seat.new.view ≡ with_entry seat.old.view
            (entry slot Word.Claimed Word.RolledBack) }
        ensures in_order { InOrder seat.new.view }
    {
        self.exchange(seat, slot, Word::Claimed, Word::RolledBack);
    }

    /// Rolls the slot back if it is open, and says how it then stands: never open. A claim stays
    /// with its seat.
    pub fn rollback(&self, seat: &mut BoardSeat, slot: usize) -> Word
        requires board { seat.old.board ≡ self.now.table }
        requires slot { slot < self.now.slots }
        ensures board { seat.new.board ≡ seat.old.board }
        ensures entry { (found : _) × (result ≡ after_rollback found)
            × (seat.new.view ≡ with_entry seat.old.view (entry slot found result)) }
        ensures decided { (w : _) → SawDecided seat.old.view slot w → result ≡ w }
        ensures in_order { InOrder seat.new.view }
    {
        match self.exchange(seat, slot, Word::Open, Word::RolledBack) {
            Word::Open => Word::RolledBack,
            word => word,
        }
    }

    /// How the slot stands.
    pub fn read(&self, seat: &mut BoardSeat, slot: usize) -> Word
        requires board { seat.old.board ≡ self.now.table }
        requires slot { slot < self.now.slots }
        ensures board { seat.new.board ≡ seat.old.board }
        ensures entry { seat.new.view ≡ with_entry seat.old.view (entry slot result result) }
        ensures decided { (w : _) → SawDecided seat.old.view slot w → result ≡ w }
        ensures in_order { InOrder seat.new.view }
    {
        let BoardSeat { seat } = seat;
        Word::of_number(self.table.shared.load::<Noting>(seat, slot + 1))
    }

    /// States that what two seats have seen agrees with one state of the board: they saw no slot
    /// decided in two ways, and hold none both. It changes nothing.
    pub fn compare(&self, one: &mut BoardSeat, other: &mut BoardSeat)
        requires one { one.old.board ≡ self.now.table }
        requires other { other.old.board ≡ self.now.table }
        ensures same { (one.new ≡ one.old) × (other.new ≡ other.old) }
        ensures one_board { OnOneBoard one.old.view other.old.view }
        ensures agree { Agree one.old.view other.old.view }
        ensures apart { HoldApart one.old.view other.old.view }
    {
        let shared = &self.table.shared;
        let BoardSeat { seat } = one;
        let BoardSeat { seat: place } = other;
        let spare = shared.split_seat::<Newcomer>(seat);
        let guest = mem::replace(place, spare);
        shared.join_seat::<Visit>(seat, guest);
        shared.load::<Comparing>(seat, 0);
        *place = shared.split_seat::<Visit>(seat);
    }

    /// One compare-exchange on the slot's word, and the word found.
    fn exchange(&self, seat: &mut BoardSeat, slot: usize, old: Word, new: Word) -> Word
        requires board { seat.old.board ≡ self.now.table }
        requires slot { slot < self.now.slots }
        requires allowed { MayExchange seat.old.view slot old new }
        ensures board { seat.new.board ≡ seat.old.board }
        ensures entry { seat.new.view ≡ with_entry seat.old.view
            (entry slot result (exchanged old new result)) }
        ensures held { HoldsSlot seat.old.view slot → result ≡ Word.Claimed }
        ensures decided { (w : _) → SawDecided seat.old.view slot w → result ≡ w }
        ensures in_order { InOrder seat.new.view }
    {
        let BoardSeat { seat } = seat;
        let shared = &self.table.shared;
        let (old, new) = (old.number(), new.number());
        Word::of_number(shared.compare_exchange::<Noting>(seat, slot + 1, old, new))
    }
}
