//! The line of one thread of control to one resource manager.

use crate::latch::Latch;
use crate::queue::Queue;
use crate::{Issuer, Taker};
use std::alloc::Global;
use std::marker::Model;
use xa_base::{Answer, Call, LINE_LIMIT, Memory, Refusal};

/// The line of one thread of control to one resource manager: at most 64 calls that wait, and at
/// most 64 answers. Calls come out in the order in which they went in, and so do answers.
///
/// All the memory that it needs is taken by [`Line::new`].
#[derive(Drop)]
pub struct Line {
    calls: Queue<Call>,
    answers: Queue<(Call, Answer)>,
    latch: Latch,
}

impl Model for Line {
    ghost use Rattle.xa_line.specs.Traffic.{Traffic, all_of};

    ghost Value = { Traffic };

    ghost use Rattle.xa_line.specs.Latch.{Knows};

    ghost view = { λ l. record { calls = l.calls; answers = l.answers } };

    ghost invariant = { λ l. Knows l.latch (all_of l.calls) };
}

impl Line {
    ghost use Rattle.std.specs.Prelude.{◌≡◌, ◌+◌, ◌-◌, ◌≤◌, ◌↔◌, ◌∷◌, ◌++◌, [], length, slice_get, vec_len};
    ghost use Rattle.std.specs.Prelude.{IsErr, IfOk, IfErr, IfSome, IfNone, OnErr, OnOk, false, nat_lt, true};
    ghost use Rattle.std.specs.Option.{option_copied};
    ghost use Rattle.std.specs.Result.{result_err};
    ghost use Rattle.xa_line.specs.Ends.{AreEndsOfOne, answered_by, heard_by, issued_by, taken_by};
    ghost use Rattle.xa_line.specs.Ends.{free_answers_of, free_calls_of, seen_answers_of, seen_calls_of};
    ghost use Rattle.xa_line.specs.Traffic.{PassesOn, no_traffic, places, with_more, with_one_more};
    ghost use Rattle.xa_line.specs.Traffic.{barred, opening_refusal, refusal, room_refusal};
    ghost use Rattle.xa_base.specs.Opening.{has_closed, has_opened};
    ghost use Rattle.xa_line.specs.Traffic.{answered, answers_heard, calls_issued, calls_taken};

    /// A line that isn't open, where nothing waits. Takes all the memory that the line ever needs.
    pub fn new(alloc: Global) -> Result<Line, Memory>
        ensures { IfOk result (λ line. line ≡ no_traffic) }
    {
        Ok(Line {
            calls: Queue::new(alloc)?,
            answers: Queue::new(alloc)?,
            latch: Latch::NEW,
        })
    }

    /// Lets a call wait. An accepted xa_open opens the line, and is accepted again; an accepted
    /// xa_close ends it (XA, section 3.2, Opening and Closing Resource Managers).
    ///
    /// Of the reasons to refuse a call the first that applies is answered, and nothing changes
    /// then:
    ///
    /// - [`Refusal::NotOpen`]: no xa_open was issued since the line was new or renewed, and the
    ///   call isn't one;
    /// - [`Refusal::Closed`]: xa_close was issued;
    /// - [`Refusal::Full`]: 64 calls wait.
    #[inline(always)]
    pub fn issue(&mut self, call: Call) -> Result<(), Refusal>
        ensures reason { result_err result ≡ refusal self.old call }
        ensures accepted { OnOk result (self.new ≡
            record self.old { calls = with_one_more self.old.calls call }) }
        ensures issued { OnOk result (calls_issued self.new ≡ calls_issued self.old ++ call ∷ []) }
        ensures refused { OnErr result (self.new ≡ self.old) }
    {
        self.latch.check(&call)?;
        if self.calls.len() >= LINE_LIMIT {
            return Err(Refusal::Full);
        }
        self.latch = self.latch.after(&call);
        self.calls.push(call);
        Ok(())
    }

    /// Says why a call may not follow those that were issued, however few of them wait: the first
    /// reason that applies, as [`Line::issue`] does.
    pub fn check(&self, call: &Call) -> Result<(), Refusal>
        ensures { result_err result ≡ barred (calls_issued self.now) call.now }
    {
        self.latch.check(call)
    }

    /// The same for any call but xa_open.
    pub fn check_open(&self) -> Result<(), Refusal>
        ensures { result_err result ≡ opening_refusal (calls_issued self.now) }
    {
        if !self.is_open() {
            return Err(Refusal::NotOpen);
        }
        if self.is_closed() {
            return Err(Refusal::Closed);
        }
        Ok(())
    }

    /// Refuses this many calls more, as [`Refusal::Full`], if they are too many to wait.
    pub fn check_room(&self, count: usize) -> Result<(), Refusal>
        ensures { result_err result ≡ room_refusal self.now count }
    {
        if self.is_full_for(count) {
            return Err(Refusal::Full);
        }
        Ok(())
    }

    /// Lets these calls wait, in turn.
    pub fn issue_all(&mut self, calls: Vec<Call>)
        requires room { length self.old.calls.waiting + vec_len calls ≤ places }
        requires open { has_opened (calls_issued self.old) ≡ true }
        requires unclosed { has_closed (calls_issued self.old ++ calls.items) ≡ false }
        ensures { self.new ≡ record self.old { calls = with_more self.old.calls calls.items } }
    {
        for call in calls {
            let _ = self.issue(call);
        }
    }

    /// Takes the oldest waiting call; None if none waits.
    #[inline]
    pub fn take(&mut self) -> Option<Call>
        ensures some { IfSome result (λ call. PassesOn self.old.calls call self.new.calls) }
        ensures none { IfNone result ((self.old.calls.waiting ≡ []) × (self.new ≡ self.old)) }
        ensures answers { self.new.answers ≡ self.old.answers }
        ensures issued { calls_issued self.new ≡ calls_issued self.old }
        ensures all_taken { IfNone result (calls_taken self.new ≡ calls_issued self.new) }
    {
        self.calls.pop()
    }

    /// Lets an answer wait with its call, or gives both back if 64 answers wait.
    #[inline]
    pub fn answer(&mut self, call: Call, answer: Answer) -> Result<(), (Call, Answer)>
        ensures full { IsErr result ↔ (length self.old.answers.waiting ≡ places) }
        ensures accepted { OnOk result (self.new ≡
            record self.old { answers = with_one_more self.old.answers (call, answer) }) }
        ensures answered { OnOk result (
            answered self.new ≡ answered self.old ++ (call, answer) ∷ []) }
        ensures back { IfErr result (λ back. back ≡ (call, answer)) }
        ensures refused { OnErr result (self.new ≡ self.old) }
    {
        if self.answers.len() >= LINE_LIMIT {
            return Err((call, answer));
        }
        self.answers.push((call, answer));
        Ok(())
    }

    /// Hears the oldest waiting answer, with its call; None if none waits.
    #[inline]
    pub fn hear(&mut self) -> Option<(Call, Answer)>
        ensures some { IfSome result (λ pair. PassesOn self.old.answers pair self.new.answers) }
        ensures none { IfNone result ((self.old.answers.waiting ≡ []) × (self.new ≡ self.old)) }
        ensures calls { self.new.calls ≡ self.old.calls }
        ensures answered { answered self.new ≡ answered self.old }
        ensures all_heard { IfNone result (answers_heard self.new ≡ answered self.new) }
    {
        self.answers.pop()
    }

    /// Makes the line as new: not open, with nothing that waits. The calls and answers that wait
    /// are lost.
    pub fn renew(&mut self)
        ensures { self.new ≡ no_traffic }
    {
        self.calls.renew();
        self.answers.renew();
        self.latch = Latch::NEW;
    }

    /// The oldest waiting call, which [`Line::take`] gives next.
    pub fn front(&self) -> Option<&Call>
        ensures { option_copied result ≡ slice_get self.now.calls.waiting 0 }
    {
        self.calls.front()
    }

    /// The oldest waiting answer with its call, which [`Line::hear`] gives next.
    pub fn front_answer(&self) -> Option<&(Call, Answer)>
        ensures { option_copied result ≡ slice_get self.now.answers.waiting 0 }
    {
        self.answers.front()
    }

    /// Whether an xa_open was issued since the line was new or renewed. A closed line is open too.
    pub fn is_open(&self) -> bool
        ensures { result ≡ has_opened (calls_issued self.now) }
    {
        self.latch.opened
    }

    /// Whether an xa_close was issued since the line was new or renewed.
    pub fn is_closed(&self) -> bool
        ensures { result ≡ has_closed (calls_issued self.now) }
    {
        self.latch.closed
    }

    /// How many more calls may wait, 0 to 64.
    pub fn free_calls(&self) -> usize
        ensures { result ≡ places - length self.now.calls.waiting }
    {
        LINE_LIMIT - self.calls.len()
    }

    /// Whether this many calls more are too many to wait: with those that wait they would be over
    /// 64.
    pub fn is_full_for(&self, count: usize) -> bool
        ensures { result ≡ nat_lt places (length self.now.calls.waiting + count) }
    {
        count > LINE_LIMIT || self.calls.len() > LINE_LIMIT - count
    }

    /// How many more answers may wait, 0 to 64.
    pub fn free_answers(&self) -> usize
        ensures { result ≡ places - length self.now.answers.waiting }
    {
        LINE_LIMIT - self.answers.len()
    }

    /// Takes the line apart, for two threads. What waits stays in it.
    pub fn split(self) -> (Issuer, Taker)
        ensures ends { AreEndsOfOne result.0 result.1 }
        // What each end has done.
        ensures issued { issued_by result.0 ≡ calls_issued self }
        ensures heard { heard_by result.0 ≡ answers_heard self }
        ensures taken { taken_by result.1 ≡ calls_taken self }
        ensures answered { answered_by result.1 ≡ answered self }
        // What each end sees of the other.
        ensures free_calls { places ≤ free_calls_of result.0 + length self.calls.waiting }
        ensures seen_calls { seen_calls_of result.1 ≡ self.calls.waiting }
        ensures free_answers { places ≤ free_answers_of result.1 + length self.answers.waiting }
        ensures seen_answers { seen_answers_of result.0 ≡ self.answers.waiting }
    {
        let Line {
            calls,
            answers,
            latch,
        } = self;
        let (calls_in, calls_out) = calls.split();
        let (answers_in, answers_out) = answers.split();
        let issuer = Issuer {
            calls: calls_in,
            answers: answers_out,
            latch,
        };
        let taker = Taker {
            calls: calls_out,
            answers: answers_in,
        };
        (issuer, taker)
    }

    /// Puts the two ends of a line together again, in one thread. What waits between them stays in
    /// the line.
    ///
    /// That they are the ends of one line has to be proved: rings can't be asked at run time whose
    /// ends they are.
    pub fn meet(issuer: Issuer, taker: Taker) -> Line
        requires { AreEndsOfOne issuer taker }
        ensures issued { calls_issued result ≡ issued_by issuer }
        ensures heard { answers_heard result ≡ heard_by issuer }
        ensures taken { calls_taken result ≡ taken_by taker }
        ensures answered { answered result ≡ answered_by taker }
    {
        let Issuer {
            calls: calls_in,
            answers: answers_out,
            latch,
        } = issuer;
        let Taker {
            calls: calls_out,
            answers: answers_in,
        } = taker;
        Line {
            calls: Queue::meet(calls_in, calls_out),
            answers: Queue::meet(answers_in, answers_out),
            latch,
        }
    }
}
