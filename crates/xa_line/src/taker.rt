//! The end of a line that a resource manager has.

use crate::inlet::Inlet;
use crate::outlet::Outlet;
use xa_base::{Answer, Call};

/// The end of a line that the resource manager has, in a thread of its own: it takes calls and
/// answers them. No call waits for the other end, locks or takes memory.
#[derive(Drop)]
pub struct Taker {
    pub(crate) calls: Outlet<Call>,
    pub(crate) answers: Inlet<(Call, Answer)>,
}

impl Taker {
    ghost use Rattle.std.specs.Prelude.{◌≡◌, ◌<◌, ◌≤◌, ◌+◌, ◌∷◌, ◌++◌, [], length};
    ghost use Rattle.std.specs.Prelude.{IsOk, IsSome, OnErr, OnOk, IfErr, IfSome, IfNone};
    ghost use mathlib.Core.List.{IsPrefix};
    ghost use Rattle.xa_line.specs.Ends.{SameTaker, answered_by, free_answers_of, seen_calls_of, taken_by};

    /// Takes the oldest waiting call. None says that no call was seen: one may come later.
    #[inline]
    pub fn take(&mut self) -> Option<Call>
        ensures same { SameTaker self.old self.new }
        // What is taken, and what was seen of it before.
        ensures some { IfSome result (λ call. taken_by self.new ≡ taken_by self.old ++ call ∷ []) }
        ensures seen { IfSome result (λ call.
            IsPrefix (seen_calls_of self.old) (call ∷ seen_calls_of self.new)) }
        ensures none { IfNone result (
            (taken_by self.new ≡ taken_by self.old) × (seen_calls_of self.new ≡ [])) }
        // The answers stay as they are.
        ensures answered { answered_by self.new ≡ answered_by self.old }
        ensures free { free_answers_of self.new ≡ free_answers_of self.old }
        // If a call was seen, one is taken.
        ensures succeeds { 0 < length (seen_calls_of self.old) → IsSome result }
    {
        let calls = &mut self.calls.consumer;
        if calls.is_empty() {
            return None;
        }
        Some(calls.pop_known())
    }

    /// Lets an answer wait, or gives it back with its call if no free place was seen. The same
    /// answer may be accepted later.
    #[inline]
    pub fn answer(&mut self, call: Call, answer: Answer) -> Result<(), (Call, Answer)>
        ensures same { SameTaker self.old self.new }
        // What an accepted answer adds, and that a refused one comes back and changes nothing.
        ensures accepted { OnOk result (
            answered_by self.new ≡ answered_by self.old ++ (call, answer) ∷ []) }
        ensures free { OnOk result (free_answers_of self.old ≤ free_answers_of self.new + 1) }
        ensures back { IfErr result (λ back. back ≡ (call, answer)) }
        ensures refused { OnErr result (
            (answered_by self.new ≡ answered_by self.old) × (free_answers_of self.new ≡ 0)) }
        // The calls stay as they are.
        ensures taken { taken_by self.new ≡ taken_by self.old }
        ensures seen { seen_calls_of self.new ≡ seen_calls_of self.old }
        // If a place was seen, the answer is accepted.
        ensures succeeds { 0 < free_answers_of self.old → IsOk result }
    {
        self.answers.push((call, answer))
    }
}
