//! The end of a line that a thread of control has.
ghost use Rattle.xa_line.specs.Latch.{Knows};
ghost use Rattle.xa_line.specs.Queue.{pushed};

use crate::inlet::Inlet;
use crate::latch::Latch;
use crate::outlet::Outlet;
use xa_base::{Answer, Call, Refusal};

/// The end of a line that the thread of control has, in a thread of its own: it issues calls and
/// hears their answers. No call waits for the other end, locks or takes memory.
#[derive(Drop)]
pub struct Issuer {
    pub(crate) calls: Inlet<Call>,
    pub(crate) answers: Outlet<(Call, Answer)>,
    pub(crate) latch: Latch,
    ghost latch_knows: { Knows latch (pushed calls) },
}

impl Issuer {
    ghost use Rattle.std.specs.Prelude.{◌≡◌, ◌<◌, ◌≤◌, ◌+◌, ◌∷◌, ◌++◌, [], length, None};
    ghost use Rattle.std.specs.Prelude.{IsOk, IsSome, OnOk, OnErr, IfErr, IfSome, IfNone, MatchOption};
    ghost use mathlib.Core.List.{IsPrefix};
    ghost use Rattle.xa_base.specs.declared.refusal.Refusal.TheVariants.{Full};
    ghost use Rattle.xa_line.specs.Ends.{SameIssuer, free_calls_of, heard_by, issued_by, seen_answers_of};
    ghost use Rattle.xa_line.specs.Traffic.{barred};

    /// Lets a call wait, or says why it is refused, as [`Line::issue`](crate::Line::issue) does.
    /// Here `Full` says that no free place was seen: the other end may have taken a call meanwhile,
    /// so the same call may be accepted later.
    #[inline(always)]
    pub fn issue(&mut self, call: Call) -> Result<(), Refusal>
        ensures same { SameIssuer self.old self.new }
        // Why a call is refused.
        ensures reason { MatchOption (barred (issued_by self.old) call)
            (IfErr result (λ reason. (reason ≡ Full) × (free_calls_of self.new ≡ 0)))
            (λ reason. result ≡ Err reason) }
        // What an accepted call adds, and that a refused one changes nothing.
        ensures accepted { OnOk result (issued_by self.new ≡ issued_by self.old ++ call ∷ []) }
        ensures free { OnOk result (free_calls_of self.old ≤ free_calls_of self.new + 1) }
        ensures refused { OnErr result (issued_by self.new ≡ issued_by self.old) }
        ensures kept { OnErr result (free_calls_of self.old ≤ free_calls_of self.new) }
        // The answers stay as they are.
        ensures heard { heard_by self.new ≡ heard_by self.old }
        ensures seen { seen_answers_of self.new ≡ seen_answers_of self.old }
        // If a place was seen, the call is accepted.
        ensures succeeds { barred (issued_by self.old) call ≡ None →
            0 < free_calls_of self.old → IsOk result }
    {
        self.latch.check(&call)?;
        if self.calls.is_full() {
            return Err(Refusal::Full);
        }
        self.latch = self.latch.after(&call);
        self.calls.put(call);
        Ok(())
    }

    /// Hears the oldest waiting answer, with its call. None says that no answer was seen: one may
    /// come later.
    #[inline]
    pub fn hear(&mut self) -> Option<(Call, Answer)>
        ensures same { SameIssuer self.old self.new }
        // What is heard, and what was seen of it before.
        ensures some { IfSome result (λ pair. heard_by self.new ≡ heard_by self.old ++ pair ∷ []) }
        ensures seen { IfSome result (λ pair.
            IsPrefix (seen_answers_of self.old) (pair ∷ seen_answers_of self.new)) }
        ensures none { IfNone result (
            (heard_by self.new ≡ heard_by self.old) × (seen_answers_of self.new ≡ [])) }
        // The calls stay as they are.
        ensures issued { issued_by self.new ≡ issued_by self.old }
        ensures free { free_calls_of self.new ≡ free_calls_of self.old }
        // If an answer was seen, one is heard.
        ensures succeeds { 0 < length (seen_answers_of self.old) → IsSome result }
    {
        let answers = &mut self.answers.consumer;
        if answers.is_empty() {
            return None;
        }
        Some(answers.pop_known())
    }
}
