//! What a whole recovery does.
ghost use Rattle.std.specs.Prelude.{ℕ, List};
ghost use Rattle.xa_model.specs.Replies.Allowed.{AllAllowed, with_steps};
ghost use Rattle.xa_model.specs.Promises.Recovery.{IsRecovered, MayComplete, recovery};
ghost use Rattle.xa_model.specs.Protocol.{AllRight};
ghost use Rattle.xa_model.specs.Trace.{Answer, Call, Name, Trace};

/// A whole recovery completes: after it, every branch that is still prepared at the resource manager belongs to a live
/// transaction.
///
/// A whole recovery begins where no call waits on the first thread's line. One page lists all that is in doubt, the
/// page is heard and resolved, and every call that follows is taken and heard; no step is refused, and no commit is put
/// off. The branches' numbers fit their identifiers.
pub fn recovery_completes()
    ensures { (tr : Trace) (r count : ℕ) (names : List Name) (answers : List (Call × Answer)) →
        AllRight tr → MayComplete tr r count answers
        → AllAllowed tr (recovery r count names answers) →
        IsRecovered (with_steps tr (recovery r count names answers)) r }
{}
