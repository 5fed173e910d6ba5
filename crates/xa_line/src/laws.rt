//! Lines, and those of histories. These functions do nothing: each contract is a theorem.
ghost use Rattle.std.specs.Prelude.{◌≡◌, ◌++◌, ℕ, length, slice_get, Some, true, false};
ghost use Rattle.std.specs.Option.{option_map};
ghost use Rattle.xa_model.specs.Facts as facts;
ghost use Rattle.xa_model.specs.Replies.History.{step_of};
ghost use Rattle.xa_base.specs.Opening.{comes_unopened, has_closed};
ghost use Rattle.xa_model.specs.Facts.{unheard, waiting};
ghost use Rattle.xa_base.specs.declared.refusal.Refusal.TheVariants.{Closed, Full, NotOpen};
ghost use Rattle.xa_model.specs.Replies.Rules.{applies};
ghost use Rattle.xa_model.specs.Trace.{Happening, Line, Origin, Trace, Trace.From, Trace.Then, line};
ghost use Rattle.xa_base.specs.Xid.{Xid};
ghost use Rattle.xa_base.specs.declared.call.Call.{Call};
ghost use Rattle.xa_base.specs.declared.step.Step.TheVariants.{Issue};
ghost use Rattle.xa_line.specs.Histories.{AreKnownAs, HasGrown, LineStands, known, known_answered};
ghost use Rattle.xa_line.specs.Traffic.{Traffic, calls_issued, is_full, no_traffic};

/// A line refuses a call exactly if a history does:
///
/// - `not_open`, `on_closed`: if the calls issued on the line are those of the history, both refuse
///   a call as not open, or as closed, alike;
/// - `full`: if as many calls wait, both are full alike.
pub fn lines_as_in_histories()
    ensures not_open { (tr : Trace) (t r : ℕ) (c : Call Xid) (l : Traffic) →
        AreKnownAs (calls_issued l) (facts.issued tr (line t r)) →
        comes_unopened (calls_issued l) c ≡ applies tr (step_of (Issue t r c)) NotOpen }
    ensures on_closed { (tr : Trace) (t r : ℕ) (c : Call Xid) (l : Traffic) →
        AreKnownAs (calls_issued l) (facts.issued tr (line t r)) →
        has_closed (calls_issued l) ≡ applies tr (step_of (Issue t r c)) Closed }
    ensures full { (tr : Trace) (t r : ℕ) (c : Call Xid) (l : Traffic) →
        length l.calls.waiting ≡ waiting tr (line t r) →
        is_full l ≡ applies tr (step_of (Issue t r c)) Full }
{}

/// What waits on a line is what waits in a history, as long as the two stand alike (`LineStands`):
/// they have the same calls issued, the same answers and the same answers heard, and each call that
/// was taken was answered:
///
/// - `front`, `front_answer`: the call that `Line::front` shows is the history's next one, and the
///   answer that `Line::front_answer` shows is its next answer, with its call; if one has none, so
///   has the other;
/// - `calls`, `answers`: as many wait;
/// - `new`, `renewed`: a new line stands as at the start of a history, and as after each happening
///   that breaks it;
/// - `goes_on`: a line that isn't broken still stands so after a happening, if the line's calls,
///   answers and answers heard grow by what the happening adds to them (`HasGrown`).
pub fn traffic_as_in_histories()
    // What waits, while the two stand alike.
    ensures front { (tr : Trace) (l : Line) (t : Traffic) → LineStands tr l t →
        option_map known (slice_get t.calls.waiting 0) ≡ option_map Some (facts.next_call tr l) }
    ensures front_answer { (tr : Trace) (l : Line) (t : Traffic) → LineStands tr l t →
        option_map known_answered (slice_get t.answers.waiting 0)
        ≡ option_map Some (facts.next_answer tr l) }
    ensures calls { (tr : Trace) (l : Line) (t : Traffic) → LineStands tr l t →
        length t.calls.waiting ≡ waiting tr l }
    ensures answers { (tr : Trace) (l : Line) (t : Traffic) → LineStands tr l t →
        length t.answers.waiting ≡ unheard tr l }
    // How they come to stand alike, and stay so.
    ensures new { (o : Origin) (l : Line) → LineStands (From o) l no_traffic }
    ensures renewed { (tr : Trace) (e : Happening) (l : Line) → facts.breaks tr e l ≡ true →
        LineStands (Then tr e) l no_traffic }
    ensures goes_on { (tr : Trace) (e : Happening) (l : Line) (old new : Traffic) →
        LineStands tr l old → facts.breaks tr e l ≡ false → HasGrown tr e l old new →
        LineStands (Then tr e) l new }
{}
