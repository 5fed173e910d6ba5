//! What a stored list of events says.
ghost use Rattle.std.specs.Prelude.{◌≡◌, ◌++◌, [], ◌∷◌, List};
ghost use Rattle.xa_base.specs.declared.reply.Event.{Event};
ghost use Rattle.xa_model.specs.Promises.Agreement.{IsMoment};
ghost use Rattle.xa_model.specs.Replies.Allowed.{AllAllowed, Allowed, IsDetermined, IsValue, with_steps};
ghost use Rattle.xa_model.specs.Replies.Rules.{must_refuse, refused_in_order};
ghost use Rattle.xa_model.specs.Replies.History.{AreAllowed, IsAllowedEvent, happening_of, history};
ghost use Rattle.xa_model.specs.Protocol.{AllRight, RightOrigin};
ghost use Rattle.xa_model.specs.Facts.Distinct.{ApartBranches, ApartRecords, ApartRows, IsNewTo};
ghost use Rattle.xa_model.specs.Facts.{branches, doubt, heuristic_rows, log, origin};
ghost use Rattle.xa_model.specs.Replies.Steps.{Reply, Step};
ghost use Rattle.xa_model.specs.Trace.{Origin, Trace, Trace.Then};

/// The replies that a history allows (`Allowed`):
///
/// - `replies`, `events`: if the history before each reply allows it, then each happening is right after those before
///   it: `replies` of steps and replies that name branches, `events` of the events that a system keeps;
/// - `order`: if several refusals apply to a step, the answer is the one with the lowest number;
/// - `answered`: every step has a reply that is allowed;
/// - `valued`: every step has a value: its reply where nothing refuses it, memory is there and the log doesn't fail;
/// - `determined`: that value is the only one, except for a restart of the manager, which may come up in more than one
///   incarnation, and finds the change in doubt made or not.
pub fn replies_are_allowed()
    ensures replies { (tr : Trace) (xs : List (Step × Reply)) →
        AllRight tr → AllAllowed tr xs → AllRight (with_steps tr xs) }
    ensures events { (o : Origin) (events : List Event) →
        RightOrigin o → AreAllowed o events → AllRight (history o events) }
    ensures order { (tr : Trace) (s : Step) → must_refuse tr s ≡ refused_in_order tr s }
    ensures answered { (tr : Trace) (s : Step) → (r : Reply) × Allowed tr s r }
    ensures valued { (tr : Trace) (s : Step) → (r : Reply) × IsValue tr s r }
    ensures determined { (tr : Trace) (s : Step) (q r : Reply) →
        IsDetermined s → IsValue tr s q → IsValue tr s r → q ≡ r }
{}

/// Appending an event to the stored list:
///
/// - `history`: it appends the event's happening to the history;
/// - `allowed`: all replies are allowed, if those before were and the new one is;
/// - `before`: if all replies of a list are allowed, so are those of each beginning of it;
/// - `moment`: each event of a list is a moment of its history.
pub fn one_more_event()
    ensures history { (o : Origin) (events : List Event) (e : Event) →
        history o (events ++ e ∷ []) ≡ Then (history o events) (happening_of e) }
    ensures allowed { (o : Origin) (events : List Event) (e : Event) →
        AreAllowed o events → IsAllowedEvent (history o events) e →
        AreAllowed o (events ++ e ∷ []) }
    ensures before { (o : Origin) (events later : List Event) →
        AreAllowed o (events ++ later) → AreAllowed o events }
    ensures moment { (o : Origin) (events later : List Event) (e : Event) →
        IsMoment (history o events) (happening_of e) (history o (events ++ e ∷ later)) }
{}

/// Nothing is listed twice, so the lengths of the lists count the rows, the records and the branches:
///
/// - `rows`: no transaction has two rows in the log, where none had at the start;
/// - `records`: no branch has two records, where none had at the start;
/// - `branches`: no branch is started twice;
/// - `doubt`: the change in doubt is new: the rows that it adds are of transactions without one, those that it takes away
///   are there, and none comes twice.
pub fn listed_once()
    ensures rows { (tr : Trace) → AllRight tr → ApartRows (origin tr).rows → ApartRows (log tr) }
    ensures records { (tr : Trace) →
        ApartRecords (origin tr).heuristic_rows → ApartRecords (heuristic_rows tr) }
    ensures branches { (tr : Trace) → AllRight tr → ApartBranches (branches tr) }
    ensures doubt { (tr : Trace) → AllRight tr → IsNewTo (log tr) (doubt tr) }
{}
