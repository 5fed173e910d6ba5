//! What decisions make that are written together, and what is left where rows are taken away together. These functions do
//! nothing: each contract is a theorem.
ghost use Rattle.std.specs.Prelude.{◌≡◌, ◌<◌, ℕ, List, None, Some, get_or, length, take, if◌then◌else◌};
ghost use Rattle.std.specs.FinMap.{get};
ghost use Rattle.std.specs.List.{find, list_any};
ghost use Rattle.std.specs.Option.{option_map};
ghost use Rattle.xa_base.specs.Branch.{branch_cmp, gtrid_eq};
ghost use Rattle.xa_base.specs.declared.branch.Gtrid.{Gtrid};
ghost use Rattle.xa_log.specs.Content.{Content, logged_as, logged_each, with_commits, without_decisions};
ghost use Rattle.xa_log.specs.KeySet.{KeySet, from_list};
ghost use Rattle.xa_log.specs.declared.decision.Decision.{Decision};
ghost use Rattle.xa_log.specs.declared.decision_log.Logged.{Logged};

/// Decisions that are written together, each in its turn
/// ([`DecisionLog::commit_all`](crate::DecisionLog::commit_all)), leave this:
///
/// - `there`: a transaction that had a row has it still, with its own participants;
/// - `first`: one that had none has that of the first decision that names it, and none where no decision does;
/// - `heuristics`, `incarnation`: the records of heuristic branches and the incarnation stay;
/// - `answers`, `turn`: each decision has one answer, whether its transaction had a row once those before it were
///   written.
pub fn decisions_in_turn()
    ensures there { (ds : List Decision) (c : Content) (g : Gtrid) (set : KeySet branch_cmp) →
        get c.decisions g ≡ Some set → get (with_commits ds c).decisions g ≡ Some set }
    ensures first { (ds : List Decision) (c : Content) (g : Gtrid) → get c.decisions g ≡ None →
        get (with_commits ds c).decisions g
        ≡ option_map (λ d. from_list d.participants.items) (find (λ d. gtrid_eq g d.gtrid) ds) }
    ensures heuristics { (ds : List Decision) (c : Content) →
        (with_commits ds c).heuristics ≡ c.heuristics }
    ensures incarnation { (ds : List Decision) (c : Content) →
        (with_commits ds c).incarnation ≡ c.incarnation }
    ensures answers { (ds : List Decision) (c : Content) →
        length (logged_each ds c) ≡ length ds }
    ensures turn { (ds : List Decision) (c : Content) (i : ℕ) (d : Decision) (l : Logged) →
        i < length ds →
        get_or (logged_each ds c) i l
        ≡ logged_as (with_commits (take i ds) c) (get_or ds i d).gtrid }
{}

/// Rows that are taken away together ([`DecisionLog::done_all`](crate::DecisionLog::done_all)) leave this:
///
/// - `rows`: a transaction that is named has no row; each other has what it had, with its own participants;
/// - `heuristics`, `incarnation`: the records of heuristic branches and the incarnation stay.
pub fn rows_left_together()
    ensures rows { (gs : List Gtrid) (c : Content) (g : Gtrid) →
        get (without_decisions gs c).decisions g
        ≡ (if list_any (gtrid_eq g) gs then None else get c.decisions g) }
    ensures heuristics { (gs : List Gtrid) (c : Content) →
        (without_decisions gs c).heuristics ≡ c.heuristics }
    ensures incarnation { (gs : List Gtrid) (c : Content) →
        (without_decisions gs c).incarnation ≡ c.incarnation }
{}
