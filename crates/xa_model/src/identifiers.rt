//! Identifiers and the names that histories know them by.
ghost use Rattle.std.specs.Prelude.{◌≡◌, ℤ, All, List, None, Option, map, option_map};
ghost use Rattle.xa_base.specs.Branch.{IsBranch, branch_of_xid, xid_of_branch};
ghost use Rattle.xa_base.specs.Scan.{page_of};
ghost use Rattle.xa_base.specs.Xid.{IsXid, Xid, xid_cmp};
ghost use Rattle.xa_base.specs.declared.reply.Reply.{Reply};
ghost use Rattle.xa_base.specs.declared.step.Step.{Step};
ghost use Rattle.xa_model.specs.Facts.InDoubt.{name_cmp, xid_of_name};
ghost use Rattle.xa_model.specs.Replies.Allowed.{Allowed};
ghost use Rattle.xa_model.specs.Replies.History.{name_of, reply_of, step_of};
ghost use Rattle.xa_model.specs.Replies.ReadBack.{AnswersOurs, ReplyHasXids, StepHasXids};
ghost use Rattle.xa_model.specs.Replies.ReadBack.{reply_back, step_back};
ghost use Rattle.xa_model.specs.Trace.{Branch, Name, Name.Foreign, Name.Ours, Trace};

/// An identifier and its name are the same thing:
///
/// - `own`, `foreign`: the identifier of a branch of this manager has the branch as its name, and one of another
///   shape itself;
/// - `back`, `pages`: the name gives the identifier back, and the names of a page give back the page;
/// - `order`: names are in the order of their identifiers;
/// - `same_page`: xa_recover lists the same from names as from their identifiers.
pub fn names()
    ensures own { (b : Branch) → IsBranch b → name_of (xid_of_branch b) ≡ Ours b }
    ensures foreign { (x : Xid) → branch_of_xid x ≡ None → name_of x ≡ Foreign x }
    ensures back { (x : Xid) → IsXid x → xid_of_name (name_of x) ≡ x }
    ensures pages { (xs : List Xid) → All IsXid xs → map xid_of_name (map name_of xs) ≡ xs }
    ensures order { (x y : Xid) →
        IsXid x → IsXid y → name_cmp (name_of x) (name_of y) ≡ xid_cmp x y }
    ensures same_page { (count : ℤ) (from : Option (Option Name)) (xs : List Name) →
        option_map (map xid_of_name) (page_of name_cmp count from xs)
        ≡ page_of xid_cmp count (option_map (option_map xid_of_name) from) (map xid_of_name xs) }
{}

/// Nothing of a step or a reply is lost in what a history knows of it:
///
/// - `steps`, `replies`: what a history knows of a step, or of a reply, gives it back;
/// - `ours`: no history allows an answer to a call on another manager's identifier.
pub fn read_back()
    ensures steps { (s : Step Xid) → StepHasXids s → step_back (step_of s) ≡ s }
    ensures replies { (r : Reply Xid) → ReplyHasXids r → reply_back (reply_of r) ≡ r }
    ensures ours { (tr : Trace) (s : Step Name) (r : Reply Name) → Allowed tr s r → AnswersOurs r }
{}
