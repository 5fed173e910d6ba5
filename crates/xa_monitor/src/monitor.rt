//! What is known of where each branch stands, by all that was answered.

ghost use Rattle.std.specs.Prelude.{◌≡◌, ℕ, Some, None, IfSome, OnOk, OnErr};
ghost use Rattle.std.specs.Option.{option_copied};
ghost use Rattle.xa_base.specs.Answer.{map_answer};
ghost use Rattle.xa_base.specs.StateTable.{asks_of};
ghost use Rattle.xa_base.specs.declared.answer.Answer.TheVariants.{Ret};
ghost use Rattle.xa_model.specs.Replies.History.{name_of};
ghost use Rattle.xa_model.specs.Trace.{Answer as KnownAnswer, Branch as Named, Call as KnownCall, Happening, Line, Origin, line};
ghost use Rattle.xa_monitor.specs.Entries.{HasNoRoom, HasRoomForAnswer, HasRoomIf, branch_in_call};
ghost use Rattle.xa_monitor.specs.Explained.{HasOnlyOlderRows, IsExplained};
ghost use Rattle.xa_monitor.specs.Seen.{KeepsRules, Seen};
ghost use Rattle.xa_monitor.specs.Standings.{Explained, ExplainsAsked, MayBeDone};

use crate::States;
use crate::entries::{
    break_line, drop_room, first_unlistable, list_all, put, reserve, reserve_all, states_at,
};
use std::alloc::Global;
use std::collections::BTreeMap;
use xa_base::{Answer, Branch, Call, Code, Memory};

/// Of each branch the states of XA's table that explain all that was answered (XA, chapter 6, State Tables).
///
/// It is told each answer to a call that waited, and each line that was lost. It says beforehand whether some state explains
/// an answer; one that none explains isn't followed, so each branch is always in some state. What the manager does by
/// itself moves no branch, and isn't told.
///
/// Memory is kept for a branch while it may be in other states than before anything was heard of it. So one of this
/// incarnation that is gone takes none.
#[derive(Drop)]
pub struct Monitor {
    incarnation: u64,
    branches: BTreeMap<Branch, States>,
}

impl Monitor {
    ghost use Rattle.xa_monitor.specs.Monitor.{AllExplain, CanExplain, HearsAnswer, IsUnexplained, LeadsExactly, Loses, Monitors, SaysTheSame, known, known_if, states_of};

    /// Nothing was heard yet in this incarnation of the manager: a branch of an older one is in `States::found()`, any
    /// other in `States::unstarted()`. No memory is taken.
    pub fn new(alloc: Global, incarnation: u64) -> Monitor
        ensures { (o : Origin) → o.incarnation ≡ incarnation → Monitors o Seen.Start result }
    {
        Monitor {
            incarnation,
            branches: BTreeMap::new(alloc),
        }
    }

    /// The states in which a branch may be.
    pub fn states(&self, b: Branch) -> States
        ensures { result ≡ states_of self.now b }
    {
        states_at(&self.branches, self.incarnation, b)
    }

    /// A branch of which no state explains this answer of a resource manager to the call, if there is one. A code has to
    /// be explained by the branch of the call, a page by each branch of this manager that it lists: it is of that
    /// resource manager, and in doubt.
    ///
    /// - `some`: no state of this branch explains the answer;
    /// - `none`: of each branch that is in some state, one does. A branch always is, where the monitor was told all
    ///   (`Monitors`).
    pub fn unexplained(&self, rm: u32, call: &Call, answer: &Answer) -> Option<Branch>
        ensures some { IfSome result (λ b. (t : ℕ) (c : KnownCall) → known call.now ≡ Some c →
            CanExplain (states_of self.now) (line t rm) c (map_answer name_of answer.now) b → ⊥) }
        ensures none { result ≡ None → (t : ℕ) (c : KnownCall) → known call.now ≡ Some c →
            AllExplain (states_of self.now) (line t rm) c (map_answer name_of answer.now) }
    {
        match answer {
            Answer::Ret(code) => self.unexplained_by_code(call, *code),
            Answer::Page(page) => first_unlistable(
                &self.branches,
                self.incarnation,
                rm,
                page.xids(),
            ),
        }
    }

    /// Makes room for such an answer to the call, so that [`Monitor::follow`] asks for no memory. What is known of the
    /// branches stays. Where memory was refused, there is no room left.
    pub fn make_room(&mut self, call: &Call, answer: &Answer) -> Result<(), Memory>
        ensures room { OnOk result (HasRoomForAnswer self.new.branches call.now answer.now) }
        ensures same { SaysTheSame self.old self.new }
        ensures dropped { OnErr result (HasNoRoom self.new.incarnation self.new.branches) }
    {
        match self.reserve(call, answer) {
            Ok(()) => Ok(()),
            Err(Memory) => {
                self.drop_room();
                Err(Memory)
            }
        }
    }

    /// Gives the room back that was made for an answer which then wasn't followed.
    pub fn drop_room(&mut self)
        ensures same { SaysTheSame self.old self.new }
        ensures dropped { HasNoRoom self.new.incarnation self.new.branches }
    {
        drop_room(&mut self.branches, self.incarnation);
    }

    /// A resource manager answered the call so, to any thread; for which there is room.
    ///
    /// If each branch explains the answer (`none` of [`Monitor::unexplained`]), the monitor has followed it.
    pub fn follow(&mut self, call: &Call, answer: &Answer)
        requires { HasRoomForAnswer self.old.branches call.now answer.now }
        ensures { (l : Line) (c : KnownCall) → known call.now ≡ Some c →
            AllExplain (states_of self.old) l c (map_answer name_of answer.now) →
            HearsAnswer l c (map_answer name_of answer.now) self.old self.new }
    {
        self.narrow(call, answer);
    }

    /// The line of a thread to a resource manager was lost, with the call that waited first on it, if one did: it may have
    /// been done, with any answer. What was started on the line and isn't prepared is gone.
    ///
    /// Where memory was refused, no states have changed.
    pub fn lose_line(&mut self, thread: u32, rm: u32, call: Option<&Call>) -> Result<(), Memory>
        ensures ok { OnOk result (Loses (line thread rm) (known_if (option_copied call.entry))
            self.old self.new) }
        ensures same { OnErr result (SaysTheSame self.old self.new) }
    {
        self.doubt_first(call)?;
        break_line(&mut self.branches, self.incarnation, thread, rm);
        Ok(())
    }

    /// What a monitor that followed what was seen says of it. This function does nothing: its contract is a theorem.
    ///
    /// - `explained`: if the manager kept its own rules, what was seen has a right history;
    /// - `did`: what the manager did needs no telling;
    /// - `unexplained`: an answer that no state of a branch explains, no standing of it explains, by all that was seen.
    pub fn what_was_seen_is_explained(&self)
        ensures explained { (o : Origin) (seen : Seen) → HasOnlyOlderRows o → KeepsRules o seen →
            Monitors o seen self.now → IsExplained o seen }
        ensures did { (o : Origin) (seen : Seen) (e : Happening) → Monitors o seen self.now →
            Monitors o (Seen.Did seen e) self.now }
        ensures unexplained { (o : Origin) (seen : Seen) (l : Line) (c : KnownCall)
            (a : KnownAnswer) (b : Named) → (CanExplain (states_of self.now) l c a b → ⊥) → Monitors o seen self.now →
            IsUnexplained o (Seen.Answered seen l c a) b }
    {}

    /// The branch of the call, if none of its states explains the code.
    fn unexplained_by_code(&self, call: &Call, code: Code) -> Option<Branch>
        ensures some { IfSome result (λ b. (l : Line) (c : KnownCall) → known call.now ≡ Some c →
            CanExplain (states_of self.now) l c (Ret code) b → ⊥) }
        ensures none { result ≡ None → (l : Line) (c : KnownCall) → known call.now ≡ Some c →
            AllExplain (states_of self.now) l c (Ret code) }
    {
        let b = branch_of(call)?;
        if self.states(b).after(call, code).is_empty() {
            Some(b)
        } else {
            None
        }
    }

    /// Makes room for such an answer to the call.
    fn reserve(&mut self, call: &Call, answer: &Answer) -> Result<(), Memory>
        ensures room { OnOk result (HasRoomForAnswer self.new.branches call.now answer.now) }
        ensures same { SaysTheSame self.old self.new }
    {
        match answer {
            Answer::Ret(_) => self.reserve_for(call),
            Answer::Page(page) => { reserve_all(&mut self.branches, self.incarnation, page.xids()) }
        }
    }

    /// Makes room for the branch that a call is on.
    fn reserve_for(&mut self, call: &Call) -> Result<(), Memory>
        ensures room { OnOk result (HasRoomIf self.new.branches (branch_in_call call.now)) }
        ensures same { SaysTheSame self.old self.new }
    {
        match branch_of(call) {
            Some(b) => reserve(&mut self.branches, self.incarnation, b),
            None => Ok(()),
        }
    }

    /// Leaves the states to which an answer leads that some state of each branch explains.
    fn narrow(&mut self, call: &Call, answer: &Answer)
        requires { HasRoomForAnswer self.old.branches call.now answer.now }
        ensures { (l : Line) (c : KnownCall) → known call.now ≡ Some c →
            ((b : Named) → CanExplain (states_of self.old) l c (map_answer name_of answer.now) b) →
            LeadsExactly (states_of self.old) (Explained l c (map_answer name_of answer.now))
            (states_of self.new) }
    {
        match answer {
            Answer::Ret(code) => self.hear_code(call, *code),
            Answer::Page(page) => list_all(&mut self.branches, self.incarnation, page.xids()),
        }
    }

    /// The call was answered by a code.
    fn hear_code(&mut self, call: &Call, code: Code)
        requires { HasRoomIf self.old.branches (branch_in_call call.now) }
        ensures { (c : KnownCall) → known call.now ≡ Some c →
            LeadsExactly (states_of self.old) (ExplainsAsked (asks_of c) code)
            (states_of self.new) }
    {
        if let Some(b) = branch_of(call) {
            let states = self.states(b).after(call, code);
            put(&mut self.branches, self.incarnation, b, states);
        }
    }

    /// The call that waited first, if one did, was done or wasn't.
    fn doubt_first(&mut self, call: Option<&Call>) -> Result<(), Memory>
        ensures ok { OnOk result (LeadsExactly (states_of self.old)
            (MayBeDone (known_if (option_copied call.entry))) (states_of self.new)) }
        ensures err { OnErr result (SaysTheSame self.old self.new) }
    {
        match call {
            Some(call) => self.doubt(call),
            None => Ok(()),
        }
    }

    /// The call was done, and answered in any way, or it wasn't done.
    fn doubt(&mut self, call: &Call) -> Result<(), Memory>
        ensures ok { OnOk result
            (LeadsExactly (states_of self.old) (MayBeDone (known call.now)) (states_of self.new)) }
        ensures err { OnErr result (SaysTheSame self.old self.new) }
    {
        self.reserve_for(call)?;
        if let Some(b) = branch_of(call) {
            let states = self.states(b).or_done(call);
            put(&mut self.branches, self.incarnation, b, states);
        }
        Ok(())
    }
}

/// The branch of this manager that a call is on, if it is on one.
fn branch_of(call: &Call) -> Option<Branch>
    ensures { result ≡ branch_in_call call.now }
{
    call.xid()?.branch()
}
