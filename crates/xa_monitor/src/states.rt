//! The states in which a branch may be, by all that was answered.
ghost use Rattle.std.specs.Prelude.{◌≡◌, false};
ghost use Rattle.xa_monitor.specs.Rows.{is_some_end, only_end};

use xa_base::{Call, Code, How, RbCode};

/// Heuristic ends in which a branch may be: some of the four.
#[derive(Clone, Copy, Debug, PartialEq, Eq)]
pub struct HeuristicEnds {
    pub heurcom: bool,
    pub heurrb: bool,
    pub heurmix: bool,
    pub heurhaz: bool,
}

impl HeuristicEnds {
    const NONE: HeuristicEnds = HeuristicEnds {
        heurcom: false,
        heurrb: false,
        heurmix: false,
        heurhaz: false,
    };

    const ANY: HeuristicEnds = HeuristicEnds {
        heurcom: true,
        heurrb: true,
        heurmix: true,
        heurhaz: true,
    };

    /// Whether there is one.
    fn is_some(self) -> bool
        ensures { result ≡ is_some_end self }
    {
        self.heurcom || self.heurrb || self.heurmix || self.heurhaz
    }

    /// This one alone, if it is among them.
    fn only(self, how: How) -> HeuristicEnds
        ensures { result ≡ only_end how self }
    {
        match how {
            How::Com => HeuristicEnds {
                heurcom: self.heurcom,
                ..HeuristicEnds::NONE
            },
            How::Rb => HeuristicEnds {
                heurrb: self.heurrb,
                ..HeuristicEnds::NONE
            },
            How::Mix => HeuristicEnds {
                heurmix: self.heurmix,
                ..HeuristicEnds::NONE
            },
            How::Haz => HeuristicEnds {
                heurhaz: self.heurhaz,
                ..HeuristicEnds::NONE
            },
        }
    }
}

/// The states of XA's table in which a branch may be (XA, chapter 6, State Tables): for each whether it is one of them.
#[derive(Clone, Copy, Debug, PartialEq, Eq)]
pub struct States {
    /// Non-existent.
    pub s0: bool,
    /// Active.
    pub s1: bool,
    /// Idle.
    pub s2: bool,
    /// Prepared.
    pub s3: bool,
    /// Rollback-only.
    pub s4: bool,
    /// Heuristically completed, in each of these ways.
    pub s5: HeuristicEnds,
}

impl States {
    ghost use Rattle.std.specs.Prelude.{◌↔◌, ◌||◌, IsTrue, true};
    ghost use Rattle.xa_base.specs.Standing.{is_in_doubt};
    ghost use Rattle.xa_base.specs.StateTable.{Kind, State, asks_of, broken, commit_kind, state_of};
    ghost use Rattle.xa_base.specs.declared.state.Standing.{Standing};
    ghost use Rattle.xa_monitor.specs.Rows.{after_forget, after_join, after_start, any_row, any_row_if, break_row, found_by_call, is_some_state, none, page_row, row_if, states_after_commit, states_after_end, states_after_one_phase, states_after_prepare, states_after_rollback};
    ghost use Rattle.xa_monitor.specs.States.{AskedOrNot, LeadsInto, LeadsOnto, MovesAsAsked, has};

    const NONE: States = States {
        s0: false,
        s1: false,
        s2: false,
        s3: false,
        s4: false,
        s5: HeuristicEnds::NONE,
    };

    /// S0 alone.
    pub(crate) const UNSTARTED: States = States {
        s0: true,
        ..States::NONE
    };

    /// S0, S3 and S5.
    pub(crate) const FOUND: States = States {
        s3: true,
        s5: HeuristicEnds::ANY,
        ..States::UNSTARTED
    };

    /// The states of a branch that was never started: S0 alone.
    pub fn unstarted() -> States
        ensures { (s : State) → has result s ≡ true ↔ (s ≡ State.S0) }
    {
        States::UNSTARTED
    }

    /// The states of a branch of which nothing was heard, and which an older incarnation may have started: it is prepared
    /// or ended heuristically, or there is none.
    pub fn found() -> States
        ensures { (f : Standing) → has result (state_of f) ≡ true ↔ (broken f ≡ f) }
    {
        States::FOUND
    }

    /// Whether there is no state: nothing explains what was answered.
    pub fn is_empty(self) -> bool
        ensures { IsTrue result ↔ ((s : State) → has self s ≡ false) }
    {
        !self.is_some()
    }

    /// The states behind a call on the branch that was answered so.
    ///
    /// - `into`: wherever the answer leads by the branch state table, from these states, is among them;
    /// - `onto`: to each of them the answer leads, from some of these states.
    pub fn after<X>(self, call: &Call<X>, code: Code) -> States
        ensures into { LeadsInto self (MovesAsAsked (asks_of call.now) code) result }
        ensures onto { LeadsOnto self (MovesAsAsked (asks_of call.now) code) result }
    {
        self.by_row(call, code)
    }

    /// The states behind a call that wasn't answered: it was done, with any answer, or it wasn't.
    ///
    /// - `into`: wherever some answer leads by the branch state table, from these states, is among them, and they are too;
    /// - `onto`: to each of them some answer leads, from some of these states, or it is one of these.
    pub fn or_done<X>(self, call: &Call<X>) -> States
        ensures into { LeadsInto self (AskedOrNot (asks_of call.now)) result }
        ensures onto { LeadsOnto self (AskedOrNot (asks_of call.now)) result }
    {
        self.by_any_row(call)
    }

    /// The states after a break of the line on which the branch was started: what isn't prepared is gone.
    pub fn off_line(self) -> States
        ensures into { LeadsInto self (λ f g. g ≡ broken f) result }
        ensures onto { LeadsOnto self (λ f g. g ≡ broken f) result }
    {
        self.by_break()
    }

    /// Those of a branch that a page of its resource manager lists: S3 and S5.
    pub fn in_doubt(self) -> States
        ensures into { LeadsInto self (λ f g. (g ≡ f) × (is_in_doubt f ≡ true)) result }
        ensures onto { LeadsOnto self (λ f g. (g ≡ f) × (is_in_doubt f ≡ true)) result }
    {
        self.by_page()
    }

    /// S3 and S5, if they are among them.
    pub(crate) fn by_page(self) -> States
        ensures { result ≡ page_row self }
    {
        States {
            s3: self.s3,
            s5: self.s5,
            ..States::NONE
        }
    }

    /// The states after a break: S0 in the place of S1, S2 and S4.
    pub(crate) fn by_break(self) -> States
        ensures { result ≡ break_row self }
    {
        States {
            s0: self.may_be_lost(),
            s1: false,
            s2: false,
            s4: false,
            ..self
        }
    }

    /// Whether there may be no branch after a break.
    fn may_be_lost(self) -> bool
        ensures { result ≡ (self.s0 || (self.s1 || (self.s2 || self.s4))) }
    {
        self.s0 || self.s1 || self.s2 || self.s4
    }

    /// Whether there is one.
    pub(crate) fn is_some(self) -> bool
        ensures { result ≡ is_some_state self }
    {
        self.s0 || self.s1 || self.s2 || self.s3 || self.s4 || self.s5.is_some()
    }

    /// The states behind a call that was answered so, by the row of the table.
    fn by_row<X>(self, call: &Call<X>, code: Code) -> States
        ensures { result ≡ row_if (asks_of call.now) code self }
    {
        let states = self.found_by_call();
        match call {
            Call::Start { join: false, .. } => states.after_start(code),
            Call::Start { join: true, .. } => states.after_join(code),
            Call::End { fail, .. } => states.after_end(*fail, code),
            Call::Prepare { .. } => states.after_prepare(code),
            Call::Commit {
                one_phase: false,
                ..
            } => states.after_commit(code),
            Call::Commit {
                one_phase: true,
                ..
            } => states.after_one_phase(code),
            Call::Rollback { .. } => states.after_rollback(code),
            Call::Forget { .. } => states.after_forget(code),
            Call::OpenRm | Call::CloseRm | Call::Recover { .. } => self,
        }
    }

    /// The states behind a call that was answered in any way or wasn't done, by the row of the table.
    fn by_any_row<X>(self, call: &Call<X>) -> States
        ensures { result ≡ any_row_if (asks_of call.now) self }
    {
        let found = self.found_by_call();
        match call {
            Call::Start { join: false, .. } => States {
                s1: found.s1 || found.s0,
                ..found
            },
            Call::Start { join: true, .. } => found,
            Call::End { fail, .. } => self.by_any_end(*fail),
            Call::Prepare { .. } => States {
                s0: found.s0 || found.s2,
                s3: found.s3 || found.s2,
                ..found
            },
            Call::Commit { one_phase, .. } => self.by_any_commit(*one_phase),
            Call::Rollback { .. } => States {
                s0: found.s0 || found.s2 || found.s3 || found.s4,
                ..found
            },
            // What is forgotten is gone, also where it ended just before.
            Call::Forget { .. } => States {
                s0: found.s0 || found.s5.is_some(),
                ..self
            },
            Call::OpenRm | Call::CloseRm | Call::Recover { .. } => self,
        }
    }

    /// The same of xa_end, with TMFAIL or TMSUCCESS.
    fn by_any_end(self, fail: bool) -> States
        ensures { result ≡ any_row (Kind.End fail) self }
    {
        let found = self.found_by_call();
        if fail {
            States {
                s4: found.s4 || found.s1,
                ..found
            }
        } else {
            States {
                s2: found.s2 || found.s1,
                ..found
            }
        }
    }

    /// The same of xa_commit, with TMONEPHASE or without it.
    fn by_any_commit(self, one_phase: bool) -> States
        ensures { result ≡ any_row (commit_kind one_phase) self }
    {
        let found = self.found_by_call();
        if one_phase {
            States {
                s0: found.s0 || found.s2,
                ..found
            }
        } else {
            States {
                s0: found.s0 || found.s3,
                ..found
            }
        }
    }

    /// The states that a call may find: a resource manager may have ended a prepared branch by itself.
    fn found_by_call(self) -> States
        ensures { result ≡ found_by_call self }
    {
        States {
            s5: HeuristicEnds {
                heurcom: self.s5.heurcom || self.s3,
                heurrb: self.s5.heurrb || self.s3,
                heurmix: self.s5.heurmix || self.s3,
                heurhaz: self.s5.heurhaz || self.s3,
            },
            ..self
        }
    }

    /// The same behind xa_start, without TMJOIN.
    fn after_start(self, code: Code) -> States
        ensures { result ≡ after_start code self }
    {
        match code {
            Code::Success => States {
                s1: self.s0,
                ..States::NONE
            },
            Code::DuplicateXid => States { s0: false, ..self },
            _ => States::NONE,
        }
    }

    /// The same behind xa_start with TMJOIN.
    fn after_join(self, code: Code) -> States
        ensures { result ≡ after_join code self }
    {
        match code {
            Code::NotAnXid => self.only_s0(),
            Code::Protocol => States { s0: false, ..self },
            _ => States::NONE,
        }
    }

    /// The same behind xa_end, with TMFAIL or TMSUCCESS.
    fn after_end(self, fail: bool, code: Code) -> States
        ensures { result ≡ states_after_end fail code self }
    {
        match (fail, code) {
            (false, Code::Success) => States {
                s2: self.s1,
                ..States::NONE
            },
            (true, Code::RolledBack(RbCode::Rollback)) => States {
                s4: self.s1,
                ..States::NONE
            },
            (_, Code::NotAnXid) => self.only_s0(),
            (_, Code::Protocol) => States {
                s0: false,
                s1: false,
                ..self
            },
            _ => States::NONE,
        }
    }

    /// The same behind xa_prepare.
    fn after_prepare(self, code: Code) -> States
        ensures { result ≡ states_after_prepare code self }
    {
        match code {
            Code::Success => States {
                s3: self.s2,
                ..States::NONE
            },
            Code::ReadOnly | Code::RolledBack(_) => States {
                s0: self.s2,
                ..States::NONE
            },
            Code::NotAnXid => self.only_s0(),
            Code::Protocol => States {
                s0: false,
                s2: false,
                ..self
            },
            _ => States::NONE,
        }
    }

    /// The same behind xa_commit, without TMONEPHASE.
    fn after_commit(self, code: Code) -> States
        ensures { result ≡ states_after_commit code self }
    {
        match code {
            Code::Success => States {
                s0: self.s3,
                ..States::NONE
            },
            Code::Retry => States {
                s3: self.s3,
                ..States::NONE
            },
            Code::Heuristic(how) => self.only_ended(how),
            Code::NotAnXid => self.only_s0(),
            Code::Protocol => States {
                s1: self.s1,
                s2: self.s2,
                s4: self.s4,
                ..States::NONE
            },
            _ => States::NONE,
        }
    }

    /// The same behind xa_commit with TMONEPHASE.
    fn after_one_phase(self, code: Code) -> States
        ensures { result ≡ states_after_one_phase code self }
    {
        match code {
            Code::Success | Code::RolledBack(_) => States {
                s0: self.s2,
                ..States::NONE
            },
            Code::Heuristic(how) => self.only_ended(how),
            Code::NotAnXid => self.only_s0(),
            Code::Protocol => States {
                s1: self.s1,
                s3: self.s3,
                s4: self.s4,
                ..States::NONE
            },
            _ => States::NONE,
        }
    }

    /// The same behind xa_rollback.
    fn after_rollback(self, code: Code) -> States
        ensures { result ≡ states_after_rollback code self }
    {
        match code {
            Code::Success => States {
                s0: self.s2 || self.s3,
                ..States::NONE
            },
            Code::RolledBack(RbCode::Rollback) => States {
                s0: self.s4,
                ..States::NONE
            },
            Code::Heuristic(how) => self.only_ended(how),
            Code::NotAnXid => self.only_s0(),
            Code::Protocol => States {
                s1: self.s1,
                ..States::NONE
            },
            _ => States::NONE,
        }
    }

    /// The same behind xa_forget.
    fn after_forget(self, code: Code) -> States
        ensures { result ≡ after_forget code self }
    {
        match code {
            Code::Success => States {
                s0: self.s5.is_some(),
                ..States::NONE
            },
            Code::NotAnXid => self.only_s0(),
            Code::Protocol => States {
                s0: false,
                s5: HeuristicEnds::NONE,
                ..self
            },
            _ => States::NONE,
        }
    }

    /// S0 alone, if it is among them.
    fn only_s0(self) -> States
        ensures { result ≡ record none { s0 = self.s0 } }
    {
        States {
            s0: self.s0,
            ..States::NONE
        }
    }

    /// S5 with this code alone, if it is among them.
    fn only_ended(self, how: How) -> States
        ensures { result ≡ record none { s5 = only_end how self.s5 } }
    {
        States {
            s5: self.s5.only(how),
            ..States::NONE
        }
    }
}
