//! The contract of resource managers.

use crate::RmFault;
use xa_base::{Answer, BranchState, Call, Fate, How, Memory, Vote, Xid};

/// A resource manager: the branches of transactions that it holds, and the recovery scans that
/// threads have open there.
///
/// Each call names the one branch that it changes; all others stay as they are. After a fault
/// nothing has changed.
pub trait ResourceManager {
    ghost use Rattle.std.specs.Prelude.{◌≡◌, ◌↔◌, length, true, false, IfOk, IfErr, IsOk, OnOk, OnErr, IsErrOf};
    ghost use Rattle.xa_base.specs.HeldBranch.{completed_by};
    ghost use Rattle.xa_base.specs.Recover.{IsInDoubtList};
    ghost use Rattle.xa_base.specs.Standing.{branch_state_of, fate_of, is_in_doubt, is_prepared};
    ghost use Rattle.xa_base.specs.declared.answer.Answer.TheVariants.{Ret};
    ghost use Rattle.xa_base.specs.declared.code.Code.TheVariants.{Invalid, NotAnXid};
    ghost use Rattle.xa_rm.specs.Look.{Look};
    ghost use Rattle.xa_rm.specs.ResourceManager.{Answers, Breaks, Crashes, Keeps, Recovers, Sets};
    ghost use Rattle.xa_rm.specs.ResourceManager.{answer_to, answer_to_recover, is_of_line, retrying, voting};
    ghost use Rattle.xa_rm.specs.ResourceManager.{HoldsFormat, HoldsNewer, HoldsNoFormat, HoldsPast};

    /// What a contract sees of it: the branch of each identifier, where each thread's recovery scan
    /// stands, and the identifiers in doubt, in order.
    ghost look: { Self → Look };

    /// Answers a thread's call (XA, chapter 5), by the branch state table. A branch that is started
    /// remembers the thread. xa_recover is answered as `recover` answers it.
    ///
    /// xa_open, xa_close and any call answered XAER_INVAL or XAER_NOTA take no memory, and so never
    /// fail.
    fn apply(&mut self, thread: u32, call: &Call) -> Result<Answer, Memory>
        // The answer, and what the call changes: the branch that it names, and the thread's scan.
        ensures ok { IfOk result (λ answer.
            Answers thread call.now answer (look self.old) (look self.new)) }
        ensures err { OnErr result (Keeps (look self.old) (look self.new)) }
        // Neither xa_open and xa_close nor an answer XAER_INVAL or XAER_NOTA takes memory.
        ensures line { is_of_line call.now ≡ true → IsOk result }
        ensures invalid { answer_to (look self.old) thread call.now ≡ Ret Invalid → IsOk result }
        ensures not_found { answer_to (look self.old) thread call.now ≡ Ret NotAnXid →
            IsOk result };

    /// Lists up to `count` identifiers in doubt that stand after the thread's recovery scan, in
    /// order and of any format, and moves the scan after the last of them (XA, chapter 5,
    /// xa_recover).
    ///
    /// `flags` are TMSTARTRSCAN, which puts the scan at the start, and TMENDRSCAN, which ends it
    /// after the call. The answer is XAER_INVAL, and nothing changes, at any other flag, at a
    /// negative count, and if no scan is open and none is started.
    fn recover(&mut self, thread: u32, count: i64, flags: u32) -> Result<Answer, Memory>
        ensures ok { IfOk result (λ answer.
            Recovers thread count flags answer (look self.old) (look self.new)) }
        ensures err { OnErr result (Keeps (look self.old) (look self.new)) }
        // An answer XAER_INVAL takes no memory.
        ensures invalid { answer_to_recover (look self.old) thread count flags ≡ Ret Invalid →
            IsOk result };

    /// Sets how the branch votes when it is next prepared or committed in one phase. The last vote
    /// set counts, and without one it is yes. The vote stays with the identifier: a crash doesn't
    /// change it, nor does the branch's end.
    ///
    /// `RmFault::Script` if the branch is prepared or heuristically completed, and so has voted.
    fn vote(&mut self, xid: &Xid, vote: Vote) -> Result<(), RmFault>
        ensures script { IsErrOf result RmFault.Script
            ↔ (is_in_doubt ((look self.old).held xid.now).standing ≡ true) }
        ensures ok { OnOk result (Sets xid.now (voting vote) (look self.old) (look self.new)) }
        ensures err { OnErr result (Keeps (look self.old) (look self.new)) };

    /// Sets how many times xa_commit of the branch, while it is prepared, answers XA_RETRY. A crash
    /// changes none of it.
    ///
    /// The fault is never `RmFault::Script`.
    fn retry(&mut self, xid: &Xid, times: u32) -> Result<(), RmFault>
        ensures never_script { IfErr result (λ fault. fault ≡ RmFault.Memory) }
        ensures ok { OnOk result (Sets xid.now (retrying times) (look self.old) (look self.new)) }
        ensures err { OnErr result (Keeps (look self.old) (look self.new)) };

    /// Ends a prepared branch without being told to (XA, section 2.3.3, Heuristic Branch
    /// Completion).
    ///
    /// `RmFault::Script` if the branch isn't prepared.
    fn heuristic(&mut self, xid: &Xid, how: How) -> Result<(), RmFault>
        ensures script { IsErrOf result RmFault.Script
            ↔ (is_prepared ((look self.old).held xid.now).standing ≡ false) }
        ensures ok { OnOk result
            (Sets xid.now (completed_by how) (look self.old) (look self.new)) }
        ensures err { OnErr result (Keeps (look self.old) (look self.new)) };

    /// A line of the thread broke: each branch that the thread started is lost, if it isn't
    /// prepared or completed, and the thread's recovery scan is closed. No memory is taken.
    fn break_line(&mut self, thread: u32)
        ensures { Breaks thread (look self.old) (look self.new) };

    /// The lines of all threads broke. Each branch that isn't prepared or completed is lost, and
    /// all recovery scans are closed. No memory is taken.
    ///
    /// The resource manager itself has crashed or, with all its lines, the transaction manager has.
    /// A failure of its log brings the transaction manager down too.
    fn crash(&mut self)
        ensures { Crashes (look self.old) (look self.new) };

    /// The state of a branch (XA, chapter 6, State Tables).
    fn state(&self, xid: &Xid) -> BranchState
        ensures { result ≡ branch_state_of ((look self.now).held xid.now).standing };

    /// What became of a branch.
    fn fate(&self, xid: &Xid) -> Fate
        ensures { result ≡ fate_of ((look self.now).held xid.now).standing };

    /// Whether a branch of this format was ever started.
    fn holds_format(&self, format: i32) -> bool
        ensures held { result ≡ true → HoldsFormat (look self.now).held format }
        ensures clear { result ≡ false → HoldsNoFormat (look self.now).held format };

    /// Whether a branch of this manager was ever started that is of another resource manager than
    /// this number or of no earlier incarnation, or whose numbers no row of a log can hold.
    fn holds_newer(&self, rm: u32, incarnation: u64) -> bool
        ensures newer { result ≡ true → HoldsNewer (look self.now).held rm incarnation }
        ensures past { result ≡ false → HoldsPast (look self.now).held rm incarnation };

    /// How many identifiers are in doubt. No page lists more.
    fn in_doubt_len(&self) -> usize
        ensures len { result ≡ length (look self.now).in_doubt }
        ensures in_doubt { IsInDoubtList (look self.now).held (look self.now).in_doubt };
}
