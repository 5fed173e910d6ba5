//! What the manager makes of an answer.

ghost use Rattle.std.specs.Prelude.{◌≡◌, ◌≢◌, Bool, Option, Some, None, IsSome, Err, IfErr, OnOk, OnErr};
ghost use Rattle.xa_base.specs.StateTable.{on};
ghost use Rattle.xa_base.specs.declared.answer.Answer.TheVariants.{Ret};
ghost use Rattle.xa_model.specs.Trace.{Fault.InHear, Call as KnownCall, Kind, Line, line, Happening.Heard};
ghost use Rattle.xa_base.specs.declared.refusal.Refusal.TheVariants as Refusals;
ghost use Rattle.xa_tm.specs.Book.{after, doubt_of};
ghost use Rattle.xa_model.specs.Facts.{record_of};
ghost use Rattle.xa_base.specs.Call.{map_call};
ghost use Rattle.xa_base.specs.Answer.{map_answer};
ghost use Rattle.xa_model.specs.Replies.Steps.{accepted};
ghost use Rattle.xa_model.specs.Replies.History.{name_of};
ghost use Rattle.xa_base.specs.declared.code.Code.{Code};
ghost use Rattle.xa_log.specs.Contract.{LeavesAlso, FitsRow, MayMake, faults_after};
ghost use Rattle.xa_tm.specs.Answering.{FitsRecord, IsAnswerTo, MakesRecord};
ghost use Rattle.xa_tm.specs.News.{news_by, recording};
ghost use Rattle.xa_tm.specs.BookAndLog.{MakesOf, changed_by};
ghost use Rattle.xa_tm.specs.LedgerBook.{IsSound, doubt_of_change};
ghost use Rattle.xa_tm.specs.Calls.{AsksFor, FailsBy, book_in, log_in};
ghost use Rattle.xa_tm.specs.LogUse.{UsesLog};
ghost use Rattle.xa_tm.specs.BookAndLog.{IsTied};
ghost use Rattle.xa_tm.specs.Ties.{StaysTied};

use crate::change::Change;
use crate::manager::Manager;
use crate::news::{News, branch_of};
use xa_base::{Answer, Branch, Call, How, Refusal};
use xa_log::{DecisionLog, LogFault};

impl<L: DecisionLog + Drop> Manager<L> {
    /// Hears an answer to a call. A heuristic code to xa_commit or xa_rollback is noted in the log
    /// first (XA, section 2.3.3, Heuristic Branch Completion).
    pub fn hear(
        &mut self,
        thread: u32,
        rm: u32,
        call: &Call,
        answer: &Answer,
    ) -> Result<(), Refusal>
        requires sound { IsSound (book_in self.old) }
        requires answers { IsAnswerTo (map_call name_of call.now) (map_answer name_of answer.now) }
        requires fits { FitsRecord (map_call name_of call.now) (map_answer name_of answer.now) }
        // It hears only while it is up.
        ensures down { (book_in self.old).up ≡ Bool.false → (result ≡ Err Refusals.ManagerDown) ×
            (self.new ≡ self.old) }
        ensures up { OnOk result ((book_in self.old).up ≡ Bool.true) }
        // What the book then says.
        ensures ok { OnOk result ((c : KnownCall) → accepted (map_call name_of call.now) ≡ Some c →
            book_in self.new ≡ after (book_in self.old)
            (Heard (line thread rm) c (map_answer name_of answer.now))) }
        ensures err { (book_in self.old).up ≡ Bool.true →
            IfErr result (λ n. (c : KnownCall) → accepted (map_call name_of call.now) ≡ Some c →
            FailsBy (doubt_of (record_of c (map_answer name_of answer.now)))
            (InHear (line thread rm)) (book_in self.old) (book_in self.new) n) }
        ensures asked { result ≡ Err Refusals.LogFault →
            MakesRecord (map_call name_of call.now) (map_answer name_of answer.now) }
        // What becomes of the log.
        ensures tied { StaysTied L.moment self.old self.new }
        ensures kept { IfErr result
            (λ n. n ≢ Refusals.LogFault → log_in self.new ≡ log_in self.old) }
        ensures asks { (c : KnownCall) → accepted (map_call name_of call.now) ≡ Some c →
            AsksFor (changed_by (doubt_of (record_of c (map_answer name_of answer.now))))
            (L.moment (log_in self.old)) (L.moment (log_in self.new)) result }
        // Of the log after any call, also one that no history knows.
        ensures log { UsesLog (L.moment (log_in self.old)) (L.moment (log_in self.new)) result }
    {
        if !self.ledger.is_up() {
            return Err(Refusal::ManagerDown);
        }
        match answer {
            Answer::Page(page) => Ok(self.ledger.hear_page(thread, rm, call, page)?),
            Answer::Ret(code) => match branch_of(call) {
                Some(b) => self.hear_news(b, News::of(call, *code)),
                None => Ok(()),
            },
        }
    }

    /// Hears what an answer says of a branch.
    fn hear_news(&mut self, b: Branch, news: News) -> Result<(), Refusal>
        requires sound { IsSound (book_in self.old) }
        requires up { (book_in self.old).up ≡ Bool.true }
        requires fits { IsSome news.how → FitsRow b.gtrid }
        // What the book then says.
        ensures ok { OnOk result
            ((l : Line) (kind : Kind) (code : Code) → news ≡ news_by kind code →
            book_in self.new ≡ after (book_in self.old) (Heard l (on kind b) (Ret code))) }
        ensures err { IfErr result
            (λ n. (l : Line) (kind : Kind) (code : Code) → news ≡ news_by kind code →
            FailsBy (doubt_of (record_of (on kind b) (Ret code))) (InHear l) (book_in self.old)
            (book_in self.new) n) }
        ensures asked { result ≡ Err Refusals.LogFault → IsSome news.how }
        // What becomes of the log.
        ensures tied { (near : Bool) → (L.moment (log_in self.old)).is_in_order →
            (L.moment (log_in self.new)).is_honest → (l : Line) (kind : Kind) (code : Code) →
            news ≡ news_by kind code →
            IsTied near (book_in self.old) (L.moment (log_in self.old)).content →
            IsTied near (book_in self.new) (L.moment (log_in self.new)).content }
        ensures kept { IfErr result
            (λ n. n ≢ Refusals.LogFault → log_in self.new ≡ log_in self.old) }
        ensures asks { AsksFor (changed_by (recording b news.how))
            (L.moment (log_in self.old)) (L.moment (log_in self.new)) result }
    {
        self.ledger.reserve(b)?;
        match note_end(&mut self.log, b, news.how) {
            Ok(()) => {
                self.ledger.hear(b, news);
                Ok(())
            }
            Err(_) => {
                self.ledger.fail(change_of(b, news.how));
                Err(Refusal::LogFault)
            }
        }
    }
}

/// Records in the log how a branch ended by itself, if it did.
fn note_end<L: DecisionLog>(log: &mut L, b: Branch, how: Option<How>) -> Result<(), LogFault>
    requires { IsSome how → FitsRow b.gtrid }
    // The record is made if there is one to make.
    ensures ok { (L.moment log.old).is_in_order → (L.moment log.new).is_honest →
        OnOk result (MakesOf (recording b how) (L.moment log.old).content
        (L.moment log.new).content) }
    ensures err { (L.moment log.old).is_in_order →
        OnErr result (MayMake (changed_by (recording b how)) (L.moment log.old).content
        (L.moment log.new).content) }
    ensures asked { OnErr result (IsSome how) }
    // What becomes of the log.
    ensures crash { (L.moment log.old).is_in_order → (L.moment log.new).is_honest →
        LeavesAlso (changed_by (recording b how)) (L.moment log.old).content
        (L.moment log.old).may_leave (L.moment log.new).may_leave }
    ensures order { (L.moment log.old).is_in_order → (L.moment log.new).is_in_order }
    ensures honest { (L.moment log.new).is_honest → (L.moment log.old).is_honest }
    ensures faults { (L.moment log.new).fault_count ≡
        faults_after result (L.moment log.old).fault_count }
{
    match how {
        Some(how) => log.note_heuristic(b, how),
        None => Ok(()),
    }
}

/// The change that a record of a branch is, if there is one to make.
fn change_of(b: Branch, how: Option<How>) -> Change
    ensures { doubt_of_change result ≡ recording b how }
{
    match how {
        Some(how) => Change::AddRecord(b, how),
        None => Change::Nothing,
    }
}
