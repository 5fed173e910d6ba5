//! What follows from a line of moves: decisions, rows that leave the log, transactions that begin, and the replies.

ghost use Rattle.std.specs.Prelude.{◌≡◌, ◌==◌, ◌≤◌, ◌++◌, ◌∷◌, ◌&&◌, [], true, false, length, not};
ghost use Rattle.std.specs.Prelude.{ℕ, All, Bool, IfOk, None, get_or, is_some, string_bytes};
ghost use Rattle.std.specs.List.{list_any};
ghost use Rattle.xa_conduct.specs.AtRest.{AreAllDue, DecidesAll, is_moved_in};
ghost use Rattle.xa_conduct.specs.Backing.{KeepResting, KeepsRest, TransactionRests};
ghost use Rattle.xa_conduct.specs.Decided.{AsksNoLess, is_same};
ghost use Rattle.xa_conduct.specs.Moves.{AreMovedOnce, ArePairedInOrder, is_reply_to};
ghost use Rattle.xa_conduct.specs.Over.{is_all_answered};
ghost use Rattle.xa_conduct.specs.Progress.{AllStep};
ghost use Rattle.xa_conduct.specs.Texts.{next_name_text};
ghost use Rattle.xa_conduct.specs.Told.{AddsText, AreRepliesTold, GivesWay, HasNext, IsSameAt, IsToldBy};
ghost use Rattle.xa_conduct.specs.Turns.{AllPass, IsSaid, Passes, SaysAll};
ghost use Rattle.xa_conduct.specs.declared.notes.Reply.{Reply};
ghost use Rattle.xa_conduct.specs.declared.notes.Reply.TheVariants as Replies;
ghost use Rattle.xa_requests.specs.declared.request.Request.{Request};

use super::{Notes, Reply, add_over};
use crate::plan::Plan;
use crate::transaction::Transaction;
use crate::writing::{add_next, add_told};
use std::alloc::Global;
use xa_base::{Gtrid, Memory, Outcome};

/// So many rows leave the log by one write.
const DONE_AT_ONCE: usize = 64;

/// The transaction that a reply is of.
fn transaction_of(transactions: &[Transaction], reply: Reply) -> Option<&Transaction> {
    match reply {
        Reply::Thread(thread) => transactions.get(thread as usize),
        _ => None,
    }
}

/// Whether these are the same.
fn is_same(gtrid: Gtrid, other: Gtrid) -> bool
    ensures { result ≡ is_same gtrid other }
{
    gtrid.incarnation == other.incarnation && gtrid.sequence == other.sequence
}

/// Whether the transaction is one of these.
fn has(gtrids: &[Gtrid], gtrid: Gtrid) -> bool
    ensures { result ≡ list_any (is_same gtrid) gtrids.now }
{
    gtrids.iter().any(|other| is_same(gtrid, *other))
}

/// The transactions that are ready to be committed, of those that replies are of.
fn ready_of(
    alloc: Global,
    transactions: &[Transaction],
    replies: &[Reply],
) -> Result<Vec<Gtrid>, Memory>
    ensures few { IfOk result (λ ready. length ready.items ≤ length replies.now) }
    ensures all { IfOk result (λ ready. AreAllDue ready.items transactions.now replies.now) }
{
    let mut ready = Vec::new(alloc);
    for reply in replies {
        let Reply::Thread(thread) = *reply else {
            continue;
        };
        let Some(transaction) = transactions.get(thread as usize) else {
            continue;
        };
        if transaction.is_ready() {
            ready.push(transaction.gtrid)?;
        }
    }
    Ok(ready)
}

impl Notes {
    /// All transactions that have their votes are decided by one request, and their branches are to be committed.
    pub fn decide(&mut self, replies: &[Reply], plan: &mut Plan) -> Result<(), Memory>
        requires { length replies.now ≤ 1024 }
        ensures decides { IfOk result (λ _. DecidesAll replies.now
            self.old.transactions.items self.new.transactions.items) }
        ensures steps { IfOk result (λ _. AllStep [] self.old.transactions.items
            self.new.transactions.items) }
        ensures more { IfOk result (λ _.
            AsksNoLess plan.old.requests.items plan.new.requests.items) }
        ensures rests { IfOk result (λ _. KeepResting plan.old.requests.items
            plan.new.requests.items self.old.transactions.items self.new.transactions.items) }
    {
        let ready = ready_of(self.alloc, self.transactions.as_slice(), replies)?;
        plan.decide(ready.as_slice(), Outcome::Commit)?;
        for reply in replies {
            let Reply::Thread(thread) = *reply else {
                continue;
            };
            if let Some(transaction) = self.transactions.get_mut(thread as usize) {
                if transaction.is_ready() && has(ready.as_slice(), transaction.gtrid) {
                    transaction.commit(plan)?;
                }
            }
        }
        Ok(())
    }

    /// The rows of transactions that are over leave the log, once there are many.
    pub fn finish(&mut self, replies: &[Reply], plan: &mut Plan) -> Result<(), Memory>
        ensures more { IfOk result (λ _.
            AsksNoLess plan.old.requests.items plan.new.requests.items) }
        ensures same { self.new.transactions ≡ self.old.transactions }
    {
        for reply in replies {
            match transaction_of(self.transactions.as_slice(), *reply) {
                Some(transaction) if transaction.has_spare_row() => {
                    add_over(&mut self.over, transaction.gtrid)?;
                }
                _ => {}
            }
        }
        if self.over.len() >= DONE_AT_ONCE {
            plan.done(self.over.as_slice())?;
            self.over.clear();
        }
        Ok(())
    }

    /// The next transaction begins of each thread whose transaction is over: the names.
    pub fn begin_next(
        &mut self,
        replies: &[Reply],
        plan: &mut Plan,
    ) -> Result<Vec<Option<Gtrid>>, Memory>
        ensures names { IfOk result (λ nexts. ArePairedInOrder
            (HasNext self.old.transactions.items) replies.now nexts.items) }
        ensures more { IfOk result (λ _.
            AsksNoLess plan.old.requests.items plan.new.requests.items) }
        ensures same { self.new.transactions ≡ self.old.transactions }
    {
        let mut nexts = Vec::with_capacity(self.alloc, replies.len())?;
        for reply in replies {
            let next = self.next_behind(*reply, plan)?;
            nexts.push(next)?;
        }
        Ok(nexts)
    }

    /// The name of the transaction that begins behind the one that a reply is of, if that is over.
    fn next_behind(&mut self, reply: Reply, plan: &mut Plan) -> Result<Option<Gtrid>, Memory>
        ensures name { IfOk result (HasNext self.old.transactions.items reply) }
        ensures more { IfOk result (λ _.
            AsksNoLess plan.old.requests.items plan.new.requests.items) }
        ensures same { self.new.transactions ≡ self.old.transactions }
    {
        match reply {
            Reply::Thread(thread) => self.next_of(thread, plan),
            Reply::Started(_, _) | Reply::NoMove | Reply::NotNow => Ok(None),
        }
    }

    /// The name of the thread's next transaction, which begins if its transaction is over.
    fn next_of(&mut self, thread: u32, plan: &mut Plan) -> Result<Option<Gtrid>, Memory>
        ensures name { IfOk result
            (HasNext self.old.transactions.items (Replies.Thread thread)) }
        ensures more { IfOk result (λ _.
            AsksNoLess plan.old.requests.items plan.new.requests.items) }
        ensures same { self.new.transactions ≡ self.old.transactions }
    {
        let Some(transaction) = self.transactions.get(thread as usize) else {
            return Ok(None);
        };
        if !transaction.is_over() {
            return Ok(None);
        }
        plan.begin(thread)?;
        Ok(Some(self.next()))
    }

    /// The replies to the moves of a line.
    pub fn reply(&mut self, replies: &[Reply], nexts: &[Option<Gtrid>]) -> Result<String, Memory>
        requires once { AreMovedOnce replies.now }
        requires names { ArePairedInOrder (HasNext self.old.transactions.items)
            replies.now nexts.now }
        ensures moved { IfOk result (λ _. (i : ℕ) → is_moved_in self.new.transactions.items i ≡
            (is_moved_in self.old.transactions.items i
            && not (list_any (is_reply_to i) replies.now))) }
        ensures rests { IfOk result (λ _. KeepsRest self.old.transactions.items
            self.new.transactions.items) }
        ensures passes { IfOk result (λ _. AllPass self.old.transactions.items
            self.new.transactions.items) }
        ensures said { IfOk result (λ text. SaysAll replies.now (string_bytes text)) }
        ensures tells { IfOk result (λ text. (asked : (Request → Bool) → Bool) →
            All (TransactionRests asked) self.old.transactions.items →
            AreRepliesTold asked self.old.transactions.items self.new.transactions.items
            replies.now (string_bytes text)) }
    {
        let mut text = String::new(self.alloc);
        let mut is_first = true;
        for (at, reply) in replies.iter().enumerate() {
            add_semicolon(&mut text, is_first)?;
            is_first = false;
            let next = next_at(nexts, at);
            self.add_reply(&mut text, *reply, next)?;
        }
        Ok(text)
    }

    /// Adds the reply to a move.
    fn add_reply(
        &mut self,
        text: &mut String,
        reply: Reply,
        next: Option<Gtrid>,
    ) -> Result<(), Memory>
        requires { HasNext self.old.transactions.items reply next }
        ensures moved { IfOk result (λ _. (i : ℕ) → is_moved_in self.new.transactions.items i ≡
            (is_moved_in self.old.transactions.items i && not (is_reply_to i reply))) }
        ensures rests { IfOk result (λ _. KeepsRest self.old.transactions.items
            self.new.transactions.items) }
        ensures passes { IfOk result (λ _. AllPass self.old.transactions.items
            self.new.transactions.items) }
        ensures said { IfOk result (λ _. AddsText (IsSaid reply)
            (string_bytes text.old) (string_bytes text.new)) }
        ensures others { IfOk result (λ _. (t : ℕ) → is_reply_to t reply ≡ false →
            IsSameAt t self.old.transactions.items self.new.transactions.items) }
        ensures tells { IfOk result (λ _. (asked : (Request → Bool) → Bool) →
            All (TransactionRests asked) self.old.transactions.items →
            AddsText (IsToldBy asked self.old.transactions.items self.new.transactions.items
            reply) (string_bytes text.old) (string_bytes text.new)) }
    {
        match reply {
            Reply::Thread(thread) => self.add_thread(text, thread, next),
            Reply::Started(thread, gtrid) => {
                if let Some(transaction) = self.transactions.get_mut(thread as usize) {
                    transaction.has_moved = false;
                }
                text.push_str("started")?;
                add_next(text, self.alloc, gtrid)?;
                Ok(())
            }
            Reply::NoMove => {
                text.push_str("error not a move")?;
                Ok(())
            }
            Reply::NotNow => {
                text.push_str("error not now")?;
                Ok(())
            }
        }
    }

    /// Adds what the transaction of a thread is told.
    fn add_thread(
        &mut self,
        text: &mut String,
        thread: u32,
        next: Option<Gtrid>,
    ) -> Result<(), Memory>
        requires { HasNext self.old.transactions.items (Replies.Thread thread) next }
        ensures moved { IfOk result (λ _. (i : ℕ) → is_moved_in self.new.transactions.items i ≡
            (is_moved_in self.old.transactions.items i && not (i == thread))) }
        ensures rests { IfOk result (λ _. KeepsRest self.old.transactions.items
            self.new.transactions.items) }
        ensures passes { IfOk result (λ _. AllPass self.old.transactions.items
            self.new.transactions.items) }
        ensures said { IfOk result (λ _. (reply : Reply) → reply ≡ Replies.Thread thread →
            AddsText (IsSaid reply) (string_bytes text.old) (string_bytes text.new)) }
        ensures others { IfOk result (λ _. (t : ℕ) → (t == thread) ≡ false →
            IsSameAt t self.old.transactions.items self.new.transactions.items) }
        ensures tells { IfOk result (λ _. (asked : (Request → Bool) → Bool) →
            All (TransactionRests asked) self.old.transactions.items →
            AddsText (IsToldBy asked self.old.transactions.items self.new.transactions.items
            (Replies.Thread thread)) (string_bytes text.old) (string_bytes text.new)) }
    {
        let Some(transaction) = self.transactions.get_mut(thread as usize) else {
            text.push_str("error not now")?;
            return Ok(());
        };
        transaction.has_moved = false;
        add_told(text, self.alloc, transaction)?;
        add_begun(text, self.alloc, transaction, next)?;
        Ok(())
    }
}

/// The name that goes with the reply at this place.
fn next_at(nexts: &[Option<Gtrid>], at: usize) -> Option<Gtrid>
    ensures { result ≡ get_or nexts.now at None }
{
    match nexts.get(at) {
        Some(next) => *next,
        None => None,
    }
}

/// Adds what parts a reply from the one before it, if there is one.
fn add_semicolon(text: &mut String, is_first: bool) -> Result<(), Memory>
    ensures first { IfOk result (λ _. is_first ≡ true →
        string_bytes text.new ≡ string_bytes text.old) }
    ensures other { IfOk result (λ _. is_first ≡ false →
        string_bytes text.new ≡ string_bytes text.old ++ 59 ∷ []) }
{
    if is_first {
        return Ok(());
    }
    text.push_str(";")?;
    Ok(())
}

/// Adds the name of the transaction that begins behind this one, which there is if this one is over.
fn add_begun(
    text: &mut String,
    alloc: Global,
    transaction: &mut Transaction,
    next: Option<Gtrid>,
) -> Result<(), Memory>
    requires { is_some next ≡ is_all_answered transaction.old }
    ensures gives { IfOk result (λ _. GivesWay transaction.old next transaction.new) }
    ensures rests { IfOk result (λ _. (asked : (Request → Bool) → Bool) →
        TransactionRests asked transaction.old → TransactionRests asked transaction.new) }
    ensures passes { IfOk result (λ _. Passes transaction.old transaction.new) }
    ensures moved { IfOk result (λ _. transaction.old.has_moved ≡ false →
        transaction.new.has_moved ≡ false) }
    ensures adds { IfOk result (λ _. string_bytes text.new
        ≡ string_bytes text.old ++ next_name_text next) }
{
    let Some(gtrid) = next else {
        return Ok(());
    };
    add_next(text, alloc, gtrid)?;
    transaction.begin(gtrid);
    Ok(())
}
