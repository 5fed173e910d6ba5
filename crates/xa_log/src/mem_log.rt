//! A decision log in memory.

ghost use Rattle.std.specs.Prelude.{◌≡◌, IfOk};
ghost use Rattle.xa_log.specs.KeySet.{from_list};
ghost use Rattle.xa_base.specs.Branch.{branch_cmp};

mod groups;

use crate::decision::Decision;
use crate::decision_log::{DecisionLog, Logged};
use crate::log_fault::{LogFault, counted};
use crate::log_rows::LogRows;
use std::alloc::{AllocError, Global};
use std::collections::{BTreeMap, BTreeSet};
use xa_base::{Branch, Gtrid, How, LAST_NUMBER};

/// A decision log that lives in memory, and as long as its value: a crash of the transaction manager doesn't lose
/// it.
///
/// Its calls fail only for want of memory, or of incarnations, and a call that fails has changed nothing.
#[derive(Drop)]
pub struct MemLog {
    decisions: BTreeMap<Gtrid, BTreeSet<Branch>>,
    heuristics: BTreeMap<Branch, How>,
    incarnation: u64,
    faults: u64,
    alloc: Global,
}

/// The set of these branches.
fn set_of(alloc: Global, branches: &[Branch]) -> Result<BTreeSet<Branch>, AllocError>
    ensures { IfOk result (λ set. from_list {R = branch_cmp} set.keys ≡ from_list branches.now) }
{
    branches.iter().copied().collect(alloc)
}

impl MemLog {
    ghost use Rattle.std.specs.Prelude.{◌≡◌, ◌≤◌, ◌+◌, Some, IfOk, IfErr, OnOk, OnErr};
    ghost use Rattle.std.specs.FinMap.{contains_key, entries, get, keys};
    ghost use Rattle.xa_log.specs.KeySet.{from_list, items};
    ghost use Rattle.xa_log.specs.Content.{all_listed, with_commit, last_number, logged_as, nothing, participants_of, with_heuristic_record, without_decision};
    ghost use Rattle.xa_log.specs.Memory.{content_held};
    ghost use Rattle.xa_log.specs.declared.log_fault.LogFault.TheVariants.{Memory, Spent};

    /// An empty log, of no incarnation yet.
    pub fn new(alloc: Global) -> MemLog
        ensures empty { (⟦<MemLog as DecisionLog>⟧.moment result).content ≡ Some nothing }
        ensures order { (⟦<MemLog as DecisionLog>⟧.moment result).is_in_order }
        ensures faults { (⟦<MemLog as DecisionLog>⟧.moment result).fault_count ≡ 0 }
    {
        MemLog {
            decisions: BTreeMap::new(alloc),
            heuristics: BTreeMap::new(alloc),
            incarnation: 0,
            faults: 0,
            alloc,
        }
    }

    /// Puts a decision's row, where the transaction has none.
    pub(crate) fn put_decision(
        &mut self,
        g: Gtrid,
        participants: &[Branch],
    ) -> Result<Logged, LogFault>
        ensures answer { IfOk result (λ logged. logged ≡ logged_as (content_held self.old) g) }
        ensures ok { OnOk result
            (content_held self.new ≡ with_commit g (from_list participants.now)
            (content_held self.old)) }
        ensures err { OnErr result (content_held self.new ≡ content_held self.old) }
        ensures memory { IfErr result (λ e. e ≡ Memory) }
        ensures faults { self.new.faults ≡ self.old.faults }
    {
        if self.decisions.contains_key(&g) {
            return Ok(Logged::Already);
        }
        let waited_for = set_of(self.alloc, participants)?;
        self.decisions.insert(g, waited_for)?;
        Ok(Logged::New)
    }

    /// Puts how a branch was ended, where it has no record.
    pub(crate) fn put_heuristic(&mut self, b: Branch, how: How) -> Result<(), LogFault>
        ensures ok { OnOk result
            (content_held self.new ≡ with_heuristic_record b how (content_held self.old)) }
        ensures err { OnErr result (content_held self.new ≡ content_held self.old) }
        ensures memory { IfErr result (λ e. e ≡ Memory) }
        ensures faults { self.new.faults ≡ self.old.faults }
    {
        if !self.heuristics.contains_key(&b) {
            self.heuristics.insert(b, how)?;
        }
        Ok(())
    }

    /// Takes a decision's row away, and answers whether it was there.
    fn remove_decision(&mut self, g: Gtrid) -> bool
        ensures answer { result ≡ contains_key (content_held self.old).decisions g }
        ensures removed { content_held self.new ≡ without_decision g (content_held self.old) }
        ensures faults { self.new.faults ≡ self.old.faults }
    {
        self.decisions.remove(&g).is_some()
    }

    /// Whether a transaction has a decision's row.
    fn has_decision(&self, g: Gtrid) -> bool
        ensures { result ≡ contains_key (content_held self.now).decisions g }
    {
        self.decisions.contains_key(&g)
    }

    /// How a branch is recorded as heuristic.
    fn record_of(&self, b: Branch) -> Option<How>
        ensures { result ≡ get (content_held self.now).heuristics b }
    {
        self.heuristics.get(&b).copied()
    }

    /// The participants of a transaction.
    fn waited_for(&self, g: Gtrid) -> Result<Vec<Branch>, LogFault>
        ensures ok { IfOk result (λ list.
            list.items ≡ items (participants_of (content_held self.now) g)) }
        ensures memory { IfErr result (λ e. e ≡ Memory) }
    {
        let Some(waited_for) = self.decisions.get(&g) else {
            return Ok(Vec::new(self.alloc));
        };
        let list = waited_for.iter().copied().collect(self.alloc)?;
        Ok(list)
    }

    /// The participants of all transactions.
    fn all_participants(&self) -> Result<Vec<Branch>, LogFault>
        ensures ok { IfOk result (λ list.
            list.items ≡ all_listed (entries (content_held self.now).decisions)) }
        ensures memory { IfErr result (λ e. e ≡ Memory) }
    {
        let mut list = Vec::new(self.alloc);
        for waited_for in self.decisions.values() {
            list.extend(waited_for.iter().copied())?;
        }
        Ok(list)
    }

    /// All rows.
    fn all_rows(&self) -> Result<LogRows, LogFault>
        ensures decisions { IfOk result (λ rows.
            rows.decisions.items ≡ keys (content_held self.now).decisions) }
        ensures participants { IfOk result (λ rows.
            rows.participants.items ≡ all_listed (entries (content_held self.now).decisions)) }
        ensures heuristics { IfOk result (λ rows.
            rows.heuristics.items ≡ entries (content_held self.now).heuristics) }
        ensures memory { IfErr result (λ e. e ≡ Memory) }
    {
        Ok(LogRows {
            decisions: self.decisions.keys().copied().collect(self.alloc)?,
            participants: self.all_participants()?,
            heuristics: self
                .heuristics
                .iter()
                .map(|(b, how)| (*b, *how))
                .collect(self.alloc)?,
        })
    }

    /// Adds one to the incarnation, and answers the new one.
    fn raise(&mut self) -> Result<u64, LogFault>
        ensures answer { IfOk result (λ n. n ≡ self.old.incarnation + 1) }
        ensures most { IfOk result (λ n. n ≤ last_number) }
        ensures ok { OnOk result
            (self.new ≡ record self.old { incarnation = self.old.incarnation + 1 }) }
        ensures spent { IfErr result (λ e. (e ≡ Spent) × (last_number ≤ self.old.incarnation)) }
        ensures err { OnErr result (self.new ≡ self.old) }
    {
        if self.incarnation >= LAST_NUMBER {
            return Err(LogFault::Spent);
        }
        self.incarnation += 1;
        Ok(self.incarnation)
    }
}

impl DecisionLog for MemLog {
    ghost use Rattle.std.specs.Prelude.{◌≡◌, Some};
    ghost use Rattle.xa_log.specs.Memory.{content_held, memory_moment, RunsInMemory};
    ghost use Rattle.xa_log.specs.MemoryLaws.{fits_held, leaves_held, own_held};

    ghost moment = { λ log. memory_moment (content_held log) log.faults };

    ghost says = { λ call change old new fault. RunsInMemory call change old new fault };

    ghost durable = { λ log c d order is left. leaves_held log c d is left };

    ghost own = { λ log c order is. own_held log c order is };

    ghost fits = { λ log c order is. fits_held log c order is };

    fn commit(&mut self, g: Gtrid, participants: &[Branch]) -> Result<Logged, LogFault> {
        let logged = self.put_decision(g, participants);
        counted(&mut self.faults, logged)
    }

    fn commit_all(
        &mut self,
        alloc: Global,
        decisions: &[Decision],
    ) -> Result<Vec<Logged>, LogFault> {
        let answers = self.put_all(alloc, decisions);
        counted(&mut self.faults, answers)
    }

    fn contains(&mut self, g: Gtrid) -> Result<bool, LogFault> {
        Ok(self.has_decision(g))
    }

    fn participants(&mut self, g: Gtrid) -> Result<Vec<Branch>, LogFault> {
        let list = self.waited_for(g);
        counted(&mut self.faults, list)
    }

    fn done(&mut self, g: Gtrid) -> Result<bool, LogFault> {
        Ok(self.remove_decision(g))
    }

    fn done_all(&mut self, gtrids: &[Gtrid]) -> Result<(), LogFault> {
        self.remove_all(gtrids);
        Ok(())
    }

    fn note_heuristic(&mut self, b: Branch, how: How) -> Result<(), LogFault> {
        let noted = self.put_heuristic(b, how);
        counted(&mut self.faults, noted)
    }

    fn heuristic_of(&mut self, b: Branch) -> Result<Option<How>, LogFault> {
        Ok(self.record_of(b))
    }

    fn bump(&mut self) -> Result<u64, LogFault> {
        let raised = self.raise();
        counted(&mut self.faults, raised)
    }

    fn rows(&mut self) -> Result<LogRows, LogFault> {
        let rows = self.all_rows();
        counted(&mut self.faults, rows)
    }

    fn faults(&self) -> u64 {
        self.faults
    }
}
