//! The names that a scenario file gives to transactions.

ghost use Rattle.std.specs.Prelude.{◌≡◌, IfOk, OnOk, length, map, filter, position};
ghost use Rattle.std.specs.String.{string_bytes};
ghost use Rattle.xa_base.specs.Branch.{gtrid_eq};
ghost use Rattle.xa_story.specs.Naming.{begun_by, name_at_place, named_branch_text, next_name, transaction_name, unbegun, with_begin, xid_text};

use std::alloc::Global;
use std::marker::Model;
use xa_base::{Branch, Gtrid, Memory, Reply, Xid};

/// The names of a file, and what those that were begun so far stand for.
#[derive(Drop)]
pub struct Names<'a> {
    names: &'a [String],
    gtrids: Vec<Gtrid>,
}

impl<'a> Model for Names<'a> {
    ghost use Rattle.xa_story.specs.Naming.{Naming, naming_of};

    ghost Value = { Naming };

    ghost view = { naming_of };
}

/// What a refused begin's name stands for.
const NO_GTRID: Gtrid = Gtrid {
    incarnation: 0,
    sequence: 0,
};

/// What a begin is answered with: no transaction, if it is refused.
fn begun_by(reply: &Reply) -> Gtrid
    ensures { result ≡ begun_by reply.now }
{
    match *reply {
        Reply::Begun(gtrid) => gtrid,
        _ => NO_GTRID,
    }
}

impl<'a> Names<'a> {
    /// The names in the order in which the file begins them. None is begun yet.
    pub fn new(alloc: Global, names: &'a [String]) -> Names<'a>
        ensures { result ≡ unbegun (map string_bytes names.now) }
    {
        Names {
            names,
            gtrids: Vec::new(alloc),
        }
    }

    /// The name of a place, from 0, if the file has so many.
    fn name_at(&self, place: usize) -> &str
        ensures { result.now ≡ name_at_place self.now.names place }
    {
        match self.names.get(place) {
            Some(name) => name.as_str(),
            None => "?",
        }
    }

    /// The name that the next begin is of.
    pub fn next(&self) -> &str
        ensures { result.now ≡ next_name self.now }
    {
        self.name_at(self.gtrids.len())
    }

    /// The next name stands for what its begin was answered.
    pub fn add(&mut self, reply: &Reply) -> Result<(), Memory>
        ensures { OnOk result (self.new ≡ with_begin self.old reply.now) }
    {
        Ok(self.gtrids.push(begun_by(reply))?)
    }

    /// How many names stand for a transaction.
    fn count_of(&self, gtrid: Gtrid) -> usize
        ensures { result ≡ length (filter (λ h. gtrid_eq h gtrid) self.now.gtrids) }
    {
        self.gtrids.iter().filter(|other| **other == gtrid).count()
    }

    /// The first name that stands for a transaction.
    fn place_of(&self, gtrid: Gtrid) -> Option<usize>
        ensures { result ≡ position (λ h. gtrid_eq h gtrid) self.now.gtrids }
    {
        self.gtrids.iter().position(|other| *other == gtrid)
    }

    /// The name of a transaction, if exactly one stands for it.
    pub fn name_of(&self, gtrid: Gtrid) -> &str
        ensures { result.now ≡ transaction_name self.now gtrid }
    {
        match self.place_of(gtrid) {
            Some(place) if self.count_of(gtrid) == 1 => self.name_at(place),
            _ => "?",
        }
    }

    /// The transactions that were begun, in turn.
    pub fn gtrids(&self) -> &[Gtrid]
        ensures { result.now ≡ self.now.gtrids }
    {
        self.gtrids.as_slice()
    }

    /// A branch by the name of its transaction and, unless it is thread 0's, its thread.
    pub fn branch_text(&self, alloc: Global, branch: Branch) -> Result<String, Memory>
        ensures { IfOk result (λ text. string_bytes text ≡ named_branch_text self.now branch) }
    {
        let name = self.name_of(branch.gtrid);
        match branch.thread {
            0 => Ok(String::from_str(alloc, name)?),
            thread => Ok(format!(in alloc; "{name} of thread {thread}")?),
        }
    }

    /// The branch of an identifier in the same way.
    pub fn xid_text(&self, alloc: Global, xid: &Xid) -> Result<String, Memory>
        ensures { IfOk result (λ text. string_bytes text ≡ xid_text self.now xid.now) }
    {
        match xid.branch() {
            Some(branch) => self.branch_text(alloc, branch),
            None => Ok(xid.text(alloc)?),
        }
    }
}
