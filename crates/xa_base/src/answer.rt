//! Answers of resource managers.
ghost use Rattle.std.specs.Prelude.{◌≡◌, IfOk};

use crate::{Code, Memory, Xid};
use std::alloc::{AllocError, Global};
use std::marker::Model;

/// A page of a recovery scan: the identifiers that one xa_recover lists (XA, chapter 5,
/// xa_recover).
#[derive(Drop)]
pub struct Page<X = Xid> {
    xids: Vec<X>,
}

impl<X> Model for Page<X> {
    ghost use Rattle.std.specs.Prelude.{List};

    ghost Value = { List X };

    ghost view = { λ page. page.xids.items };
}

impl<X> Page<X> {
    ghost use Rattle.std.specs.Prelude.{IsTrue, ◌↔◌, [], length};

    /// The page that lists these identifiers. No memory is taken.
    pub fn new(xids: Vec<X>) -> Page<X>
        ensures { result ≡ xids.items }
    {
        Self { xids }
    }

    /// The identifiers that the page lists, in its order. No memory is taken.
    pub fn into_xids(self) -> Vec<X>
        ensures { result.items ≡ self }
    {
        let Page { xids } = self;
        xids
    }

    /// The identifiers that the page lists, in its order.
    pub fn xids(&self) -> &[X]
        ensures { result.now ≡ self.now }
    {
        self.xids.as_slice()
    }

    /// How many identifiers the page lists.
    pub fn len(&self) -> usize
        ensures { result ≡ length self.now }
    {
        self.xids.len()
    }

    /// Whether the page lists none.
    pub fn is_empty(&self) -> bool
        ensures { IsTrue result ↔ (self.now ≡ []) }
    {
        self.xids.is_empty()
    }
}

impl Page {
    /// The same page.
    pub fn copy(&self, alloc: Global) -> Result<Page, Memory>
        ensures { IfOk result (λ page. page ≡ self.now) }
    {
        Ok(Page {
            xids: copied(alloc, self.xids())?,
        })
    }
}

impl<X: PartialEq> PartialEq for Page<X> {
    ghost use Rattle.std.specs.Cmp.Lexicographic.{pointwise, lists_per};

    ghost eq = { pointwise X.eq };

    ghost laws = { lists_per X.laws };

    fn eq(&self, other: &Page<X>) -> bool {
        self.xids() == other.xids()
    }
}

impl<X: Eq> Eq for Page<X> {
    ghost use Rattle.std.specs.Cmp.Lexicographic.{lists_equiv};

    ghost laws = { lists_equiv X.Eq.laws };
}

/// A resource manager's answer to a call.
#[derive(Drop)]
pub enum Answer<X = Xid> {
    /// A return code (XA, section 4.5, Return Codes).
    Ret(Code),
    /// What an xa_recover lists.
    Page(Page<X>),
}

impl Answer {
    ghost use Rattle.xa_base.specs.Answer.{answer_number};

    /// What the call returns in XA: the code's number, which may be negative, or how many
    /// identifiers an xa_recover lists, which may be any `usize`.
    pub fn number(&self) -> i128
        ensures { result ≡ answer_number self.now }
    {
        match self {
            Answer::Ret(code) => code.number() as i128,
            Answer::Page(page) => page.len() as i128,
        }
    }

    /// The same answer.
    pub fn copy(&self, alloc: Global) -> Result<Answer, Memory>
        ensures { IfOk result (λ answer. answer ≡ self.now) }
    {
        Ok(match self {
            Answer::Ret(code) => Answer::Ret(*code),
            Answer::Page(page) => Answer::Page(page.copy(alloc)?),
        })
    }
}

/// The same identifiers.
fn copied(alloc: Global, xids: &[Xid]) -> Result<Vec<Xid>, AllocError>
    ensures { IfOk result (λ copy. copy.items ≡ xids.now) }
{
    let mut copy = Vec::with_capacity(alloc, xids.len())?;
    for xid in xids {
        copy.push(xid.copy())?;
    }
    Ok(copy)
}
