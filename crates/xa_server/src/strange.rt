//! Branches that are strange: a resource manager lists them as this manager's, and no session over
//! its log began them. So the log is another one than the databases know, or an older one.

ghost use Rattle.std.specs.Prelude.{◌≡◌, ◌||◌, false};
ghost use Rattle.xa_base.specs.Branch.{branch_of_xid};
ghost use Rattle.xa_server.specs.Strange.{is_strange_page, is_unknown_at, last_after, lists_strange, was_begun};

use xa_base::{Answer, Gtrid, Xid};
use xa_requests::{Request, RequestFault, Response};

/// What the sessions over a log have begun, as far as this one has come: all of earlier
/// incarnations, and its own transactions up to the last one. And whether a page was refused that
/// lists something else.
#[derive(Drop)]
pub(crate) struct Beginnings {
    incarnation: u64,
    /// The sequence of the last transaction that this session began, and 0 before the first.
    last: u64,
    pub is_strange: bool,
}

impl Beginnings {
    /// What was begun before the session of this incarnation.
    pub fn before(incarnation: u64) -> Beginnings
        ensures { result ≡ record { incarnation = incarnation; last = 0; is_strange = false } }
    {
        Beginnings {
            incarnation,
            last: 0,
            is_strange: false,
        }
    }

    /// Whether this transaction is one of them.
    fn has(&self, g: Gtrid) -> bool
        ensures { result ≡ was_begun self.now.incarnation self.now.last g }
    {
        g.incarnation < self.incarnation
            || (g.incarnation == self.incarnation && g.sequence <= self.last)
    }

    /// Whether an identifier is of a branch at this resource manager that is of none of them.
    fn lacks(&self, rm: u32, xid: &Xid) -> bool
        ensures { result ≡
            is_unknown_at self.now.incarnation self.now.last rm (branch_of_xid xid.now) }
    {
        match xid.branch() {
            Some(branch) => branch.rm == rm && !self.has(branch.gtrid),
            None => false,
        }
    }

    /// Whether one of these identifiers is.
    fn lacks_one(&self, rm: u32, xids: &[Xid]) -> bool
        ensures { result ≡ lists_strange self.now.incarnation self.now.last rm xids.now }
    {
        xids.iter().any(|xid| self.lacks(rm, xid))
    }

    /// Hears what a request was replied.
    pub fn hear(&mut self, request: &Request, reply: &Response)
        ensures same { self.new.incarnation ≡ self.old.incarnation }
        ensures last { self.new.last ≡ last_after self.old.last reply.now }
        ensures strange { self.new.is_strange ≡ (self.old.is_strange
            || is_strange_page self.old.incarnation self.old.last request.now reply.now) }
    {
        match (request, reply) {
            (_, Response::Begun(gtrid)) => self.last = gtrid.sequence,
            (
                Request::Answer {
                    rm,
                    answer: Answer::Page(page),
                    ..
                },
                Response::Fault(RequestFault::NoSuchState),
            ) => self.is_strange = self.is_strange || self.lacks_one(*rm, page.xids()),
            _ => {}
        }
    }
}
