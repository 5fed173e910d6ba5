//! The pages of a recovery: what a resource manager lists, and the calls that end it.

ghost use Rattle.std.specs.Prelude.{◌≡◌, ◌≤◌, length, true, IfOk};
ghost use Rattle.std.specs.List.{list_all};
ghost use Rattle.xa_conduct.specs.Acting.{GoesOn};
ghost use Rattle.xa_conduct.specs.Pages.{is_earlier};
ghost use Rattle.xa_conduct.specs.Plain.{is_own};
ghost use Rattle.xa_session.specs.Session.{IsReady};

use super::Conductor;
use crate::asking::{Asked, ask, ask_all, reply_to};
use crate::notes::Notes;
use crate::plan::{Plan, name_of};
use crate::recovery::{Listed, PAGE, Stage};
use xa_base::{Answer, Call, CallKind, Memory, Page, Xid};
use xa_log::DecisionLog;
use xa_requests::{CallName, Request, Response, call_text};

impl<L: DecisionLog + Drop> Conductor<L> {
    /// A recovery of a resource manager begins, over a new connection.
    pub(super) fn recover(&mut self, rm: u32) -> Result<String, Memory>
        requires { IsReady self.old.server.session }
        ensures ready { IsReady self.new.server.session }
        ensures acts { GoesOn L.moment self.old.server self.new.server }
        ensures kept { self.new.notes.transactions ≡ self.old.notes.transactions }
    {
        let Some(recovery) = self.notes.recoveries.get_mut(rm as usize) else {
            return self.text("error not now");
        };
        if recovery.stage != Stage::Idle {
            return self.text("error not now");
        }
        recovery.put_off = 0;
        let mut plan = Plan::new(self.alloc);
        if !recovery.is_open {
            recovery.is_open = true;
            plan.open(0, rm)?;
        }
        if !ask_all(&mut self.server, &plan) {
            return self.stop();
        }
        self.ask_page(rm, true)
    }

    /// A page is to be listed.
    fn ask_page(&mut self, rm: u32, is_first: bool) -> Result<String, Memory>
        requires { IsReady self.old.server.session }
        ensures ready { IsReady self.new.server.session }
        ensures acts { GoesOn L.moment self.old.server self.new.server }
        ensures kept { self.new.notes.transactions ≡ self.old.notes.transactions }
    {
        let page = Request::Issue {
            thread: 0,
            rm,
            call: Call::Recover {
                count: 32,
                start_scan: is_first,
                end_scan: false,
            },
        };
        if !matches!(ask(&mut self.server, &page), Asked::Done) {
            return self.stop();
        }
        if let Some(recovery) = self.notes.recoveries.get_mut(rm as usize) {
            recovery.stage = Stage::Paging;
        }
        if is_first {
            self.text("recover 32 TMSTARTRSCAN")
        } else {
            self.text("recover 32")
        }
    }

    /// A page lists these. A branch that no session over this log began ends the session.
    pub(super) fn hear_page(&mut self, rm: u32, xids: &[Xid]) -> Result<String, Memory>
        requires { IsReady self.old.server.session }
        ensures ready { IsReady self.new.server.session }
        ensures acts { GoesOn L.moment self.old.server self.new.server }
        ensures kept { self.new.notes.transactions ≡ self.old.notes.transactions }
    {
        match self.notes.recoveries.get_mut(rm as usize) {
            Some(recovery) if recovery.stage == Stage::Paging && xids.len() <= PAGE => {
                recovery.stage = Stage::Ending {
                    is_last: xids.len() < PAGE,
                };
            }
            _ => return self.text("error not now"),
        }
        if let Some(xid) = strange_in(&self.notes, rm, xids) {
            self.notes.is_stopped = true;
            self.notes.is_strange = true;
            let name = xid.text(self.alloc)?;
            return Ok(format!(in self.alloc; "strange {name}")?);
        }
        let earlier = earlier_in(&self.notes, rm, xids)?;
        self.resolve(rm, earlier)
    }

    /// These branches of earlier sessions are to be ended as the log says.
    fn resolve(&mut self, rm: u32, earlier: Vec<Xid>) -> Result<String, Memory>
        requires own { list_all is_own earlier.items ≡ true }
        requires few { length earlier.items ≤ 32 }
        requires earlier { list_all (is_earlier self.old.notes.incarnation) earlier.items ≡ true }
        requires ready { IsReady self.old.server.session }
        ensures ready { IsReady self.new.server.session }
        ensures acts { GoesOn L.moment self.old.server self.new.server }
        ensures kept { self.new.notes.transactions ≡ self.old.notes.transactions }
    {
        let heard = Request::Answer {
            thread: 0,
            rm,
            name: CallName {
                kind: CallKind::Recover,
                xid: None,
            },
            answer: Answer::Page(Page::new(earlier)),
        };
        if !matches!(ask(&mut self.server, &heard), Asked::Done) {
            return self.stop();
        }
        if !matches!(ask(&mut self.server, &Request::Resolve { rm }), Asked::Done) {
            return self.stop();
        }
        self.go_on(rm)
    }

    /// The call that waits first on the line of a recovery.
    pub(super) fn waiting(&mut self, rm: u32) -> Option<Call>
        requires { IsReady self.old.server.session }
        ensures ready { IsReady self.new.server.session }
        ensures acts { GoesOn L.moment self.old.server self.new.server }
        ensures kept { self.new.notes.transactions ≡ self.old.notes.transactions }
    {
        match reply_to(&mut self.server, &Request::Waiting { thread: 0, rm }) {
            Response::Waits(call) => Some(call),
            _ => None,
        }
    }

    /// The next call of a recovery; or what was left.
    pub(super) fn go_on(&mut self, rm: u32) -> Result<String, Memory>
        requires { IsReady self.old.server.session }
        ensures ready { IsReady self.new.server.session }
        ensures acts { GoesOn L.moment self.old.server self.new.server }
        ensures kept { self.new.notes.transactions ≡ self.old.notes.transactions }
    {
        if let Some(call) = self.waiting(rm) {
            return Ok(call_text(self.alloc, &call)?);
        }
        let Some(recovery) = self.notes.recoveries.get_mut(rm as usize) else {
            return self.text("error not now");
        };
        match recovery.stage {
            Stage::Ending { is_last: false } => self.ask_page(rm, false),
            Stage::Ending { is_last: true } => {
                recovery.is_scanned = true;
                recovery.stage = Stage::Paying;
                self.find_debts(rm)?;
                self.pay_next(rm)
            }
            Stage::Paying => self.pay_next(rm),
            Stage::Idle | Stage::Paging => self.text("error not now"),
        }
    }
}

/// The first of these that no session over this log began, if there is one.
fn strange_in<'a>(notes: &Notes, rm: u32, xids: &'a [Xid]) -> Option<&'a Xid> {
    for xid in xids {
        if notes.listed_as(xid, rm) == Listed::Unknown {
            return Some(xid);
        }
    }
    None
}

/// Those of these that earlier sessions began.
fn earlier_in(notes: &Notes, rm: u32, xids: &[Xid]) -> Result<Vec<Xid>, Memory>
    ensures own { IfOk result (λ earlier. list_all is_own earlier.items ≡ true) }
    ensures few { IfOk result (λ earlier. length earlier.items ≤ length xids.now) }
    ensures earlier { IfOk result (λ earlier.
        list_all (is_earlier notes.now.incarnation) earlier.items ≡ true) }
{
    let mut earlier = Vec::with_capacity(notes.alloc, xids.len())?;
    for xid in xids {
        if let Listed::Earlier(branch) = notes.listed_as(xid, rm) {
            earlier.push(name_of(branch))?;
        }
    }
    Ok(earlier)
}
