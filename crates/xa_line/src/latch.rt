//! Which calls a line lets through.
ghost use Rattle.std.specs.Prelude.{◌≡◌};
ghost use Rattle.xa_base.specs.Opening.{closes, opens};

use xa_base::{Call, Refusal};

/// Whether an xa_open and an xa_close were issued on a line since it was new or renewed.
#[derive(Clone, Copy)]
pub struct Latch {
    pub(crate) opened: bool,
    pub(crate) closed: bool,
}

impl Latch {
    ghost use Rattle.std.specs.Prelude.{◌||◌, ◌&&◌, false, if◌then◌else◌, None, not, Some};
    ghost use Rattle.std.specs.Result.{result_err};
    ghost use Rattle.xa_base.specs.declared.refusal.Refusal.TheVariants.{Closed, NotOpen};

    /// The latch of a line where nothing was issued.
    pub const NEW: Latch = Latch {
        opened: false,
        closed: false,
    };

    /// Says why a call may not be issued, the first reason that applies.
    pub fn check(self, call: &Call) -> Result<(), Refusal>
        ensures { result_err result ≡ (if not (opens call.now) && not self.opened then Some NotOpen
            else (if self.closed then Some Closed else None)) }
    {
        if !opens(call) && !self.opened {
            return Err(Refusal::NotOpen);
        }
        if self.closed {
            return Err(Refusal::Closed);
        }
        Ok(())
    }

    /// The latch once the call is issued.
    pub fn after(self, call: &Call) -> Latch
        ensures opened { result.opened ≡ self.opened || opens call.now }
        ensures closed { result.closed ≡ self.closed || closes call.now }
    {
        Latch {
            opened: self.opened || opens(call),
            closed: self.closed || closes(call),
        }
    }
}

/// Whether a call is xa_open (XA, section 3.2, Opening and Closing Resource Managers).
fn opens(call: &Call) -> bool
    ensures { result ≡ opens call.now }
{
    matches!(call, Call::OpenRm)
}

/// Whether a call is xa_close.
fn closes(call: &Call) -> bool
    ensures { result ≡ closes call.now }
{
    matches!(call, Call::CloseRm)
}
