//! Who takes part in an event.

ghost use Rattle.std.specs.Prelude.{◌≡◌, IfOk};
ghost use Rattle.std.specs.String.{string_bytes};
ghost use Rattle.xa_story.specs.Parties.{pair_text, party_text, sides_of, sides_text};

use std::alloc::Global;
use xa_base::{Memory, Part, Side, Step};

/// A part of the system that does something. Threads and resource managers are numbered from 0.
#[derive(Clone, Copy, Debug, PartialEq, Eq)]
pub enum Party {
    /// A thread of control.
    Thread(u32),
    /// The transaction manager.
    Manager,
    /// A resource manager.
    Rm(u32),
}

/// Who takes part in a step.
#[derive(Clone, Copy, Debug, PartialEq, Eq)]
pub enum Sides {
    /// It does something by itself.
    Alone(Party),
    /// The first calls or answers the second.
    Sends(Party, Party),
    /// The first hears an answer of the second.
    Hears(Party, Party),
    /// Something happens to the line between the two.
    Between(Party, Party),
}

/// Who takes part in a step.
pub fn sides_of(step: &Step) -> Sides
    ensures { result ≡ sides_of step.now }
{
    match *step {
        Step::Begin { thread } => Sides::Sends(Party::Thread(thread), Party::Manager),
        Step::Issue { thread, rm, .. } => Sides::Sends(Party::Thread(thread), Party::Rm(rm)),
        Step::Take { thread, rm } => Sides::Sends(Party::Rm(rm), Party::Thread(thread)),
        Step::Hear { thread, rm } => Sides::Hears(Party::Thread(thread), Party::Rm(rm)),
        Step::Vote { rm, .. } | Step::Busy { rm, .. } | Step::Heuristic { rm, .. } => {
            Sides::Alone(Party::Rm(rm))
        }
        Step::Recover { rm, .. } | Step::Resolve { rm } | Step::ResolveOpen { rm } => {
            Sides::Sends(Party::Manager, Party::Rm(rm))
        }
        Step::Decide { .. }
        | Step::Claim { .. }
        | Step::Settle { .. }
        | Step::Abandon { .. }
        | Step::Done { .. } => Sides::Alone(Party::Manager),
        Step::Crash(Part::Line { thread, rm }) => {
            Sides::Between(Party::Thread(thread), Party::Rm(rm))
        }
        Step::Crash(Part::Rm { rm }) | Step::Restart(Side::Rm { rm }) => {
            Sides::Alone(Party::Rm(rm))
        }
        Step::Crash(Part::Manager) | Step::Restart(Side::Manager) => Sides::Alone(Party::Manager),
    }
}

/// A part in words.
pub fn party_text(alloc: Global, party: Party) -> Result<String, Memory>
    ensures { IfOk result (λ text. string_bytes text ≡ party_text party) }
{
    match party {
        Party::Thread(thread) => Ok(format!(in alloc; "thread {thread}")?),
        Party::Manager => Ok(String::from_str(alloc, "manager")?),
        Party::Rm(rm) => Ok(format!(in alloc; "rm {rm}")?),
    }
}

/// Two parts with a mark between them.
fn pair_text(alloc: Global, one: Party, mark: &str, other: Party) -> Result<String, Memory>
    ensures { IfOk result (λ text. string_bytes text ≡ pair_text one mark.now other) }
{
    let one = party_text(alloc, one)?;
    let other = party_text(alloc, other)?;
    Ok(format!(in alloc; "{one} {mark} {other}")?)
}

/// Who takes part, in words.
pub fn sides_text(alloc: Global, sides: Sides) -> Result<String, Memory>
    ensures { IfOk result (λ text. string_bytes text ≡ sides_text sides) }
{
    match sides {
        Sides::Alone(party) => party_text(alloc, party),
        Sides::Sends(from, to) => pair_text(alloc, from, "→", to),
        Sides::Hears(by, of) => pair_text(alloc, by, "←", of),
        Sides::Between(one, other) => pair_text(alloc, one, "–", other),
    }
}
