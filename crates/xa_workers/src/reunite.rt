//! How the ends of lines meet again, once all workers have ended.
ghost use Rattle.std.specs.Prelude.{◌≡◌, All, IfOk, IfSome};
ghost use Rattle.xa_workers.specs.Outcomes.{IsThrough};

use crate::WorkFault;
use crate::brand::Run;
use crate::numbered::{NumberedIssuer, NumberedTaker};
use std::alloc::Global;
use xa_line::Line;

/// Takes the end with a number out of the others.
fn partner<J: Run>(takers: &mut Vec<NumberedTaker<J>>, number: usize) -> Option<NumberedTaker<J>>
    ensures { IfSome result (λ taker. taker.number ≡ number) }
{
    let place = takers.iter().position(|taker| taker.number() == number)?;
    Some(takers.swap_remove(place))
}

/// The line of an end, if its other end is there and the line holds nothing any more.
fn met<J: Run>(issuer: NumberedIssuer<J>, takers: &mut Vec<NumberedTaker<J>>) -> Option<Line>
    ensures { IfSome result IsThrough }
{
    let taker = partner(takers, issuer.number())?;
    let mut line = issuer.meet(taker);
    if line.take().is_some() || line.hear().is_some() {
        return None;
    }
    Some(line)
}

/// The lines of all ends. It is `Mixed` if an end has no other end, or a line still holds a call or
/// an answer.
pub(crate) fn all_met<J: Run>(
    alloc: Global,
    issuers: Vec<NumberedIssuer<J>>,
    takers: &mut Vec<NumberedTaker<J>>,
) -> Result<Vec<Line>, WorkFault>
    ensures { IfOk result (λ lines. All IsThrough lines.items) }
{
    let mut lines = Vec::new(alloc);
    for issuer in issuers {
        let Some(line) = met(issuer, takers) else {
            return Err(WorkFault::Mixed);
        };
        lines.push(line)?;
    }
    Ok(lines)
}
