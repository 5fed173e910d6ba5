//! Laws of conducted sessions. These functions do nothing: each contract is a theorem.

ghost use Rattle.xa_conduct.specs.BetweenLines.{NoneIsStuck};
ghost use Rattle.xa_conduct.specs.Conducted.{ConductedSessionsAreServed};
ghost use Rattle.xa_conduct.specs.NotStuck.{TransactionsAreNotStuck};
ghost use Rattle.xa_conduct.specs.Outcomes.{ToldDecisionsWereMade};
ghost use Rattle.xa_conduct.specs.OverInTime.{TransactionsAreOver};
ghost use Rattle.xa_conduct.specs.Plain.{PlainRequestsHaveLines};
ghost use Rattle.xa_conduct.specs.Turns.{TransactionsEnd};

use xa_log::DecisionLog;
use xa_names::laws::without_a_name_nothing_changes;
use xa_requests::laws::words_have_one_spelling;
use xa_server::laws::served_sessions_agree;

/// Each request that a conductor makes is one that a driver might have asked for, by a line of its own.
pub fn plain_requests_have_lines()
    ensures { PlainRequestsHaveLines }
{
    words_have_one_spelling();
}

/// So a conducted session is one of a driver, of which [`served_sessions_agree`] speaks: each line of moves (`acts` of
/// [`Conductor::turn`](crate::Conductor::turn)), and all of them (`acts` of [`serve`](crate::serve)), lead on by such
/// requests alone.
pub fn conducted_sessions_are_served<L: DecisionLog + Drop>()
    ensures { ConductedSessionsAreServed L.moment }
{
    served_sessions_agree::<L>();
    without_a_name_nothing_changes();
}

/// The decisions on which outcomes rest that a conductor tells (`rests` of [`Conductor::turn`](crate::Conductor::turn)) were made:
/// each by one of the lines that its requests are, which was replied that it is decided.
pub fn told_decisions_were_made<L: DecisionLog + Drop>()
    ensures { ToldDecisionsWereMade L.moment }
{}

/// Each transaction comes to an end: by lines as each turn is one (`steps` of [`Conductor::turn`](crate::Conductor::turn)), no more than four moves
/// for each of its branches and one are taken of it. What isn't taken is replied by an error.
pub fn transactions_end()
    ensures { TransactionsEnd }
{}

/// Nor does one come to a stop before: between two lines it is over, or calls wait of which any answers of the table are taken, or a move of its
/// program is. Each is at rest then (`at_rest` of [`Conductor::turn`](crate::Conductor::turn)).
pub fn transactions_are_not_stuck<L: DecisionLog + Drop>()
    ensures each { TransactionsAreNotStuck }
    ensures conducted { NoneIsStuck L.moment }
{}

/// So if a driver goes on with moves that are taken, its transaction is over behind four for each of its branches and one.
pub fn transactions_are_over()
    ensures { TransactionsAreOver }
{}
