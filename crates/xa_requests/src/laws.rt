//! Laws on what is read and what is written. These functions do nothing: each contract is a
//! theorem.

ghost use Rattle.xa_requests.specs.Identifiers.{RequestsHaveXids};
ghost use Rattle.xa_requests.specs.ReadBack.{CallsAreReadBack};
ghost use Rattle.xa_requests.specs.Spellings.{CodesHaveOneSpelling, IndexesHaveOneSpelling, IntegersHaveOneSpelling, KindsHaveOneSpelling, TransactionsHaveOneSpelling, XidsHaveOneSpelling};

/// A call that is written as in a reply, after `issue` and a line, is read as that call.
pub fn calls_are_read_back()
    ensures { CallsAreReadBack }
{}

/// Each identifier in what a line asks for is one: its parts have the lengths and the numbers that
/// XA allows (section 4.2). So is that of a branch which the line names by its transaction.
pub fn requests_have_xids()
    ensures { RequestsHaveXids }
{}

/// What a word names has just one spelling:
///
/// - `indexes`, `integers`: a number, its decimal text;
/// - `transactions`: a transaction, the text that `begun` tells;
/// - `xids`: an identifier, its text;
/// - `kinds`, `codes`: the kind of a call, its name in XA; a return code, its number in XA.
pub fn words_have_one_spelling()
    ensures indexes { IndexesHaveOneSpelling }
    ensures integers { IntegersHaveOneSpelling }
    ensures transactions { TransactionsHaveOneSpelling }
    ensures xids { XidsHaveOneSpelling }
    ensures kinds { KindsHaveOneSpelling }
    ensures codes { CodesHaveOneSpelling }
{}
