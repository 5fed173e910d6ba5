//! What the pages of a scan list, one after another.

ghost use Rattle.xa_rm.specs.Pages.{PagesContinue};

/// A law of recovery scans, which the contract states; the call does nothing. The pages of a scan
/// from its start, one after another, followed by what still stands after the scan, are all that is
/// in doubt, each once and in order, however many identifiers each page was asked for.
pub fn pages_continue()
    ensures { PagesContinue }
{}
