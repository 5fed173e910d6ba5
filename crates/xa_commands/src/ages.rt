//! How old a log is: how often a manager has started over it.

ghost use Rattle.std.specs.Prelude.{◌<◌, ◌↔◌, IsTrue};

/// Whether a log of this incarnation is older than one that has had so many starts.
pub(crate) fn is_older(incarnation: u64, at_least: u64) -> bool
    ensures { IsTrue result ↔ (incarnation < at_least) }
{
    incarnation < at_least
}
