//! The names that a log keeps, beside those that it is opened with: each list begins with the
//! manager's, which is empty if it has none, and goes on with those of its resource managers, from
//! number 0.

ghost use Rattle.std.specs.Prelude.{◌≡◌, ◌+◌, ◌≢◌, ℕ, Err, IfNone, IfSome, OnOk, false, true};
ghost use Rattle.xa_names.specs.KeptNames.{AgreeInNames, DifferAt, has_rms};

/// Why a log isn't that of the manager and the resource managers that it is opened with.
#[derive(Clone, Copy, Debug, PartialEq, Eq)]
pub enum NameFault {
    /// It is that of a manager of another name; or only one of the two has a name.
    Manager,
    /// The resource manager of this number has another name there.
    ResourceManager(usize),
    /// It keeps names of resource managers, and none are given.
    Unnamed,
    /// It keeps no names of resource managers, and some are given.
    Unkept,
}

/// The first place at which both have a name, and not the same.
fn first_difference(kept: &[&str], given: &[&str]) -> Option<usize>
    ensures same { IfNone result (AgreeInNames kept.now given.now) }
    ensures other { IfSome result (λ place. DifferAt place kept.now given.now) }
{
    let both = kept.len().min(given.len());
    for place in 0..both {
        if kept[place] != given[place] {
            return Some(place);
        }
    }
    None
}

/// Refuses a log that keeps other names than those given. One of the two lists may go on where the
/// other has ended: resource managers may be left out at the end, and added there; but a log of
/// which either has none at all is refused.
pub fn check_names(kept: &[&str], given: &[&str]) -> Result<(), NameFault>
    ensures agree { OnOk result (AgreeInNames kept.now given.now) }
    ensures both { OnOk result (has_rms kept.now ≡ has_rms given.now) }
    ensures manager { result ≡ Err NameFault.Manager → DifferAt 0 kept.now given.now }
    ensures rm { (number : ℕ) → result ≡ Err (NameFault.ResourceManager number) →
        DifferAt (number + 1) kept.now given.now }
    ensures unnamed { result ≡ Err NameFault.Unnamed →
        (has_rms kept.now ≡ true) × (has_rms given.now ≡ false) }
    ensures unkept { result ≡ Err NameFault.Unkept →
        (has_rms kept.now ≡ false) × (has_rms given.now ≡ true) }
{
    match first_difference(kept, given) {
        Some(0) => Err(NameFault::Manager),
        Some(place) => Err(NameFault::ResourceManager(place - 1)),
        None if kept.len() > 1 && given.len() <= 1 => Err(NameFault::Unnamed),
        None if kept.len() <= 1 && given.len() > 1 => Err(NameFault::Unkept),
        None => Ok(()),
    }
}
