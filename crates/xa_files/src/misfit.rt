//! Why a document is refused.

ghost use Rattle.std.specs.Prelude.{◌≡◌};
ghost use Rattle.xa_files.specs.Misfits.{document_fault_of};
ghost use Rattle.xa_files.specs.declared.misfit.Misfit.TheVariants.{Memory as WantsMemory};

use crate::fault::RunFault;
use crate::finding::Finding;
use std::alloc::{AllocError, AllocFailed};

/// Why a document is refused: where it is wrong, and what is wrong there.
#[derive(Clone, Copy)]
pub enum Misfit<'a> {
    /// The top of the document.
    Header(Finding<'a>),
    /// The first faulty step, from 1.
    Step(usize, Finding<'a>),
    /// The first faulty job, from 1.
    Job(usize, Finding<'a>),
    /// A request for memory was refused.
    Memory,
}

impl Misfit<'_> {
    /// The fault of a run of the document.
    pub fn fault(&self) -> RunFault
        ensures { result ≡ document_fault_of self.now }
    {
        match self {
            Misfit::Header(_) => RunFault::Header,
            Misfit::Step(number, _) => RunFault::Step(*number),
            Misfit::Job(number, _) => RunFault::Job(*number),
            Misfit::Memory => RunFault::Memory,
        }
    }
}

impl<'a> From<Misfit<'a>> for RunFault {
    ghost from_gives = { λ misfit fault. fault ≡ document_fault_of misfit };

    fn from(misfit: Misfit<'a>) -> RunFault {
        misfit.fault()
    }
}

impl<'a> From<AllocError> for Misfit<'a> {
    ghost from_gives = { λ _ misfit. misfit ≡ WantsMemory };

    fn from(_e: AllocError) -> Misfit<'a> {
        Misfit::Memory
    }
}

impl<'a, T: Drop> From<AllocFailed<T>> for Misfit<'a> {
    ghost from_gives = { λ _ misfit. misfit ≡ WantsMemory };

    fn from(_e: AllocFailed<T>) -> Misfit<'a> {
        Misfit::Memory
    }
}
