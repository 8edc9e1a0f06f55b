//! Why a machine stopped.

ghost use Rattle.std.specs.Prelude.{◌≡◌};
ghost use Rattle.page_machine.specs.Machine.{stop_of};

use crate::steps::Interruption;
use page_env::Finding;
use std::alloc::AllocError;

/// Why a machine stopped.
#[derive(Drop)]
pub enum Stop<F> {
    /// The item has this finding, or the end of the bytes.
    Found(Finding),
    /// The sink refused an event.
    Refused(F),
    /// Memory was refused, by which the item would be stored or a definition begun.
    Memory(AllocError),
    /// The machine had stopped before, or the job was finished.
    Stopped,
}

/// What a machine answers for an item that halts.
pub(crate) fn stop_of<F>(halt: Interruption<F>) -> Stop<F>
    ensures { result ≡ stop_of halt }
{
    match halt {
        Interruption::Found(finding) => Stop::Found(finding),
        Interruption::Refused(fault) => Stop::Refused(fault),
    }
}
