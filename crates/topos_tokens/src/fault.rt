// Why a text gives no document.
ghost use Rattle.std.specs.Prelude.{◌≡◌};
ghost use Rattle.topos_tokens.specs.declared.fault.ReadFault.TheVariants.{NoMemory};

use std::alloc::{AllocError, AllocFailed};
use topos_model::Fault;

/// Why a text gives no document.
#[derive(Drop)]
pub enum ReadFault {
    /// No memory was left.
    NoMemory,
    /// The text's first fault.
    Refused(Fault),
}

impl From<AllocError> for ReadFault {
    ghost from_gives = { λ _ e. e ≡ NoMemory };

    fn from(_error: AllocError) -> ReadFault {
        ReadFault::NoMemory
    }
}

impl<T: Drop> From<AllocFailed<T>> for ReadFault {
    ghost from_gives = { λ _ e. e ≡ NoMemory };

    fn from(_error: AllocFailed<T>) -> ReadFault {
        ReadFault::NoMemory
    }
}
