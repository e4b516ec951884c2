// Why a syntax tree has no document.
ghost use Rattle.std.specs.Prelude.{◌≡◌, IfOk};
ghost use Rattle.topos_model.specs.declared.fault.Fault.TheVariants as fault;
ghost use Rattle.topos_names.specs.Stops.{IsFault};
ghost use Rattle.topos_names.specs.declared.stop.NameStop.TheVariants.{NoMemory};

use std::alloc::{AllocError, AllocFailed, Global};
use topos_model::{Fault, Name, Row};
use topos_text::Written;

/// Why a syntax tree has no document.
#[derive(Drop)]
pub enum NameStop {
    /// No memory was left.
    NoMemory,
    /// A limit is passed, a name stands twice, or a name is unknown.
    Fault(Fault),
}

impl From<topos_model::NoMemory> for NameStop {
    ghost from_gives = { λ _ stop. stop ≡ NoMemory };

    fn from(_error: topos_model::NoMemory) -> NameStop {
        NameStop::NoMemory
    }
}

impl From<AllocError> for NameStop {
    ghost from_gives = { λ _ stop. stop ≡ NoMemory };

    fn from(_error: AllocError) -> NameStop {
        NameStop::NoMemory
    }
}

impl<T: Drop> From<AllocFailed<T>> for NameStop {
    ghost from_gives = { λ _ stop. stop ≡ NoMemory };

    fn from(_error: AllocFailed<T>) -> NameStop {
        NameStop::NoMemory
    }
}

// A name by its bytes.
pub(crate) fn name_of(alloc: Global, text: &[u8]) -> Result<Name, topos_model::NoMemory>
    ensures { IfOk result (λ name. name ≡ text.now) }
{
    let mut name = Row::new(alloc);
    for byte in text {
        name.push(*byte)?;
    }
    Ok(name)
}

// The name stands twice.
pub(crate) fn name_twice(alloc: Global, x: &Written<'_>) -> NameStop
    ensures { IsFault (fault.NameTwice x.now.token x.now.text.now) result }
{
    match name_of(alloc, x.text) {
        Ok(text) => NameStop::Fault(Fault::NameTwice {
            token: x.token,
            text,
        }),
        Err(_) => NameStop::NoMemory,
    }
}

// The name is unknown.
pub(crate) fn name_unknown(alloc: Global, x: &Written<'_>) -> NameStop
    ensures { IsFault (fault.NameUnknown x.now.token x.now.text.now) result }
{
    match name_of(alloc, x.text) {
        Ok(text) => NameStop::Fault(Fault::NameUnknown {
            token: x.token,
            text,
        }),
        Err(_) => NameStop::NoMemory,
    }
}
