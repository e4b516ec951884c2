// Why a store takes no more.
use thiserror::Error;
use topos_model::NoMemory;

/// A charge would exceed the budget.
#[derive(Debug, Drop, Error)]
#[error("over the budget")]
pub struct Over;

/// Why a store takes no more.
#[derive(Debug, Drop, Error)]
pub enum StoreFault {
    /// The cells would exceed the budget.
    #[error("over the budget")]
    Over,
    /// No memory was left.
    #[error("no memory")]
    NoMemory,
}

impl From<NoMemory> for StoreFault {
    ghost use Rattle.std.specs.Prelude.{◌≡◌};
    ghost use Rattle.functor_store.specs.declared.fault.StoreFault.TheVariants.{NoMemory};

    ghost from_gives = { λ _ fault. fault ≡ NoMemory };

    fn from(_error: NoMemory) -> StoreFault {
        StoreFault::NoMemory
    }
}
