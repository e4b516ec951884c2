// Why a term has no type.
use topos_model::{NoMemory, Ty};

/// Why a term has no type.
#[derive(Drop)]
pub enum TypeFault {
    /// 60: a term has another type than the one that is needed where it stands.
    Expected { needed: Ty, found: Ty },
    /// 63: what is applied to an argument is of a type that is no type of functions.
    NotAFunction { found: Ty },
    /// 64: what stands behind `in` is of a type that is no power.
    NotAPower { found: Ty },
    /// 65: what `fst` or `snd` is taken of is of a type that is no product.
    NotAPair { found: Ty },
    /// No memory was left.
    NoMemory,
}

impl From<NoMemory> for TypeFault {
    ghost use Rattle.std.specs.Prelude.{◌≡◌};
    ghost use Rattle.term_typing.specs.declared.fault.TypeFault.TheVariants.{NoMemory};

    ghost from_gives = { λ _ fault. fault ≡ NoMemory };

    fn from(_error: NoMemory) -> TypeFault {
        TypeFault::NoMemory
    }
}
