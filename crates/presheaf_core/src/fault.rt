// Why listed data give no presheaf.
use topos_model::NoMemory;

/// Why listed data give no presheaf. Arrows go by their numbers, the identities first.
#[derive(Clone, Copy, Debug, PartialEq, Eq)]
pub enum FunctorFault {
    /// 50: the restriction along f is not listed, no two declared arrows before f fill it, and its codomain has an element.
    RestrictionMissing { f: u32 },
    /// 51: the restriction along f is listed and has no entry for x.
    NotTotal { f: u32, x: u32 },
    /// 52: (x.g).f is other than x.(g.f), and no instance before (g, f, x) fails.
    NotFunctorial { g: u32, f: u32, x: u32 },
    /// No memory was left.
    NoMemory,
}

impl From<NoMemory> for FunctorFault {
    ghost use Rattle.std.specs.Prelude.{◌≡◌};
    ghost use Rattle.presheaf_core.specs.declared.fault.FunctorFault.TheVariants.{NoMemory};

    ghost from_gives = { λ _ fault. fault ≡ NoMemory };

    fn from(_error: NoMemory) -> FunctorFault {
        FunctorFault::NoMemory
    }
}
