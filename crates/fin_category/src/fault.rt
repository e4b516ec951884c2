// Why listed data give no category.
use topos_model::NoMemory;

/// Why listed data give no category. Arrows go by their numbers, the identities first.
#[derive(Clone, Copy, Debug, PartialEq, Eq)]
pub enum CatFault {
    /// 30: the composite g.f is not listed, and the arrows with its ends are none or several.
    CompositeMissing { g: u32, f: u32 },
    /// 31: the composite g.f is listed before.
    CompositeTwice { g: u32, f: u32 },
    /// 32: the listed h has other ends than g.f, or f ends elsewhere than g begins.
    CompositeEnds { g: u32, f: u32, h: u32 },
    /// 33: h.(g.f) is other than (h.g).f, and no triple before (h, g, f) fails.
    NotAssociative { h: u32, g: u32, f: u32 },
    /// No memory was left.
    NoMemory,
}

impl From<NoMemory> for CatFault {
    ghost use Rattle.std.specs.Prelude.{◌≡◌};
    ghost use Rattle.fin_category.specs.declared.fault.CatFault.TheVariants.{NoMemory};

    ghost from_gives = { λ _ fault. fault ≡ NoMemory };

    fn from(_error: NoMemory) -> CatFault {
        CatFault::NoMemory
    }
}
