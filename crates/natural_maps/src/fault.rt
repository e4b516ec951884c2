// Why listed data give no natural map.
use topos_model::NoMemory;

/// Why listed data give no natural map. Objects, arrows and elements go by their numbers.
#[derive(Clone, Copy, Debug, PartialEq, Eq)]
pub enum MapFault {
    /// 55: an entry at the object names the element number k, and there are at most k.
    NoElement { at: u32, k: u32 },
    /// 53: the element x at the object has no entry.
    MapNotTotal { at: u32, x: u32 },
    /// 54: m(x.f) is other than m(x).f, and no instance before (f, x) fails.
    NotNatural { f: u32, x: u32 },
    /// No memory was left.
    NoMemory,
}

impl From<NoMemory> for MapFault {
    ghost use Rattle.std.specs.Prelude.{◌≡◌};
    ghost use Rattle.natural_maps.specs.declared.fault.MapFault.TheVariants.{NoMemory};

    ghost from_gives = { λ _ fault. fault ≡ NoMemory };

    fn from(_error: NoMemory) -> MapFault {
        MapFault::NoMemory
    }
}
