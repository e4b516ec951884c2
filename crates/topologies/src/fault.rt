// Why listed covers give no topology.
use topos_model::{NoMemory, Row};

/// Why listed covers give no topology: the first candidate that fails.
#[derive(Drop)]
pub enum TopFault {
    /// The listed sieve `cover` of the object, pulled back along f, does not cover.
    NotStable {
        at: u32,
        cover: Row<u32>,
        f: u32,
    },
    /// The sieve `other` does not cover, and transitivity wants it to.
    NotTransitive {
        at: u32,
        cover: Row<u32>,
        other: Row<u32>,
    },
    /// No memory was left.
    NoMemory,
}

impl From<NoMemory> for TopFault {
    ghost use Rattle.std.specs.Prelude.{◌≡◌};
    ghost use Rattle.topologies.specs.declared.fault.TopFault.TheVariants.{NoMemory};

    ghost from_gives = { λ _ fault. fault ≡ NoMemory };

    fn from(_error: NoMemory) -> TopFault {
        TopFault::NoMemory
    }
}
