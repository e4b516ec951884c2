// Why a site or a statement gives no answer.
use functor_store::StoreFault;
use natural_maps::MapFault;
use presheaf_core::FunctorFault;
use term_typing::TypeFault;
use topos_model::{Doc, Fault, NoMemory};

/// Why a document's site is not run.
#[derive(Drop)]
pub enum SiteStop {
    /// The site is refused; the document is handed back.
    Refused(Doc, Fault),
    /// No memory was left. The document is given up.
    NoMemory,
}

/// Why a statement does not answer.
#[derive(Drop)]
pub enum Stop {
    Refused(Fault),
    /// The cells of the statements up to this one are more than the budget.
    Budget,
    NoMemory,
}

impl From<NoMemory> for SiteStop {
    ghost use Rattle.std.specs.Prelude.{◌≡◌};
    ghost use Rattle.topos_session.specs.declared.stop.SiteStop.TheVariants.{NoMemory};

    ghost from_gives = { λ _ stop. stop ≡ NoMemory };

    fn from(_error: NoMemory) -> SiteStop {
        SiteStop::NoMemory
    }
}

impl From<NoMemory> for Stop {
    ghost use Rattle.std.specs.Prelude.{◌≡◌};
    ghost use Rattle.topos_session.specs.declared.stop.Stop.TheVariants.{NoMemory};

    ghost from_gives = { λ _ stop. stop ≡ NoMemory };

    fn from(_error: NoMemory) -> Stop {
        Stop::NoMemory
    }
}

impl From<StoreFault> for Stop {
    ghost use Rattle.std.specs.Prelude.{◌≡◌};
    ghost use Rattle.topos_session.specs.Statements.{store_stop};

    ghost from_gives = { λ fault stop. stop ≡ store_stop fault };

    fn from(fault: StoreFault) -> Stop {
        match fault {
            StoreFault::Over => Stop::Budget,
            StoreFault::NoMemory => Stop::NoMemory,
        }
    }
}

impl From<TypeFault> for Stop {
    ghost use Rattle.std.specs.Prelude.{◌≡◌};
    ghost use Rattle.topos_session.specs.Statements.{type_stop};

    ghost from_gives = { λ fault stop. stop ≡ type_stop fault };

    fn from(fault: TypeFault) -> Stop {
        match fault {
            TypeFault::Expected { needed, found } => {
                Stop::Refused(Fault::Expected { needed, found })
            }
            TypeFault::NotAFunction { found } => Stop::Refused(Fault::NotAFunction { found }),
            TypeFault::NotAPower { found } => Stop::Refused(Fault::NotAPower { found }),
            TypeFault::NotAPair { found } => Stop::Refused(Fault::NotAPair { found }),
            TypeFault::NoMemory => Stop::NoMemory,
        }
    }
}

impl From<FunctorFault> for Stop {
    ghost use Rattle.std.specs.Prelude.{◌≡◌};
    ghost use Rattle.topos_session.specs.Statements.{presheaf_stop};

    ghost from_gives = { λ fault stop. stop ≡ presheaf_stop fault };

    fn from(fault: FunctorFault) -> Stop {
        match fault {
            FunctorFault::RestrictionMissing { f } => {
                Stop::Refused(Fault::RestrictionMissing { f })
            }
            FunctorFault::NotTotal { f, x } => Stop::Refused(Fault::NotTotal { f, x }),
            FunctorFault::NotFunctorial { g, f, x } => {
                Stop::Refused(Fault::NotFunctorial { g, f, x })
            }
            FunctorFault::NoMemory => Stop::NoMemory,
        }
    }
}

impl From<MapFault> for Stop {
    ghost use Rattle.std.specs.Prelude.{◌≡◌};
    ghost use Rattle.topos_session.specs.Statements.{map_stop};

    ghost from_gives = { λ fault stop. stop ≡ map_stop fault };

    fn from(fault: MapFault) -> Stop {
        match fault {
            MapFault::NoElement { at, k } => Stop::Refused(Fault::NoElement { at, k }),
            MapFault::MapNotTotal { at, x } => Stop::Refused(Fault::MapNotTotal { at, x }),
            MapFault::NotNatural { f, x } => Stop::Refused(Fault::NotNatural { f, x }),
            MapFault::NoMemory => Stop::NoMemory,
        }
    }
}
