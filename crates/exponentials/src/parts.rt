// Sealing a type and its parts, one after another.
ghost use Rattle.topos_model.specs.statements.Needs.{parts};
ghost use Rattle.exponentials.specs.Needed.{IsReady, IsOutcome};

use crate::next::{function, one, place_of, power, product};
use functor_store::{FunctorId, FunctorStore, StoreFault};
use std::alloc::Global;
use topologies::Site;
use topos_model::Ty;

/// Seals the parts of a type that are not sealed, and the type last. Where a fault comes, some may be sealed; `Over` says that the next of them does not fit.
pub(crate) fn seal_parts(
    alloc: Global,
    store: &mut FunctorStore,
    site: &Site,
    ty: &Ty,
) -> Result<FunctorId, StoreFault>
    requires ready { IsReady site.now ty.now store.old }
    ensures outcome { IsOutcome site.now (parts ty.now) ty.now store.old store.new result }
{
    match ty {
        Ty::Base(_) => Ok(place_of(store, ty)),
        Ty::One => one(alloc, store, site, ty),
        Ty::Omega => Ok(place_of(store, ty)),
        Ty::Two(left, right) => {
            let s = seal_parts(alloc, store, site, left.get())?;
            let t = seal_parts(alloc, store, site, right.get())?;
            product(alloc, store, site, ty, s, t)
        }
        Ty::Pow(of) => {
            let t = seal_parts(alloc, store, site, of.get())?;
            power(alloc, store, site, ty, t)
        }
        Ty::Fun(from, to) => {
            let s = seal_parts(alloc, store, site, from.get())?;
            let t = seal_parts(alloc, store, site, to.get())?;
            function(alloc, store, site, ty, s, t)
        }
    }
}
