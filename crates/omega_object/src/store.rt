// A store for a site.
ghost use Rattle.std.specs.Prelude.{◌≡◌, ◌<◌, ◌≤◌, ℕ, [], None, List, length, IfOk};
ghost use Rattle.topos_model.specs.types.Types.{Presheaf};
ghost use Rattle.functor_store.specs.Faithful.{IsFaithful};

use fin_category::Cat;
use functor_store::FunctorStore;
use std::alloc::Global;
use topologies::Site;
use topos_model::{NoMemory, Row};

// The domain and the codomain of each arrow.
fn all_ends(alloc: Global, cat: &Cat) -> Result<Row<(u32, u32)>, NoMemory>
    ensures ends { IfOk result (λ row. row ≡ cat.now.ends) }
{
    let mut row = Row::new(alloc);
    for f in 0..cat.arrows() {
        row.push((cat.dom(f), cat.cod(f)))?;
    }
    Ok(row)
}

/// A store with no functor for the category of a site. It is faithful to the site, whatever functors are named.
pub fn empty_store(alloc: Global, site: &Site, budget: u64) -> Result<FunctorStore, NoMemory>
    requires { budget ≤ 64_000_000 }
    ensures value { IfOk result (λ store. store ≡ record { objects = site.now.category.objects; ends = site.now.category.ends; budget = budget; charges = 0; sealed = []; building = None }) }
    ensures faithful { IfOk result (λ store. (functors : List Presheaf) → IsFaithful site.now functors store) }
{
    let cat = site.cat();
    cat.laws();
    let ends = all_ends(alloc, cat)?;
    FunctorStore::new(alloc, cat.objects(), ends, budget)
}
