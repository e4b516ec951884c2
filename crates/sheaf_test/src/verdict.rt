// The test whether a presheaf is a sheaf.
ghost use Rattle.std.specs.Prelude.{◌≡◌, ◌↔◌, ◌<◌, IfOk};
ghost use Rattle.finite_lists.specs.Members.{In};
ghost use Rattle.topos_model.specs.categories.Category.{sieves};
ghost use Rattle.topos_model.specs.Laws.{IsFunctor};
ghost use Rattle.topos_model.specs.topologies.LeastCovers.{least};
ghost use Rattle.topos_model.specs.topologies.Sheaves.{IsSheaf, sheaf_fault};
ghost use Rattle.topologies.specs.Topologies.{site_of, IsTopologyOn};
ghost use Rattle.sheaf_test.specs.Verdicts.{verdict_of};
ghost use Rattle.sheaf_test.specs.declared.verdict.SheafVerdict.TheVariants.{Sheaf};

use crate::families::failing_family;
use fin_category::Cat;
use natural_search::Preimages;
use presheaf_core::Functor;
use std::alloc::Global;
use topologies::{Site, Topology};
use topos_model::{NoMemory, Row};

/// Whether a presheaf is a sheaf.
#[derive(Drop)]
pub enum SheafVerdict {
    /// Each matching family on each cover has exactly one amalgamation.
    Sheaf,
    /// It is not: the first object at which a matching family on the least cover has not exactly one amalgamation, that cover's arrows in order,
    /// the first such family, with an element for each arrow of the cover, and none or the first two amalgamations.
    Fails {
        at: u32,
        cover: Row<u32>,
        family: Row<u32>,
        found: Option<(u32, u32)>,
    },
}

// The arrows of the least cover of c.
fn least_cover(alloc: Global, cat: &Cat, top: &Topology, c: u32) -> Result<Row<u32>, NoMemory>
    requires topology { IsTopologyOn cat.now top.now }
    requires object { c < cat.now.objects }
    ensures arrows { IfOk result (λ row. row ≡ least (site_of cat.now top.now) c) }
    ensures sieve { IfOk result (λ row. In (sieves cat.now c) row) }
{
    let cover = top.least(cat, c);
    let mut row = Row::new(alloc);
    for f in cover.arrows().iter() {
        row.push(f)?;
    }
    Ok(row)
}

/// Whether x is a sheaf (Mac Lane and Moerdijk, III): each matching family on each cover has exactly one amalgamation. It is enough to test the least
/// covers. Where it is none the answer has the first family that fails: objects in order, families in lexicographic order. Want of memory is the only error.
pub fn test(alloc: Global, site: &Site, x: &Functor) -> Result<SheafVerdict, NoMemory>
    requires { IsFunctor site.now.category x.now }
    ensures verdict { IfOk result (λ verdict. verdict ≡ verdict_of (sheaf_fault site.now x.now)) }
    ensures sheaf { IfOk result (λ verdict. (verdict ≡ Sheaf) ↔ IsSheaf site.now x.now) }
{
    let cat = site.cat();
    let top = site.top();
    cat.laws();
    let preimages = Preimages::of(alloc, x.rows())?;
    for c in 0..cat.objects() {
        let cover = least_cover(alloc, cat, top, c)?;
        if let Some(failing) = failing_family(alloc, cat, x, &preimages, c, cover.as_slice())? {
            return Ok(SheafVerdict::Fails {
                at: c,
                cover,
                family: failing.family,
                found: failing.found,
            });
        }
    }
    Ok(SheafVerdict::Sheaf)
}
