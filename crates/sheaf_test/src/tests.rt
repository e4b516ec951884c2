ghost use Rattle.std.specs.Prelude.{◌≡◌, IfOk, IfSome};
ghost use Rattle.topos_model.specs.Laws.{IsFunctor};

use crate::{SheafVerdict, test};
use fin_category::{Cat, is_listing};
use presheaf_core::Functor;
use std::alloc::Global;
use std::test::Fail;
use topologies::{Site, Topology, are_families};
use topos_model::{Family, NoMemory, RawCat, RawFunctor, Row};

// What covers V and E: all arrows alone, also none, or each sieve with a composite of each arrow.
#[derive(Clone, Copy)]
enum Covers {
    Maximal,
    Empty,
    Dense,
}

// Two objects V and E, and two arrows s and t from V to E, of numbers 2 and 3.
fn graph_category(alloc: Global) -> Result<Option<Cat>, NoMemory> {
    let mut ends = Row::new(alloc);
    ends.push((0, 1))?;
    ends.push((0, 1))?;
    let raw = RawCat {
        objects: 2,
        ends,
        listed: Row::new(alloc),
    };
    if !is_listing(&raw) {
        return Ok(None);
    }
    Ok(Cat::check(alloc, &raw).ok())
}

// The category with the topology in which V and E are covered by none.
fn covered_by_none(alloc: Global, cat: Cat) -> Result<Option<Site>, NoMemory> {
    let mut families = Row::new(alloc);
    for at in 0..2 {
        families.push(Family {
            at,
            arrows: Row::new(alloc),
        })?;
    }
    if !are_families(&cat, families.as_slice()) {
        return Ok(None);
    }
    match Topology::listed(alloc, &cat, families.as_slice()) {
        Ok(top) => Ok(Some(Site::new(cat, top))),
        Err(_) => Ok(None),
    }
}

fn graph_site(alloc: Global, covers: Covers) -> Result<Option<Site>, NoMemory> {
    match graph_category(alloc)? {
        None => Ok(None),
        Some(cat) => match covers {
            Covers::Maximal => {
                let top = Topology::trivial(alloc, &cat)?;
                Ok(Some(Site::new(cat, top)))
            }
            Covers::Empty => covered_by_none(alloc, cat),
            Covers::Dense => {
                let top = Topology::dense(alloc, &cat)?;
                Ok(Some(Site::new(cat, top)))
            }
        },
    }
}

// The presheaf of so many vertices at V, and no edge at E.
fn vertices(alloc: Global, cat: &Cat, count: u32) -> Result<Option<Functor>, NoMemory>
    ensures { IfOk result (λ made. IfSome made (λ functor. IsFunctor cat.now functor)) }
{
    if cat.objects() != 2 {
        return Ok(None);
    }
    let mut sizes = Row::new(alloc);
    sizes.push(count)?;
    sizes.push(0)?;
    let raw = RawFunctor {
        sizes,
        along: Row::new(alloc),
    };
    Ok(Functor::check(alloc, cat, &raw).ok())
}

// A verdict in short.
fn spelt(alloc: Global, verdict: &SheafVerdict) -> Result<String, Fail> {
    match verdict {
        SheafVerdict::Sheaf => Ok(format!(in alloc; "sheaf")?),
        SheafVerdict::Fails {
            at,
            cover,
            family,
            found,
        } => {
            let cover = cover.as_slice();
            let family = family.as_slice();
            Ok(format!(in alloc; "at {at} cover {cover:?} family {family:?} found {found:?}")?)
        }
    }
}

// The verdict on so many vertices without an edge.
fn verdict(alloc: Global, covers: Covers, count: u32) -> Result<String, Fail> {
    if let Some(site) = graph_site(alloc, covers)? {
        if let Some(x) = vertices(alloc, site.cat(), count)? {
            return spelt(alloc, &test(alloc, &site, &x)?);
        }
    }
    Ok(format!(in alloc; "no presheaf")?)
}

/// Where only maximal sieves cover, each presheaf is a sheaf. Where V is covered by none, both of its elements amalgamate the empty family.
/// In the dense topology {s, t} covers E, and no edge goes from the one vertex to itself.
#[test]
fn verdicts_on_vertices(rt: HostRuntime) -> Result<(), Fail> {
    let alloc = rt.alloc();
    assert_eq!(rt; verdict(alloc, Covers::Maximal, 2)?.as_str(), "sheaf");
    assert_eq!(rt;
        verdict(alloc, Covers::Empty, 2)?.as_str(),
        "at 0 cover [] family [] found Some((0, 1))"
    );
    assert_eq!(rt;
        verdict(alloc, Covers::Dense, 1)?.as_str(),
        "at 1 cover [2, 3] family [0, 0] found None"
    );
    Ok(())
}
