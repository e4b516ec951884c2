ghost use Rattle.std.specs.Prelude.{◌<◌};
ghost use Rattle.topologies.specs.Topologies.{IsTopologyOn};

use crate::{TopFault, Topology, are_families};
use fin_category::{ArrowMask, Cat, is_listing};
use sieve_table::Sieve;
use std::alloc::Global;
use std::test::Fail;
use topos_model::{Family, NoMemory, RawCat, Row};

// The category of objects and declared arrows with all composites filled, or none where there is no such category.
fn filled(alloc: Global, objects: u32, ends: Row<(u32, u32)>) -> Option<Cat> {
    let raw = RawCat {
        objects,
        ends,
        listed: Row::new(alloc),
    };
    if !is_listing(&raw) {
        return None;
    }
    Cat::check(alloc, &raw).ok()
}

// The same of arrows in a table.
fn category(alloc: Global, objects: u32, arrows: &[(u32, u32)]) -> Result<Option<Cat>, NoMemory> {
    let mut ends = Row::new(alloc);
    for arrow in arrows {
        ends.push(*arrow)?;
    }
    Ok(filled(alloc, objects, ends))
}

// Two objects V and E, and two arrows s and t from V to E, of numbers 2 and 3.
fn graph_site(alloc: Global) -> Result<Option<Cat>, NoMemory> {
    category(alloc, 2, &[(0, 1), (0, 1)])
}

fn family(alloc: Global, at: u32, members: &[u32]) -> Result<Family, NoMemory> {
    let mut arrows = Row::new(alloc);
    for f in members {
        arrows.push(*f)?;
    }
    Ok(Family { at, arrows })
}

// What listed covers answer, in short.
fn answer(alloc: Global, cat: &Cat, families: &[Family]) -> Result<String, std::alloc::AllocError> {
    if !are_families(cat, families) {
        return format!(in alloc; "no families");
    }
    match Topology::listed(alloc, cat, families) {
        Ok(_) => format!(in alloc; "topology"),
        Err(TopFault::NotStable { at, cover, f }) => {
            format!(in alloc; "not stable: {at}, {}, {f}", cover.len())
        }
        Err(TopFault::NotTransitive { at, cover, other }) => {
            format!(in alloc; "not transitive: {at}, {}, {}", cover.len(), other.len())
        }
        Err(TopFault::NoMemory) => format!(in alloc; "no memory"),
    }
}

/// Where E is covered by none and V is not, the cover of E is not stable along s; where both are, it is a topology.
#[test]
fn covers_by_none(rt: HostRuntime) -> Result<(), Fail> {
    let alloc = rt.alloc();
    if let Some(cat) = graph_site(alloc)? {
        let mut families = Vec::new(alloc);
        families.push(family(alloc, 1, &[])?)?;
        assert_eq!(rt;
            answer(alloc, &cat, families.as_slice())?.as_str(),
            "not stable: 1, 0, 2"
        );
        families.push(family(alloc, 0, &[])?)?;
        assert_eq!(rt;
            answer(alloc, &cat, families.as_slice())?.as_str(),
            "topology"
        );
    } else {
        assert!(rt; false);
    }
    Ok(())
}

/// A to B to C with the composite h: C is covered by g and B by f, and {h} would have to cover C.
#[test]
fn cover_of_a_cover(rt: HostRuntime) -> Result<(), Fail> {
    let alloc = rt.alloc();
    if let Some(cat) = category(alloc, 3, &[(0, 1), (1, 2), (0, 2)])? {
        let mut families = Vec::new(alloc);
        families.push(family(alloc, 2, &[4])?)?;
        families.push(family(alloc, 1, &[3])?)?;
        assert_eq!(rt;
            answer(alloc, &cat, families.as_slice())?.as_str(),
            "not transitive: 2, 2, 1"
        );
    } else {
        assert!(rt; false);
    }
    Ok(())
}

/// Of the dense topology on the graph site the least cover of E is {s, t}.
#[test]
fn dense_on_the_graph_site(rt: HostRuntime) -> Result<(), Fail> {
    let alloc = rt.alloc();
    if let Some(cat) = graph_site(alloc)? {
        if cat.objects() == 2 {
            let top = Topology::dense(alloc, &cat)?;
            let least = top.least(&cat, 1).arrows();
            assert_eq!(rt; least.len(), 2);
            assert!(rt; least.contains(2) && least.contains(3));
            let whole = Sieve::maximal(&cat, 1);
            assert_eq!(rt; top.closure(&cat, &top.least(&cat, 1)).arrows().len(), 3);
            assert_eq!(rt; top.closure(&cat, &Sieve::empty(1)).arrows().len(), 0);
            assert!(rt; top.is_cover(&cat, &whole) && !top.is_cover(&cat, &Sieve::empty(1)));
        }
    } else {
        assert!(rt; false);
    }
    Ok(())
}

// The set of some of the first four arrows, by the bits of a number.
fn set_of(number: u32) -> ArrowMask {
    let mut arrows = ArrowMask::empty();
    for f in 0..4 {
        if number >> f & 1 == 1 {
            arrows.insert(f);
        }
    }
    arrows
}

fn are_same(a: ArrowMask, b: ArrowMask) -> bool {
    a.is_within(b) && b.is_within(a)
}

// How many sets of the first four arrows are sieves on c that the closure leaves as they are.
fn closed_sieves(cat: &Cat, top: &Topology, c: u32) -> u32
    requires object { c < cat.now.objects }
    requires topology { IsTopologyOn cat.now top.now }
{
    let mut count = 0;
    for number in 0..16 {
        let arrows = set_of(number);
        let sieve = Sieve::generated(cat, c, arrows.meet(cat.into(c)));
        if are_same(sieve.arrows(), arrows) && are_same(top.closure(cat, &sieve).arrows(), arrows) {
            count += 1;
        }
    }
    count
}

/// Of the dense topology on the graph site two sieves on V are closed, and four on E.
#[test]
fn closed_sieves_on_the_graph_site(rt: HostRuntime) -> Result<(), Fail> {
    let alloc = rt.alloc();
    if let Some(cat) = graph_site(alloc)? {
        let top = Topology::dense(alloc, &cat)?;
        for (c, count) in [(0, 2), (1, 4)] {
            assert!(rt; c < cat.objects());
            assert_eq!(rt; closed_sieves(&cat, &top, c), count, "on {c}");
        }
    } else {
        assert!(rt; false);
    }
    Ok(())
}

// The opens of a space of discrete points, by the bits of their numbers, with one arrow from each open to each that contains it.
fn opens(alloc: Global, objects: u32) -> Result<Option<Cat>, NoMemory> {
    let mut ends = Row::new(alloc);
    for large in 0..objects {
        for small in 0..objects {
            if small & large == small && small != large {
                ends.push((small, large))?;
            }
        }
    }
    Ok(filled(alloc, objects, ends))
}

// Each open that is no single point is covered by its single points, so the empty one by none.
fn covers_by_points(alloc: Global, cat: &Cat) -> Result<Row<Family>, NoMemory> {
    let mut families = Row::new(alloc);
    for c in 0..cat.objects() {
        if c.count_ones() != 1 {
            let mut arrows = Row::new(alloc);
            for f in cat.arrows_into(c) {
                if cat.dom(*f).count_ones() == 1 {
                    arrows.push(*f)?;
                }
            }
            families.push(Family { at: c, arrows })?;
        }
    }
    Ok(families)
}

// Whether a set has the arrows into c from opens of at most one point, and no other.
fn is_by_points(cat: &Cat, c: u32, arrows: ArrowMask) -> bool {
    for f in 0..cat.arrows() {
        let wanted = cat.cod(f) == c && cat.dom(f).count_ones() <= 1;
        if arrows.contains(f) != wanted {
            return false;
        }
    }
    true
}

/// The sites of four and of five discrete points, from their rules.
#[test]
fn opens_of_discrete_points(rt: HostRuntime) -> Result<(), Fail> {
    let alloc = rt.alloc();
    for (objects, arrows, covers) in [(16, 81, 12), (32, 243, 27)] {
        if let Some(cat) = opens(alloc, objects)? {
            assert_eq!(rt; cat.objects(), objects);
            assert_eq!(rt; cat.arrows(), arrows);
            let families = covers_by_points(alloc, &cat)?;
            assert_eq!(rt; families.len(), covers);
            assert!(rt; are_families(&cat, families.as_slice()));
            if let Ok(top) = Topology::listed(alloc, &cat, families.as_slice()) {
                let whole = objects - 1;
                assert!(rt; is_by_points(&cat, whole, top.least(&cat, whole).arrows()));
                assert_eq!(rt; top.least(&cat, 0).arrows().len(), 0);
            } else {
                assert!(rt; false);
            }
        } else {
            assert!(rt; false);
        }
    }
    Ok(())
}
