// The candidate tests of listed covers.
ghost use Rattle.std.specs.Prelude.{◌≡◌, ℕ, ◌<◌, length, [], map, get_or, IfOk, IfErr, OnOk, None};
ghost use Rattle.finite_lists.specs.Members.{In};
ghost use Rattle.topos_model.specs.categories.Category.{dom, compose};
ghost use Rattle.topos_model.specs.Laws.{IsInto};
ghost use Rattle.fin_category.specs.Masks.{all_added};
ghost use Rattle.fin_category.specs.ArrowSets.{arrows_in};
ghost use Rattle.sieve_table.specs.Sieves.{sieve_arrows, IsSieveOf};
ghost use Rattle.topologies.specs.ListedFaults.{IsUnstable, IsNarrow, IsThin};
ghost use Rattle.topologies.specs.Candidates.{AreSieves, AreCovers, covered, unstable_along, unstable, narrow_with, narrow, taken_twice, thin};

use crate::TopFault;
use fin_category::{ArrowMask, Cat};
use sieve_table::Sieve;
use std::alloc::Global;
use topos_model::{NoMemory, Row};

// Whether a sieve has all arrows, or those of a sieve that is listed for its object.
fn is_covered(cat: &Cat, sieves: &[Sieve], s: &Sieve) -> bool
    requires { s.now.at < cat.now.objects }
    ensures { result ≡ covered cat.now sieves.now s.now.at (sieve_arrows s.now) }
{
    if cat.into(s.at()).is_within(s.arrows()) {
        return true;
    }
    for listed in sieves {
        if listed.at() == s.at() && listed.subset(s) {
            return true;
        }
    }
    false
}

// The first arrow along which a sieve pulls back to no cover.
fn unstable_along(cat: &Cat, sieves: &[Sieve], l: &Sieve) -> Option<u32>
    requires sieve { IsSieveOf cat.now l.now }
    requires object { l.now.at < cat.now.objects }
    ensures { result ≡ unstable_along cat.now sieves.now l.now }
{
    cat.laws();
    for f in cat.arrows_into(l.at()) {
        if !is_covered(cat, sieves, &l.pull(cat, *f)) {
            return Some(*f);
        }
    }
    None
}

// The first listed sieve that has such an arrow, with it.
fn unstable(cat: &Cat, sieves: &[Sieve]) -> Option<(Sieve, u32)>
    requires { AreSieves cat.now sieves.now }
    ensures { result ≡ unstable cat.now sieves.now }
{
    for l in sieves {
        if let Some(f) = unstable_along(cat, sieves, l) {
            return Some((*l, f));
        }
    }
    None
}

// The first listed sieve whose intersection with a sieve is no cover.
fn narrow_with(cat: &Cat, sieves: &[Sieve], l: &Sieve) -> Option<Sieve>
    requires { l.now.at < cat.now.objects }
    ensures { result ≡ narrow_with cat.now sieves.now l.now }
{
    for m in sieves {
        if m.at() == l.at() && !is_covered(cat, sieves, &l.meet(m)) {
            return Some(*m);
        }
    }
    None
}

// The first pair of listed sieves of one object whose intersection is no cover.
fn narrow(cat: &Cat, sieves: &[Sieve]) -> Option<(Sieve, Sieve)>
    requires { AreSieves cat.now sieves.now }
    ensures { result ≡ narrow cat.now sieves.now }
{
    for l in sieves {
        if let Some(m) = narrow_with(cat, sieves, l) {
            return Some((*l, m));
        }
    }
    None
}

// Puts the composites f.g into a set, for g in another.
fn add_composites(cat: &Cat, f: u32, seconds: ArrowMask, arrows: &mut ArrowMask)
    requires first { f < length cat.now.ends }
    requires into { (g : ℕ) → In (arrows_in seconds) g → IsInto cat.now (dom cat.now f) g }
    ensures { arrows_in arrows.new ≡ all_added (arrows_in arrows.old) (map (compose cat.now f) (arrows_in seconds)) }
{
    cat.laws();
    for g in seconds.iter() {
        arrows.insert(cat.compose(f, g));
    }
}

// The arrows f.g with f in the least cover of c and g in that of the domain of f.
fn taken_twice(cat: &Cat, least: &[ArrowMask], c: u32) -> ArrowMask
    requires object { c < cat.now.objects }
    requires covers { AreCovers cat.now least.now }
    ensures { arrows_in result ≡ taken_twice cat.now least.now c }
{
    cat.laws();
    let mut arrows = ArrowMask::empty();
    for f in least[c as usize].iter() {
        add_composites(cat, f, least[cat.dom(f) as usize], &mut arrows);
    }
    arrows
}

// The first object at which the least covers taken twice are no cover.
fn thin(cat: &Cat, sieves: &[Sieve], least: &[ArrowMask]) -> Option<u32>
    requires { AreCovers cat.now least.now }
    ensures { result ≡ thin cat.now sieves.now least.now }
{
    for c in 0..cat.objects() {
        if !is_covered(cat, sieves, &Sieve::new(c, taken_twice(cat, least, c))) {
            return Some(c);
        }
    }
    None
}

// The arrows of a set, in rising order.
fn row_of(alloc: Global, arrows: ArrowMask) -> Result<Row<u32>, NoMemory>
    ensures { IfOk result (λ row. row ≡ arrows_in arrows) }
{
    let mut row = Row::new(alloc);
    for f in arrows.iter() {
        row.push(f)?;
    }
    Ok(row)
}

// That the listed sieves pull back to covers.
pub(crate) fn check_stable(alloc: Global, cat: &Cat, sieves: &[Sieve]) -> Result<(), TopFault>
    requires { AreSieves cat.now sieves.now }
    ensures ok { OnOk result (unstable cat.now sieves.now ≡ None) }
    ensures fault { IfErr result (λ fault. IsUnstable cat.now sieves.now fault) }
{
    match unstable(cat, sieves) {
        None => Ok(()),
        Some((l, f)) => Err(TopFault::NotStable {
            at: l.at(),
            cover: row_of(alloc, l.arrows())?,
            f,
        }),
    }
}

// That the intersections of listed sieves are covers.
pub(crate) fn check_intersections(
    alloc: Global,
    cat: &Cat,
    sieves: &[Sieve],
) -> Result<(), TopFault>
    requires { AreSieves cat.now sieves.now }
    ensures ok { OnOk result (narrow cat.now sieves.now ≡ None) }
    ensures fault { IfErr result (λ fault. IsNarrow cat.now sieves.now fault) }
{
    match narrow(cat, sieves) {
        None => Ok(()),
        Some((l, m)) => Err(TopFault::NotTransitive {
            at: l.at(),
            cover: row_of(alloc, l.arrows())?,
            other: row_of(alloc, l.arrows().meet(m.arrows()))?,
        }),
    }
}

// That the least covers taken twice are covers.
pub(crate) fn check_twice(
    alloc: Global,
    cat: &Cat,
    sieves: &[Sieve],
    least: &[ArrowMask],
) -> Result<(), TopFault>
    requires { AreCovers cat.now least.now }
    ensures ok { OnOk result (thin cat.now sieves.now least.now ≡ None) }
    ensures fault { IfErr result (λ fault. IsThin cat.now sieves.now least.now fault) }
{
    match thin(cat, sieves, least) {
        None => Ok(()),
        Some(c) => Err(TopFault::NotTransitive {
            at: c,
            cover: row_of(alloc, least[c as usize])?,
            other: row_of(alloc, taken_twice(cat, least, c))?,
        }),
    }
}
