// The first instance at which a map does not commute with a restriction.
ghost use Rattle.std.specs.Prelude.{◌≡◌, ◌<◌, length};
ghost use Rattle.topos_model.specs.Laws.{IsFunctor};
ghost use Rattle.natural_maps.specs.Components.{AreComponents, square_from, failing_square};

use fin_category::Cat;
use presheaf_core::Functor;
use topos_model::Row;

// The first element x at the codomain of f for which m(x.f) is other than m(x).f.
fn square_from(cat: &Cat, p: &Functor, q: &Functor, rows: &Row<Row<u32>>, f: u32) -> Option<u32>
    requires domain { IsFunctor cat.now p.now }
    requires codomain { IsFunctor cat.now q.now }
    requires rows { AreComponents cat.now p.now q.now rows.now }
    requires arrow { f < length cat.now.ends }
    ensures { result ≡ square_from cat.now p.now q.now rows.now f }
{
    let source = rows.get(cat.dom(f) as usize).as_slice();
    let target = rows.get(cat.cod(f) as usize).as_slice();
    let along_p = p.row(f);
    let along_q = q.row(f);
    for x in 0..p.size(cat.cod(f)) {
        let restricted = along_p[x as usize];
        let image = target[x as usize];
        if source[restricted as usize] != along_q[image as usize] {
            return Some(x);
        }
    }
    None
}

// The first (f, x), in lexicographic order, for which m(x.f) is other than m(x).f.
pub(crate) fn failing_square(
    cat: &Cat,
    p: &Functor,
    q: &Functor,
    rows: &Row<Row<u32>>,
) -> Option<(u32, u32)>
    requires domain { IsFunctor cat.now p.now }
    requires codomain { IsFunctor cat.now q.now }
    requires rows { AreComponents cat.now p.now q.now rows.now }
    ensures { result ≡ failing_square cat.now p.now q.now rows.now }
{
    for f in 0..cat.arrows() {
        if let Some(x) = square_from(cat, p, q, rows, f) {
            return Some((f, x));
        }
    }
    None
}
