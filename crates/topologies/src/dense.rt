// The least covers of the dense topology.
ghost use Rattle.std.specs.Prelude.{◌≡◌, ◌<◌, length};
ghost use Rattle.topos_model.specs.categories.Category.{dom};
ghost use Rattle.topos_model.specs.Laws.{IsInto};
ghost use Rattle.fin_category.specs.ArrowSets.{arrows_in};
ghost use Rattle.topologies.specs.DenseCovers.{goes_back, comes_back, dense_least};

use fin_category::{ArrowMask, Cat};

// Whether f.g.h = f for some h.
fn goes_back(cat: &Cat, f: u32, g: u32) -> bool
    requires f { f < length cat.now.ends }
    requires g { IsInto cat.now (dom cat.now f) g }
    ensures { result ≡ goes_back cat.now f g }
{
    let composite = cat.compose(f, g);
    for h in cat.arrows_into(cat.dom(g)) {
        if cat.compose(composite, *h) == f {
            return true;
        }
    }
    false
}

// Whether each g into the domain of f has an h with f.g.h = f.
fn comes_back(cat: &Cat, f: u32) -> bool
    requires { f < length cat.now.ends }
    ensures { result ≡ comes_back cat.now f }
{
    for g in cat.arrows_into(cat.dom(f)) {
        if !goes_back(cat, f, *g) {
            return false;
        }
    }
    true
}

// The arrows into c from which one always comes back.
pub(crate) fn dense_cover(cat: &Cat, c: u32) -> ArrowMask
    requires { c < cat.now.objects }
    ensures { arrows_in result ≡ dense_least cat.now c }
{
    cat.laws();
    let mut cover = ArrowMask::empty();
    for f in cat.arrows_into(c) {
        if comes_back(cat, *f) {
            cover.insert(*f);
        }
    }
    cover
}
