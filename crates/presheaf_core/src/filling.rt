// The first pair of declared arrows that fills a restriction.
ghost use Rattle.std.specs.Prelude.{◌≡◌, ◌<◌, ◌≤◌, length};
ghost use Rattle.topos_model.specs.categories.Category.{dom};
ghost use Rattle.topos_model.specs.Laws.{IsInto};
ghost use Rattle.topos_model.specs.categories.Filling.{fills, filling_pair};
ghost use Rattle.presheaf_core.specs.Filling.{pair_from};

use fin_category::Cat;

// Whether the arrow h with g fills f, where g is declared and stands before f.
fn fills(cat: &Cat, f: u32, g: u32, h: u32) -> bool
    requires arrow { f < length cat.now.ends }
    requires declared { cat.now.objects ≤ g }
    requires before { g < f }
    requires into { IsInto cat.now (dom cat.now g) h }
    ensures { result ≡ fills cat.now f g h }
{
    if h < cat.objects() {
        return false;
    }
    if h >= f {
        return false;
    }
    cat.compose(g, h) == f
}

// The first pair that fills f and begins with the declared arrow g, which stands before f.
fn pair_from(cat: &Cat, f: u32, g: u32) -> Option<(u32, u32)>
    requires arrow { f < length cat.now.ends }
    requires declared { cat.now.objects ≤ g }
    requires before { g < f }
    ensures { result ≡ pair_from cat.now f g }
{
    for h in cat.arrows_into(cat.dom(g)) {
        if fills(cat, f, g, *h) {
            return Some((g, *h));
        }
    }
    None
}

// The first pair, in lexicographic order, of declared arrows before f whose composite is f.
pub(crate) fn filling_pair(cat: &Cat, f: u32) -> Option<(u32, u32)>
    requires { f < length cat.now.ends }
    ensures { result ≡ filling_pair cat.now f }
{
    for g in cat.objects()..f {
        if let Some(pair) = pair_from(cat, f, g) {
            return Some(pair);
        }
    }
    None
}
