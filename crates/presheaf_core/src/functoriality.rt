// The first instance at which restriction along a composite is other than restriction along one arrow and then the other.
ghost use Rattle.std.specs.Prelude.{◌≡◌, ◌<◌, length};
ghost use Rattle.topos_model.specs.categories.Category.{dom, cod};
ghost use Rattle.presheaf_core.specs.Functoriality.{instance_from_pair, instance_from, failing_instance};
ghost use Rattle.presheaf_core.specs.Rows.{AreRows};

use crate::Functor;
use fin_category::Cat;

// The first failing instance of g and f.
fn instance_from_pair(cat: &Cat, functor: &Functor, g: u32, f: u32) -> Option<(u32, u32, u32)>
    requires rows { AreRows cat.now functor.now }
    requires second { g < length cat.now.ends }
    requires first { f < length cat.now.ends }
    requires meet { cod cat.now f ≡ dom cat.now g }
    ensures { result ≡ instance_from_pair cat.now functor.now g f }
{
    let first = functor.row(g);
    let second = functor.row(f);
    let both = functor.row(cat.compose(g, f));
    for x in 0..functor.size(cat.cod(g)) {
        if second[first[x as usize] as usize] != both[x as usize] {
            return Some((g, f, x));
        }
    }
    None
}

// The first failing instance that begins with g.
fn instance_from(cat: &Cat, functor: &Functor, g: u32) -> Option<(u32, u32, u32)>
    requires rows { AreRows cat.now functor.now }
    requires arrow { g < length cat.now.ends }
    ensures { result ≡ instance_from cat.now functor.now g }
{
    for f in cat.arrows_into(cat.dom(g)) {
        if let Some(instance) = instance_from_pair(cat, functor, g, *f) {
            return Some(instance);
        }
    }
    None
}

// The first failing instance, in lexicographic order.
pub(crate) fn failing_instance(cat: &Cat, functor: &Functor) -> Option<(u32, u32, u32)>
    requires { AreRows cat.now functor.now }
    ensures { result ≡ failing_instance cat.now functor.now }
{
    for g in 0..cat.arrows() {
        if let Some(instance) = instance_from(cat, functor, g) {
            return Some(instance);
        }
    }
    None
}
