// The first triple of arrows that does not associate.
ghost use Rattle.std.specs.Prelude.{◌≡◌, ◌<◌, length};
ghost use Rattle.topos_model.specs.categories.Category.{dom, cod};
ghost use Rattle.fin_category.specs.Associativity.{triple_from_pair, triple_from, failing_triple};

use crate::tables::Tables;

// The first failing triple that begins with h and g.
fn triple_from_pair(tables: &Tables, h: u32, g: u32) -> Option<(u32, u32, u32)>
    requires third { h < length tables.now.ends }
    requires second { g < length tables.now.ends }
    requires meet { cod tables.now g ≡ dom tables.now h }
    ensures { result ≡ triple_from_pair tables.now h g }
{
    let hg = tables.compose(h, g);
    for f in tables.arrows_into(tables.dom(g)) {
        let gf = tables.compose(g, *f);
        if tables.compose(h, gf) != tables.compose(hg, *f) {
            return Some((h, g, *f));
        }
    }
    None
}

// The first failing triple that begins with h.
fn triple_from(tables: &Tables, h: u32) -> Option<(u32, u32, u32)>
    requires { h < length tables.now.ends }
    ensures { result ≡ triple_from tables.now h }
{
    for g in tables.arrows_into(tables.dom(h)) {
        if let Some(triple) = triple_from_pair(tables, h, *g) {
            return Some(triple);
        }
    }
    None
}

// The first failing triple, in lexicographic order.
pub(crate) fn failing_triple(tables: &Tables) -> Option<(u32, u32, u32)>
    ensures { result ≡ failing_triple tables.now }
{
    for h in 0..tables.arrows() {
        if let Some(triple) = triple_from(tables, h) {
            return Some(triple);
        }
    }
    None
}
