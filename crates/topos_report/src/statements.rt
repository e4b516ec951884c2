// What a report needs of statements: their words, and the names of what they make and speak of.
ghost use Rattle.std.specs.Prelude.{◌≡◌, ◌++◌, [], ◌∷◌, slice_get, OnOk};
ghost use Rattle.topos_report.specs.Lists.{comma_separated};
ghost use Rattle.topos_report.specs.Names.{functor_name, map_name, on_functor};
ghost use Rattle.topos_report.specs.Statements.{word_of, made_maps, tested_maps, made_name};

use crate::bytes::push_bytes;
use topos_model::{Doc, NoMemory, Stmt};

/// The first word of a statement that makes a functor.
#[tactic(auto, unfolding(crate::specs::Statements::word_of))]
pub fn push_word(out: &mut Vec<u8>, stmt: &Stmt) -> Result<(), NoMemory>
    ensures { OnOk result (out.new.items ≡ out.old.items ++ word_of stmt.now) }
{
    match stmt {
        Stmt::Product { .. } => push_bytes(out, b"product"),
        Stmt::Coproduct { .. } => push_bytes(out, b"coproduct"),
        Stmt::Equalizer { .. } => push_bytes(out, b"equalizer"),
        Stmt::Coequalizer { .. } => push_bytes(out, b"coequalizer"),
        Stmt::Pullback { .. } => push_bytes(out, b"pullback"),
        Stmt::Pushout { .. } => push_bytes(out, b"pushout"),
        Stmt::Image { .. } => push_bytes(out, b"image"),
        Stmt::Empty { .. } => push_bytes(out, b"empty"),
        Stmt::Sheafify { .. } => push_bytes(out, b"sheafify"),
        Stmt::Build { .. } => push_bytes(out, b"build"),
        Stmt::Sub { .. } => push_bytes(out, b"sub"),
        Stmt::Along { .. } => push_bytes(out, b"functor"),
        Stmt::Lan { .. } => push_bytes(out, b"lan"),
        Stmt::Ran { .. } => push_bytes(out, b"ran"),
        _ => Ok(()),
    }
}

/// The name of a functor, and nothing where there is none of this number.
pub fn push_functor_name(out: &mut Vec<u8>, doc: &Doc, functor: u32) -> Result<(), NoMemory>
    ensures { OnOk result (out.new.items ≡ out.old.items ++ functor_name doc.now functor) }
{
    match doc.functors.as_slice().get(functor as usize) {
        Some(declared) => push_bytes(out, declared.name.as_slice()),
        None => Ok(()),
    }
}

/// The name of a presheaf on a second category, and nothing where there is none of this number.
fn push_on_name(out: &mut Vec<u8>, doc: &Doc, on: u32) -> Result<(), NoMemory>
    ensures { OnOk result (out.new.items ≡ out.old.items ++ (on_functor doc.now on).name) }
{
    match doc.on_functors.as_slice().get(on as usize) {
        Some(declared) => push_bytes(out, declared.name.as_slice()),
        None => Ok(()),
    }
}

/// The name of a map, and nothing where there is none of this number.
pub fn push_map_name(out: &mut Vec<u8>, doc: &Doc, map: u32) -> Result<(), NoMemory>
    ensures { OnOk result (out.new.items ≡ out.old.items ++ map_name doc.now map) }
{
    match doc.maps.as_slice().get(map as usize) {
        Some(name) => push_bytes(out, name.as_slice()),
        None => Ok(()),
    }
}

/// The name of the functor that a statement makes.
#[tactic(auto, unfolding(crate::specs::Statements::made_name))]
pub fn push_made_name(out: &mut Vec<u8>, doc: &Doc, stmt: &Stmt) -> Result<(), NoMemory>
    ensures { OnOk result (out.new.items ≡ out.old.items ++ made_name doc.now stmt.now) }
{
    match stmt {
        Stmt::Product { functor, .. } => push_functor_name(out, doc, *functor),
        Stmt::Coproduct { functor, .. } => push_functor_name(out, doc, *functor),
        Stmt::Equalizer { functor, .. } => push_functor_name(out, doc, *functor),
        Stmt::Coequalizer { functor, .. } => push_functor_name(out, doc, *functor),
        Stmt::Pullback { functor, .. } => push_functor_name(out, doc, *functor),
        Stmt::Pushout { functor, .. } => push_functor_name(out, doc, *functor),
        Stmt::Image { functor, .. } => push_functor_name(out, doc, *functor),
        Stmt::Empty { functor } => push_functor_name(out, doc, *functor),
        Stmt::Sheafify { functor, .. } => push_functor_name(out, doc, *functor),
        Stmt::Build { functor, .. } => push_functor_name(out, doc, *functor),
        Stmt::Sub { functor, .. } => push_functor_name(out, doc, *functor),
        Stmt::Along { on, .. } => push_on_name(out, doc, *on),
        Stmt::Lan { functor, .. } => push_functor_name(out, doc, *functor),
        Stmt::Ran { functor, .. } => push_functor_name(out, doc, *functor),
        _ => Ok(()),
    }
}

/// The number i of two.
fn of_two(first: u32, second: u32, i: usize) -> Option<u32>
    ensures { result ≡ slice_get (first ∷ second ∷ []) i }
{
    match i {
        0 => Some(first),
        1 => Some(second),
        _ => None,
    }
}

/// The number i of one.
fn of_one(first: u32, i: usize) -> Option<u32>
    ensures { result ≡ slice_get (first ∷ []) i }
{
    match i {
        0 => Some(first),
        _ => None,
    }
}

/// The map number i of those that a statement makes with a functor.
#[tactic(auto, unfolding(crate::specs::Statements::made_maps))]
pub fn made_map(stmt: &Stmt, i: usize) -> Option<u32>
    ensures { result ≡ slice_get (made_maps stmt.now) i }
{
    match stmt {
        Stmt::Product { p, q, .. } => of_two(*p, *q, i),
        Stmt::Coproduct { p, q, .. } => of_two(*p, *q, i),
        Stmt::Equalizer { map, .. } => of_one(*map, i),
        Stmt::Coequalizer { map, .. } => of_one(*map, i),
        Stmt::Pullback { p, q, .. } => of_two(*p, *q, i),
        Stmt::Pushout { p, q, .. } => of_two(*p, *q, i),
        Stmt::Image { p, q, .. } => of_two(*p, *q, i),
        Stmt::Sheafify { map, .. } => of_one(*map, i),
        Stmt::Build { u, v, .. } => of_two(*u, *v, i),
        Stmt::Sub { map, .. } => of_one(*map, i),
        _ => None,
    }
}

/// The names of two maps, with a comma between them.
fn push_two(out: &mut Vec<u8>, doc: &Doc, first: u32, second: u32) -> Result<(), NoMemory>
    ensures { OnOk result (out.new.items ≡ out.old.items ++ comma_separated (map_name doc.now) (first ∷ second ∷ [])) }
{
    push_map_name(out, doc, first)?;
    push_bytes(out, b", ")?;
    push_map_name(out, doc, second)
}

/// The names of the maps whose ends a statement tests, with commas between them.
#[tactic(auto, unfolding(crate::specs::Statements::tested_maps))]
pub fn push_tested(out: &mut Vec<u8>, doc: &Doc, stmt: &Stmt) -> Result<(), NoMemory>
    ensures { OnOk result (out.new.items ≡ out.old.items ++ comma_separated (map_name doc.now) (tested_maps stmt.now)) }
{
    match stmt {
        Stmt::Equalizer { m, n, .. } => push_two(out, doc, *m, *n),
        Stmt::Coequalizer { m, n, .. } => push_two(out, doc, *m, *n),
        Stmt::Pullback { m, n, .. } => push_two(out, doc, *m, *n),
        Stmt::Pushout { m, n, .. } => push_two(out, doc, *m, *n),
        Stmt::Image { m, .. } => push_map_name(out, doc, *m),
        Stmt::Local { m } => push_map_name(out, doc, *m),
        _ => Ok(()),
    }
}
