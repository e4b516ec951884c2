// Lines of refusals.
ghost use Rattle.std.specs.Prelude.{◌≡◌, ◌++◌, codes, OnOk, option_copied};
ghost use Rattle.std.specs.Prelude.{[]};
ghost use Rattle.topos_report.specs.Lists.{comma_separated};
ghost use Rattle.topos_report.specs.Names.{map_name};
ghost use Rattle.topos_report.specs.Refusals.{functor_of, tested_of, tested_at, number_prefix, declared_functor, element_of, element_along_text, refusal_line};

use crate::bytes::{push_bytes, push_number};
use crate::cover_refusals::{push_not_stable, push_not_transitive};
use crate::formula_refusals::{
    push_expected, push_not_a_function, push_not_a_pair, push_not_a_power, push_not_a_sheaf,
    push_type_too_large,
};
use crate::names::{ends, push_arrow, push_element, push_object};
use crate::statements::push_tested;
use crate::tables::push_place;
use crate::text_refusals::{
    push_bad_token, push_name_twice, push_name_unknown, push_not_text, push_syntax, push_too_many,
};
use crate::values::push_arrows;
use topos_model::{Doc, Fault, NoMemory, Stmt};

#[tactic(auto, unfolding(crate::specs::Refusals::number_prefix))]
fn push_number_prefix(out: &mut Vec<u8>, at: Option<u32>) -> Result<(), NoMemory>
    ensures { OnOk result (out.new.items ≡ out.old.items ++ number_prefix at) }
{
    match at {
        Some(k) => {
            push_number(out, u64::from(k))?;
            push_bytes(out, b" ")
        }
        None => Ok(()),
    }
}

#[tactic(auto, unfolding(crate::specs::Refusals::functor_of))]
fn statement_functor(stmt: Option<&Stmt>) -> Option<u32>
    ensures { result ≡ functor_of (option_copied stmt.entry) }
{
    match stmt {
        Some(Stmt::Presheaf { functor, .. }) => Some(*functor),
        Some(Stmt::Map { dom, .. }) => Some(*dom),
        _ => None,
    }
}

/// The functor whose elements the faults of statement number k speak of.
#[tactic(auto, unfolding(crate::specs::Refusals::declared_functor))]
fn functor_at(doc: &Doc, at: Option<u32>) -> Option<u32>
    ensures { result ≡ declared_functor doc.now at }
{
    match at {
        Some(k) => {
            let i = k.saturating_sub(doc.site_len).saturating_sub(1);
            statement_functor(doc.stmts.as_slice().get(i as usize))
        }
        None => None,
    }
}

#[tactic(auto, unfolding(crate::specs::Refusals::element_of))]
fn push_element_of(
    out: &mut Vec<u8>,
    doc: &Doc,
    functor: Option<u32>,
    c: u32,
    x: u32,
) -> Result<(), NoMemory>
    ensures { OnOk result (out.new.items ≡ out.old.items ++ element_of doc.now functor c x) }
{
    match functor {
        Some(functor) => push_element(out, doc, functor, c, x),
        None => Ok(()),
    }
}

pub fn push_refused(out: &mut Vec<u8>, at: Option<u32>, text: &[u8]) -> Result<(), NoMemory>
    ensures { OnOk result (out.new.items ≡ out.old.items ++ (number_prefix at ++ codes "refused " ++ text.now)) }
{
    push_number_prefix(out, at)?;
    push_bytes(out, b"refused ")?;
    push_bytes(out, text)
}

#[tactic(auto, unfolding(crate::specs::Refusals::refusal_line))]
fn push_not_built(out: &mut Vec<u8>, doc: &Doc, at: Option<u32>) -> Result<(), NoMemory>
    ensures { OnOk result (out.new.items ≡ out.old.items ++ refusal_line doc.now at Fault.NotBuilt) }
{
    push_refused(out, at, b"11 not built")?;
    push_bytes(out, b"\n")
}

#[tactic(auto, unfolding(crate::specs::Refusals::refusal_line))]
fn push_composite_missing(
    out: &mut Vec<u8>,
    doc: &Doc,
    at: Option<u32>,
    g: u32,
    f: u32,
) -> Result<(), NoMemory>
    ensures { OnOk result (out.new.items ≡ out.old.items ++ refusal_line doc.now at (Fault.CompositeMissing g f)) }
{
    push_refused(out, at, b"30 composite missing: ")?;
    push_arrows(out, doc, &[g, f])?;
    push_bytes(out, b"\n")
}

#[tactic(auto, unfolding(crate::specs::Refusals::refusal_line))]
fn push_composite_twice(
    out: &mut Vec<u8>,
    doc: &Doc,
    at: Option<u32>,
    g: u32,
    f: u32,
) -> Result<(), NoMemory>
    ensures { OnOk result (out.new.items ≡ out.old.items ++ refusal_line doc.now at (Fault.CompositeTwice g f)) }
{
    push_refused(out, at, b"31 composite twice: ")?;
    push_arrows(out, doc, &[g, f])?;
    push_bytes(out, b"\n")
}

#[tactic(auto, unfolding(crate::specs::Refusals::refusal_line))]
fn push_composite_ends(
    out: &mut Vec<u8>,
    doc: &Doc,
    at: Option<u32>,
    g: u32,
    f: u32,
    h: u32,
) -> Result<(), NoMemory>
    ensures { OnOk result (out.new.items ≡ out.old.items ++ refusal_line doc.now at (Fault.CompositeEnds g f h)) }
{
    push_refused(out, at, b"32 composite ends: ")?;
    push_arrows(out, doc, &[g, f, h])?;
    push_bytes(out, b"\n")
}

#[tactic(auto, unfolding(crate::specs::Refusals::refusal_line))]
fn push_not_associative(
    out: &mut Vec<u8>,
    doc: &Doc,
    at: Option<u32>,
    h: u32,
    g: u32,
    f: u32,
) -> Result<(), NoMemory>
    ensures { OnOk result (out.new.items ≡ out.old.items ++ refusal_line doc.now at (Fault.NotAssociative h g f)) }
{
    push_refused(out, at, b"33 not associative: ")?;
    push_arrows(out, doc, &[h, g, f])?;
    push_bytes(out, b"\n")
}

#[tactic(auto, unfolding(crate::specs::Refusals::element_along_text))]
fn push_element_along(
    out: &mut Vec<u8>,
    doc: &Doc,
    at: Option<u32>,
    f: u32,
    x: u32,
) -> Result<(), NoMemory>
    ensures { OnOk result (out.new.items ≡ out.old.items ++ element_along_text doc.now at f x) }
{
    push_element_of(out, doc, functor_at(doc, at), ends(doc, f).1, x)
}

#[tactic(auto, unfolding(crate::specs::Refusals::refusal_line))]
fn push_restriction_missing(
    out: &mut Vec<u8>,
    doc: &Doc,
    at: Option<u32>,
    f: u32,
) -> Result<(), NoMemory>
    ensures { OnOk result (out.new.items ≡ out.old.items ++ refusal_line doc.now at (Fault.RestrictionMissing f)) }
{
    push_refused(out, at, b"50 restriction missing: ")?;
    push_arrow(out, doc, f)?;
    push_bytes(out, b"\n")
}

#[tactic(auto, unfolding(crate::specs::Refusals::refusal_line))]
fn push_not_total(
    out: &mut Vec<u8>,
    doc: &Doc,
    at: Option<u32>,
    f: u32,
    x: u32,
) -> Result<(), NoMemory>
    ensures { OnOk result (out.new.items ≡ out.old.items ++ refusal_line doc.now at (Fault.NotTotal f x)) }
{
    push_refused(out, at, b"51 not total: ")?;
    push_arrow(out, doc, f)?;
    push_bytes(out, b", ")?;
    push_element_along(out, doc, at, f, x)?;
    push_bytes(out, b"\n")
}

#[tactic(auto, unfolding(crate::specs::Refusals::refusal_line))]
fn push_not_functorial(
    out: &mut Vec<u8>,
    doc: &Doc,
    at: Option<u32>,
    g: u32,
    f: u32,
    x: u32,
) -> Result<(), NoMemory>
    ensures { OnOk result (out.new.items ≡ out.old.items ++ refusal_line doc.now at (Fault.NotFunctorial g f x)) }
{
    push_refused(out, at, b"52 not functorial: ")?;
    push_arrows(out, doc, &[g, f])?;
    push_bytes(out, b", ")?;
    push_element_along(out, doc, at, g, x)?;
    push_bytes(out, b"\n")
}

#[tactic(auto, unfolding(crate::specs::Refusals::tested_of))]
fn push_tested_of(out: &mut Vec<u8>, doc: &Doc, stmt: Option<&Stmt>) -> Result<(), NoMemory>
    ensures { OnOk result (out.new.items ≡ out.old.items ++ comma_separated (map_name doc.now) (tested_of (option_copied stmt.entry))) }
{
    match stmt {
        Some(stmt) => push_tested(out, doc, stmt),
        None => Ok(()),
    }
}

/// The names of the maps whose ends statement number k tests.
#[tactic(auto, unfolding(crate::specs::Refusals::tested_at))]
fn push_tested_at(out: &mut Vec<u8>, doc: &Doc, at: Option<u32>) -> Result<(), NoMemory>
    ensures { OnOk result (out.new.items ≡ out.old.items ++ comma_separated (map_name doc.now) (tested_at doc.now at)) }
{
    match at {
        Some(k) => {
            let i = k.saturating_sub(doc.site_len).saturating_sub(1);
            push_tested_of(out, doc, doc.stmts.as_slice().get(i as usize))
        }
        None => Ok(()),
    }
}

#[tactic(auto, unfolding(crate::specs::Refusals::refusal_line))]
fn push_map_not_total(
    out: &mut Vec<u8>,
    doc: &Doc,
    at: Option<u32>,
    c: u32,
    x: u32,
) -> Result<(), NoMemory>
    ensures { OnOk result (out.new.items ≡ out.old.items ++ refusal_line doc.now at (Fault.MapNotTotal c x)) }
{
    push_refused(out, at, b"53 map not total: ")?;
    push_object(out, doc, c)?;
    push_bytes(out, b", ")?;
    push_element_of(out, doc, functor_at(doc, at), c, x)?;
    push_bytes(out, b"\n")
}

#[tactic(auto, unfolding(crate::specs::Refusals::refusal_line))]
fn push_not_natural(
    out: &mut Vec<u8>,
    doc: &Doc,
    at: Option<u32>,
    f: u32,
    x: u32,
) -> Result<(), NoMemory>
    ensures { OnOk result (out.new.items ≡ out.old.items ++ refusal_line doc.now at (Fault.NotNatural f x)) }
{
    push_refused(out, at, b"54 not natural: ")?;
    push_arrow(out, doc, f)?;
    push_bytes(out, b", ")?;
    push_element_along(out, doc, at, f, x)?;
    push_bytes(out, b"\n")
}

#[tactic(auto, unfolding(crate::specs::Refusals::refusal_line))]
fn push_no_element(
    out: &mut Vec<u8>,
    doc: &Doc,
    at: Option<u32>,
    c: u32,
    k: u32,
) -> Result<(), NoMemory>
    ensures { OnOk result (out.new.items ≡ out.old.items ++ refusal_line doc.now at (Fault.NoElement c k)) }
{
    push_refused(out, at, b"55 no such element: ")?;
    push_object(out, doc, c)?;
    push_bytes(out, b", ")?;
    push_place(out, u64::from(k))?;
    push_bytes(out, b"\n")
}

#[tactic(auto, unfolding(crate::specs::Refusals::refusal_line))]
fn push_not_parallel(out: &mut Vec<u8>, doc: &Doc, at: Option<u32>) -> Result<(), NoMemory>
    ensures { OnOk result (out.new.items ≡ out.old.items ++ refusal_line doc.now at Fault.NotParallel) }
{
    push_refused(out, at, b"70 ends: ")?;
    push_tested_at(out, doc, at)?;
    push_bytes(out, b"\n")
}

/// The line of a refusal. Other refusals come with their statements, and have no line yet.
#[tactic(auto, unfolding(crate::specs::Refusals::refusal_line))]
pub fn push_refusal(
    out: &mut Vec<u8>,
    doc: &Doc,
    at: Option<u32>,
    fault: &Fault,
) -> Result<(), NoMemory>
    ensures { OnOk result (out.new.items ≡ out.old.items ++ refusal_line doc.now at fault.now) }
{
    match fault {
        Fault::NotText(byte) => push_not_text(out, doc, at, *byte),
        Fault::NotBuilt => push_not_built(out, doc, at),
        Fault::BadToken(byte) => push_bad_token(out, doc, at, *byte),
        Fault::Syntax(token) => push_syntax(out, doc, at, *token),
        Fault::TooMany { kind, limit } => push_too_many(out, doc, at, *kind, *limit),
        Fault::NameTwice { token, text } => {
            push_name_twice(out, doc, at, *token, text.as_slice())
        }
        Fault::NameUnknown { token, text } => {
            push_name_unknown(out, doc, at, *token, text.as_slice())
        }
        Fault::CompositeMissing { g, f } => push_composite_missing(out, doc, at, *g, *f),
        Fault::CompositeTwice { g, f } => push_composite_twice(out, doc, at, *g, *f),
        Fault::CompositeEnds { g, f, h } => push_composite_ends(out, doc, at, *g, *f, *h),
        Fault::NotAssociative { h, g, f } => push_not_associative(out, doc, at, *h, *g, *f),
        Fault::NotStable {
            under,
            at: c,
            cover,
            f,
        } => push_not_stable(out, doc, at, *under, *c, cover.as_slice(), *f),
        Fault::NotTransitive {
            under,
            at: c,
            cover,
            other,
        } => { push_not_transitive(out, doc, at, *under, *c, cover.as_slice(), other.as_slice()) }
        Fault::RestrictionMissing { f } => push_restriction_missing(out, doc, at, *f),
        Fault::NotTotal { f, x } => push_not_total(out, doc, at, *f, *x),
        Fault::NotFunctorial { g, f, x } => push_not_functorial(out, doc, at, *g, *f, *x),
        Fault::MapNotTotal { at: c, x } => push_map_not_total(out, doc, at, *c, *x),
        Fault::NotNatural { f, x } => push_not_natural(out, doc, at, *f, *x),
        Fault::NoElement { at: c, k } => push_no_element(out, doc, at, *c, *k),
        Fault::Expected { needed, found } => push_expected(out, doc, at, needed, found),
        Fault::TypeTooLarge { nodes } => push_type_too_large(out, doc, at, *nodes),
        Fault::NotASheaf { functor } => push_not_a_sheaf(out, doc, at, *functor),
        Fault::NotAFunction { found } => push_not_a_function(out, doc, at, found),
        Fault::NotAPower { found } => push_not_a_power(out, doc, at, found),
        Fault::NotAPair { found } => push_not_a_pair(out, doc, at, found),
        Fault::NotParallel => push_not_parallel(out, doc, at),
        _ => Ok(()),
    }
}
