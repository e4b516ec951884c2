// Lines of topologies that are refused.
ghost use Rattle.std.specs.Prelude.{◌≡◌, ◌++◌, codes, OnOk};
ghost use Rattle.topos_model.specs.declared.fault.Fault.TheVariants.{NotStable, NotTransitive};
ghost use Rattle.topos_report.specs.Names.{object_name};
ghost use Rattle.topos_report.specs.Values.{sieve_text};
ghost use Rattle.topos_report.specs.Refusals.{topology_prefix, topology_text, refusal_line};

use crate::bytes::push_bytes;
use crate::names::{push_arrow, push_object};
use crate::refusals::push_refused;
use crate::values::push_sieve;
use topos_model::{Doc, Name, NoMemory};

#[tactic(auto, unfolding(crate::specs::Refusals::topology_prefix))]
fn push_topology_prefix(out: &mut Vec<u8>, name: &Option<Name>) -> Result<(), NoMemory>
    ensures { OnOk result (out.new.items ≡ out.old.items ++ topology_prefix name.now) }
{
    match name {
        Some(name) => {
            push_bytes(out, name.as_slice())?;
            push_bytes(out, b", ")
        }
        None => Ok(()),
    }
}

/// The topology that a fault is of.
#[tactic(auto, unfolding(crate::specs::Refusals::topology_text, crate::specs::Refusals::topology_prefix))]
fn push_topology(out: &mut Vec<u8>, doc: &Doc, under: u32) -> Result<(), NoMemory>
    ensures { OnOk result (out.new.items ≡ out.old.items ++ topology_text doc.now under) }
{
    match doc.tops.as_slice().get(under as usize) {
        Some(declared) => push_topology_prefix(out, &declared.name),
        None => Ok(()),
    }
}

/// A topology, an object, and a sieve that covers it.
fn push_cover(
    out: &mut Vec<u8>,
    doc: &Doc,
    under: u32,
    c: u32,
    cover: &[u32],
) -> Result<(), NoMemory>
    ensures { OnOk result (out.new.items ≡ out.old.items ++ (topology_text doc.now under ++ object_name doc.now c ++ codes ", " ++ sieve_text doc.now cover.now ++ codes ", ")) }
{
    push_topology(out, doc, under)?;
    push_object(out, doc, c)?;
    push_bytes(out, b", ")?;
    push_sieve(out, doc, cover)?;
    push_bytes(out, b", ")
}

#[tactic(auto, unfolding(crate::specs::Refusals::refusal_line))]
pub fn push_not_stable(
    out: &mut Vec<u8>,
    doc: &Doc,
    at: Option<u32>,
    under: u32,
    c: u32,
    cover: &[u32],
    f: u32,
) -> Result<(), NoMemory>
    ensures { OnOk result (out.new.items ≡ out.old.items ++ refusal_line doc.now at (NotStable under c cover.now f)) }
{
    push_refused(out, at, b"40 not stable: ")?;
    push_cover(out, doc, under, c, cover)?;
    push_arrow(out, doc, f)?;
    push_bytes(out, b"\n")
}

#[tactic(auto, unfolding(crate::specs::Refusals::refusal_line))]
pub fn push_not_transitive(
    out: &mut Vec<u8>,
    doc: &Doc,
    at: Option<u32>,
    under: u32,
    c: u32,
    cover: &[u32],
    other: &[u32],
) -> Result<(), NoMemory>
    ensures { OnOk result (out.new.items ≡ out.old.items ++ refusal_line doc.now at (NotTransitive under c cover.now other.now)) }
{
    push_refused(out, at, b"41 not transitive: ")?;
    push_cover(out, doc, under, c, cover)?;
    push_sieve(out, doc, other)?;
    push_bytes(out, b"\n")
}
