// Whole runs, over a source and a sink in memory.
ghost use Rattle.std.specs.Prelude.{◌<◌};

mod covers;
mod elements;
mod formulas;
mod texts;

use crate::run::run;
use crate::status::Status;
use std::alloc::Global;
use std::process::Abort;
use std::test::Fail;
use topos_io::memory::{MemSink, MemSource};
use topos_model::{Boxed, Copied, NoMemory, Ty};

pub const WORDS: [&str; 2] = ["topos", "run"];

pub const GRAPH: &str =
    "object V, E; arrow s, t : V -> E; presheaf G { at V : p, q; at E : e, f, l; along s : e -> p, f -> p, l -> q; along t : e -> q, f -> q, l -> p; }; show { x : G, y : G | x = y }; show { x : G, y : G | x = y => false };";

const GRAPH_REPORT: &str =
    "4 show\nV: (p, p) (q, q)\nE: (e, e) (f, f) (l, l)\n5 show\nV: (p, q) (q, p)\nE: (e, l) (f, l) (l, e) (l, f)\ncells 84\n";

/// Documents with what their tables leave out filled, and documents that are refused, with their reports.
const TABLES: [(&str, &str, Status); 10] = [
    (
        "object A, B, C; arrow f : A -> B; arrow g : B -> C; arrow h : A -> C; show { | true };",
        "5 show\nA: ()\nB: ()\nC: ()\ncells 38\n",
        Status::Done,
    ),
    (
        "object A, B, C; arrow f : A -> B; arrow g : B -> C; arrow h : A -> C; presheaf X { at A : a, b; at B : c, d; at C : e, k; along f : c -> b, d -> b; along g : e -> c, k -> d; }; show { x : X, y : X | x = y => false };",
        "6 show\nA: (a, b) (b, a)\nB:\nC:\ncells 83\n",
        Status::Done,
    ),
    (
        "object A, B, C; arrow f : A -> B; arrow g : B -> C; arrow h, k : A -> C; valid | true;",
        "refused 30 composite missing: g, f\n",
        Status::Refused,
    ),
    (
        "object U; arrow r : U -> U; compose r . r = r; compose r . r = r;",
        "refused 31 composite twice: r, r\n",
        Status::Refused,
    ),
    (
        "object A, B; arrow f : A -> B; compose f . f = f;",
        "refused 32 composite ends: f, f, f\n",
        Status::Refused,
    ),
    (
        "object U; arrow a, b : U -> U; compose a . a = b; compose a . b = a; compose b . a = b; compose b . b = b;",
        "refused 33 not associative: a, a, a\n",
        Status::Refused,
    ),
    (
        "object U; arrow r : U -> U; compose r . r = r; presheaf X { at U : a, b; };",
        "4 refused 50 restriction missing: r\n",
        Status::Refused,
    ),
    (
        "object U; arrow r : U -> U; compose r . r = r; presheaf X { at U : a, b; along r : a -> b; };",
        "4 refused 51 not total: r, b\n",
        Status::Refused,
    ),
    (
        "object U; arrow r : U -> U; compose r . r = r; presheaf X { at U : a, b; along r : a -> b, b -> a; };",
        "4 refused 52 not functorial: r, r, a\n",
        Status::Refused,
    ),
    (
        "object U; presheaf X { at U : a; }; presheaf Y { at U : a; }; show { x : X | true }; show { x : X, y : Y | x = y };",
        "4 show\nU: (a)\n5 refused 60 expected: X, found: Y\n",
        Status::Refused,
    ),
];

/// Documents with natural maps, limits, images and colimits, with their reports.
const MAPS: [(&str, &str, Status); 8] = [
    (
        "object V, E; arrow s, t : V -> E; presheaf X { at V : i, j; }; presheaf Y { at V : a, b, c, d; at E : e; along s : e -> a; along t : e -> c; }; map m : X -> Y { at V : i -> a, j -> b; }; map n : X -> Y { at V : i -> b, j -> c; }; coequalizer m n as Q with q;",
        "7 coequalizer Q\nV: #0 #1\nE: #0\nalong s: #0 -> #0\nalong t: #0 -> #0\nmap q\nV: a -> #0, b -> #0, c -> #0, d -> #1\nE: e -> #0\ncells 24\n",
        Status::Done,
    ),
    (
        "object U; presheaf X { at U : a, b; }; presheaf Y { at U : p, q; }; map m : X -> Y { at U : a -> p, b -> p; }; map n : X -> Y { at U : a -> p, b -> q; }; product X Y as P with p1, p2; equalizer m n as Q with i; pullback m n as B with b1, b2; image m as I with e, j; empty as Z; coproduct X Y as C with c1, c2; pushout m n as D with d1, d2;",
        "6 product P\nU: #0 #1 #2 #3\nmap p1\nU: #0 -> a, #1 -> a, #2 -> b, #3 -> b\nmap p2\nU: #0 -> p, #1 -> q, #2 -> p, #3 -> q\n7 equalizer Q\nU: #0\nmap i\nU: #0 -> a\n8 pullback B\nU: #0 #1\nmap b1\nU: #0 -> a, #1 -> b\nmap b2\nU: #0 -> a, #1 -> a\n9 image I\nU: #0\nmap e\nU: a -> #0, b -> #0\nmap j\nU: #0 -> p\n10 empty Z\nU:\n11 coproduct C\nU: #0 #1 #2 #3\nmap c1\nU: a -> #0, b -> #1\nmap c2\nU: p -> #2, q -> #3\n12 pushout D\nU: #0 #1\nmap d1\nU: p -> #0, q -> #1\nmap d2\nU: p -> #0, q -> #0\ncells 36\n",
        Status::Done,
    ),
    (
        "object V, E; arrow s, t : V -> E; presheaf G { at V : p, q; at E : e, f, l; along s : e -> p, f -> p, l -> q; along t : e -> q, f -> q, l -> p; }; presheaf K { at V : a, b; at E : k; along s : k -> a; along t : k -> b; }; hom K G;",
        "5 hom 3\nmap #0\nV: a -> p, b -> q\nE: k -> e\nmap #1\nV: a -> p, b -> q\nE: k -> f\nmap #2\nV: a -> q, b -> p\nE: k -> l\ncells 36\n",
        Status::Done,
    ),
    (
        "object V, E; arrow s, t : V -> E; presheaf K { at V : a, b; at E : k; along s : k -> a; along t : k -> b; }; presheaf G { at V : p, q; at E : e, f, l; along s : e -> p, f -> p, l -> q; along t : e -> q, f -> q, l -> p; }; map m : K -> G { at V : a -> p, b -> p; at E : k -> e; };",
        "5 refused 54 not natural: t, k\n",
        Status::Refused,
    ),
    (
        "object V, E; arrow s, t : V -> E; presheaf K { at V : a, b; at E : k; along s : k -> a; along t : k -> b; }; presheaf G { at V : p, q; at E : e, f, l; along s : e -> p, f -> p, l -> q; along t : e -> q, f -> q, l -> p; }; map m : K -> G { at V : a -> p; at E : k -> e; };",
        "5 refused 53 map not total: V, b\n",
        Status::Refused,
    ),
    (
        "object U; presheaf X { at U : a; }; map m : X -> X { at U : a -> #1; };",
        "3 refused 55 no such element: U, #1\n",
        Status::Refused,
    ),
    (
        "object U; presheaf X { at U : a; }; presheaf Y { at U : b; }; map m : X -> X { at U : a -> a; }; map n : X -> Y { at U : a -> b; }; equalizer m n as E with i;",
        "6 refused 70 ends: m, n\n",
        Status::Refused,
    ),
    (
        "object U; presheaf X { at U : a, b, c, d, e, f, g, h; }; hom X X;",
        "3 budget\n",
        Status::Budget,
    ),
];

/// How the status came out, what the sink holds and what the source has left.
#[derive(Drop)]
pub struct Ran {
    pub status: Status,
    pub held: Vec<u8>,
    left: usize,
}

/// A run over these.
fn run_over(
    alloc: Global,
    words: &[&str],
    src: &mut MemSource,
    out: &mut MemSink,
) -> Result<Ran, Fail> {
    let status = run(alloc, words, src, out);
    Ok(Ran {
        status,
        held: out.held().to_vec(alloc)?,
        left: src.left().len(),
    })
}

/// A run on a text where nothing fails.
pub fn run_on(alloc: Global, words: &[&str], text: &[u8]) -> Result<Ran, Fail> {
    let mut src = MemSource::new(text.to_vec(alloc)?, 4096, Vec::new(alloc));
    let mut out = MemSink::new(alloc, 131_072, 16, Vec::new(alloc))?;
    run_over(alloc, words, &mut src, &mut out)
}

/// A run on the graph into a sink that fails at these calls.
fn graph_into(alloc: Global, capacity: usize, chunk: usize, fail: &[u64]) -> Result<Ran, Fail>
    requires { 0 < chunk }
{
    let text = GRAPH.as_bytes().to_vec(alloc)?;
    let mut src = MemSource::new(text, 4096, Vec::new(alloc));
    let mut out = MemSink::new(alloc, capacity, chunk, fail.to_vec(alloc)?)?;
    run_over(alloc, &WORDS, &mut src, &mut out)
}

/// Checks that a document has this report, that the run has this status, and that the whole text is read.
pub fn has_report(
    rt: &(impl Abort + AllocGlobal),
    text: &str,
    report: &str,
    status: Status,
) -> Result<(), Fail> {
    let ran = run_on(rt.alloc(), &WORDS, text.as_bytes())?;
    assert_eq!(rt; ran.status, status, "{text}");
    assert_eq!(rt; ran.held.as_slice(), report.as_bytes(), "{text}");
    assert_eq!(rt; ran.left, 0, "{text}");
    Ok(())
}

#[test]
fn reports(rt: HostRuntime) -> Result<(), Fail> {
    has_report(&rt, GRAPH, GRAPH_REPORT, Status::Done)?;
    has_report(&rt, "", "cells 0\n", Status::Done)?;
    has_report(
        &rt,
        "object U; arrow r : U -> U; compose r . r = r; presheaf X { at U : a, b; along r : a -> a, b -> a; }; show { x : X | x = x and true }; show { x : X | (false) };",
        "5 show\nU: (a) (b)\n6 show\nU:\ncells 15\n",
        Status::Done,
    )
}

#[test]
fn listed_tables(rt: HostRuntime) -> Result<(), Fail> {
    for (text, report, status) in TABLES {
        has_report(&rt, text, report, status)?;
    }
    Ok(())
}

#[test]
fn maps_and_constructions(rt: HostRuntime) -> Result<(), Fail> {
    for (text, report, status) in MAPS {
        has_report(&rt, text, report, status)?;
    }
    Ok(())
}

#[test]
fn failing_reads(rt: HostRuntime) -> Result<(), Fail> {
    for call in [0, 1, 2] {
        let text = GRAPH.as_bytes().to_vec(rt.alloc())?;
        let mut src = MemSource::new(text, 16, [call].to_vec(rt.alloc())?);
        let mut out = MemSink::new(rt.alloc(), 400, 10, Vec::new(rt.alloc()))?;
        let ran = run_over(rt.alloc(), &WORDS, &mut src, &mut out)?;
        assert_eq!(rt; ran.status, Status::ReadFault, "at {call}");
        assert_eq!(rt; ran.held.as_slice(), b"".as_slice(), "at {call}");
    }
    Ok(())
}

#[test]
fn failing_writes(rt: HostRuntime) -> Result<(), Fail> {
    let ran = graph_into(rt.alloc(), 400, 10, &[1])?;
    assert_eq!(rt; ran.status, Status::WriteFault);
    assert_eq!(rt; ran.held.as_slice(), b"4 show\nV: ".as_slice());
    // The only write takes everything, and the finish fails.
    let ran = graph_into(rt.alloc(), 400, 1000, &[1])?;
    assert_eq!(rt; ran.status, Status::WriteFault);
    assert_eq!(rt; ran.held.as_slice(), GRAPH_REPORT.as_bytes());
    Ok(())
}

#[test]
fn capacities(rt: HostRuntime) -> Result<(), Fail> {
    let report = GRAPH_REPORT.as_bytes();
    let ran = graph_into(rt.alloc(), report.len(), 7, &[])?;
    assert_eq!(rt; ran.status, Status::Done);
    assert_eq!(rt; ran.held.as_slice(), report);
    let ran = graph_into(rt.alloc(), 24, 7, &[])?;
    assert_eq!(rt; ran.status, Status::WriteFault);
    assert_eq!(rt;
        ran.held.as_slice(),
        b"4 show\nV: (p, p) (q, q)\n".as_slice()
    );
    Ok(())
}

/// Checks that words which are not accepted do nothing.
fn is_usage(rt: &(impl Abort + AllocGlobal), words: &[&str]) -> Result<(), Fail> {
    let ran = run_on(rt.alloc(), words, GRAPH.as_bytes())?;
    assert_eq!(rt; ran.status, Status::Usage, "{words:?}");
    assert_eq!(rt; ran.held.as_slice(), b"".as_slice(), "{words:?}");
    assert_eq!(rt; ran.left, GRAPH.len(), "{words:?}");
    Ok(())
}

#[test]
fn other_words(rt: HostRuntime) -> Result<(), Fail> {
    is_usage(&rt, &[])?;
    is_usage(&rt, &["topos"])?;
    is_usage(&rt, &["topos", "--"])?;
    is_usage(&rt, &["topos", "run", "run"])
}

/// The type of the subsets of X * X.
fn relations(alloc: Global) -> Result<Ty, NoMemory> {
    let left = Boxed::new(alloc, Ty::Base(0))?;
    let right = Boxed::new(alloc, Ty::Base(0))?;
    let pairs = Boxed::new(alloc, Ty::Two(left, right))?;
    Ok(Ty::Pow(pairs))
}

#[test]
fn copies(rt: HostRuntime) -> Result<(), Fail> {
    let Ok(ty) = relations(rt.alloc()) else {
        panic!(rt; "no memory");
    };
    let Ok(copy) = ty.copy(rt.alloc()) else {
        panic!(rt; "no memory");
    };
    assert!(rt; copy == ty);
    Ok(())
}
