// Texts that are no document, texts whose statements are not run, and long texts.
use crate::status::Status;
use crate::tests::{GRAPH, WORDS, has_report, run_on};
use std::process::Abort;
use std::test::Fail;

/// Texts that are refused as a whole. A fault of tokens stands before one of syntax, and that before one of names; bytes and tokens are counted in the whole text.
const REFUSED: [(&str, &str); 27] = [
    ("object U", "refused 13 syntax: token 3\n"),
    ("object U; )", "refused 13 syntax: token 4\n"),
    ("object U; $", "refused 12 bad token: byte 10\n"),
    ("object U, U;", "refused 20 name twice: token 4 U\n"),
    ("arrow f : A -> B;", "refused 21 name unknown: token 4 A\n"),
    ("object U; #1234567890", "refused 12 bad token: byte 10\n"),
    ("object é; #", "refused 12 bad token: byte 11\n"),
    ("object é, é;", "refused 20 name twice: token 4 é\n"),
    ("object U; -", "refused 12 bad token: byte 10\n"),
    (") $", "refused 12 bad token: byte 2\n"),
    ("object U, U", "refused 13 syntax: token 5\n"),
    (
        "object U; presheaf X { at U : a; }; map m : X -> m { };",
        "refused 21 name unknown: token 19 m\n",
    ),
    (
        "object U, V; cover U by id V;",
        "refused 21 name unknown: token 10 V\n",
    ),
    (
        "object U; presheaf X { at U : a; at U : b; };",
        "refused 20 name twice: token 13 U\n",
    ),
    (
        "object U; arrow r : U -> U; compose r . r = r; presheaf X { at U : a; along r : a -> a, a -> a; };",
        "refused 20 name twice: token 33 a\n",
    ),
    (
        "object U; presheaf X { at U : a, b; }; map m : X -> X { at U : #1 -> a, #01 -> a; };",
        "refused 20 name twice: token 30 #01\n",
    ),
    (
        "object U; presheaf X { at U : a, b; }; map m : X -> X { at U : b -> a, #1 -> a; };",
        "refused 20 name twice: token 30 #1\n",
    ),
    (
        "object U; show { x : One, x : One | true };",
        "refused 20 name twice: token 10 x\n",
    ),
    (
        "object U; valid | x;",
        "refused 21 name unknown: token 6 x\n",
    ),
    (
        "object U; presheaf X { at U : a; }; map m : X -> X { at U : a -> a; }; show { x : X | (m)(x) = x };",
        "refused 21 name unknown: token 37 m\n",
    ),
    ("version #3; object U;", "refused 13 syntax: token 2\n"),
    ("object U; version #2;", "refused 13 syntax: token 4\n"),
    (
        "version #2; object U; valid under J | true;",
        "refused 21 name unknown: token 9 J\n",
    ),
    (
        "object U; valid under J | true;",
        "refused 13 syntax: token 5\n",
    ),
    (
        "version #2; object U; topology a = dense; topology b = dense; topology c = dense; topology d = dense; topology e = dense; topology f = dense; topology g = dense; topology h = dense; topology i = dense; topology j = dense; topology k = dense; topology l = dense; topology m = dense; topology n = dense; topology o = dense; topology p = dense; topology q = dense;",
        "refused 14 too many: topologies 16\n",
    ),
    (
        "object U; category D { object d; }; presheaf P of D { at d : p; }; sheaf P;",
        "refused 21 name unknown: token 25 P\n",
    ),
    (
        "object U; category D { object d; }; functor F : D { at d : U; at d : U; };",
        "refused 20 name twice: token 23 d\n",
    ),
];

/// Documents that are read and end at the first statement, or at the site, that is not run.
const UNBUILT: [(&str, &str); 8] = [
    (
        "version #2; object V, E; arrow s, t : V -> E; topology D = dense; let under D m = p : Omega . not p; valid p : Omega | m(p);",
        "refused 11 not built\n",
    ),
    (
        "version #2; object V, E; arrow s, t : V -> E; topology J { cover E by none; };",
        "refused 11 not built\n",
    ),
    (
        "version #2; object U; topology a = dense; topology b = dense; topology c = dense; topology d = dense; topology e = dense; topology f = dense; topology g = dense; topology h = dense; topology i = dense; topology j = dense; topology k = dense; topology l = dense; topology m = dense; topology n = dense; topology o = dense; topology p = dense;",
        "refused 11 not built\n",
    ),
    (
        "object V, E; arrow s, t : V -> E; presheaf K { at V : a, b; at E : k; along s : k -> a; along t : k -> b; }; why E #0 of { x : K | exists y : K . not x = y };",
        "4 refused 11 not built\n",
    ),
    (
        "object U; presheaf X { at U : a, b; }; derive { hyp : x : X, y : X | x = y -> x = y; refl : x : X, y : X | x = y -> x = x; subst #0, #1 : x : X, y : X | x = y -> y = x with { z : X | z = x }; };",
        "3 refused 11 not built\n",
    ),
    (
        "object V, E; arrow s, t : V -> E; let m = p : Omega . not not p; local m;",
        "4 refused 11 not built\n",
    ),
    (
        "object U; topology dense; let m = p : Omega . p; local m;",
        "4 refused 11 not built\n",
    ),
    (
        "object V, E; arrow s, t : V -> E; category D { object d; }; functor F : D { at d : V; }; presheaf P of D { at d : p, q; }; lan F P as L with e; ran F P as R with k;",
        "3 refused 11 not built\n",
    ),
];

/// The pieces of the graph's text, and for each of their bytes what the text up to it is. A capital letter says that a token begins there.
/// D: a document, with the report beside the piece. N: no document, and a next token is wanted. X: the last token cannot stand there. B: at the byte no token begins.
const PREFIXES: [(&str, &str, &str); 10] = [
    ("object V, E; ", "XxxxxnnNNnNDd", "cells 0\n"),
    (
        "arrow s, t : V -> E; ",
        "XxxxnnNNnNnNnNnBnnNDd",
        "cells 0\n",
    ),
    ("presheaf G { ", "XxxxxxxnnNnNn", ""),
    ("at V : p, q; ", "XnnNnNnNNnNNn", ""),
    ("at E : e, f, l; ", "XnnNnNnNNnNNnNNn", ""),
    (
        "along s : e -> p, f -> p, l -> q; ",
        "XxxxnnNnNnNnBnnNNnNnBnnNNnNnBnnNNn",
        "",
    ),
    (
        "along t : e -> q, f -> q, l -> p; ",
        "XxxxnnNnNnNnBnnNNnNnBnnNNnNnBnnNNn",
        "",
    ),
    ("}; ", "NDd", "cells 16\n"),
    (
        "show { x : G, y : G | x = y }; ",
        "XxxnnNnNnNnNNnNnNnNnNnNnNnNnNDd",
        "4 show\nV: (p, p) (q, q)\nE: (e, e) (f, f) (l, l)\ncells 84\n",
    ),
    (
        "show { x : G, y : G | x = y => false };",
        "XxxnnNnNnNnNNnNnNnNnNnNnNnNnXnnNnnnnnND",
        "4 show\nV: (p, p) (q, q)\nE: (e, e) (f, f) (l, l)\n5 show\nV: (p, q) (q, p)\nE: (e, l) (f, l) (l, e) (l, f)\ncells 84\n",
    ),
];

/// Texts in which a piece is repeated between two others, with their reports.
const LONG: [(&str, &str, usize, &str, &str); 9] = [
    (
        "object U; valid |",
        " not",
        253,
        " true;",
        "2 not valid\nU: ()\ncells 6\n",
    ),
    (
        "object U; valid |",
        " not",
        254,
        " true;",
        "refused 14 too many: term 256\n",
    ),
    (
        "object U; valid | ",
        "(",
        1_000,
        "",
        "refused 14 too many: term 256\n",
    ),
    ("object ", "a", 255, ";", "cells 0\n"),
    ("object ", "a", 256, ";", "refused 14 too many: name 255\n"),
    (
        "object U;",
        "valid | true;",
        10_000,
        "",
        "refused 14 too many: statements 10000\n",
    ),
    ("", "(", 1_048_576, "", "refused 13 syntax: token 1\n"),
    ("object U;", " ", 1_048_567, "", "cells 0\n"),
    (
        "object U;",
        " ",
        1_048_568,
        "",
        "refused 14 too many: document 1048576\n",
    ),
];

/// The status of a run whose report is this.
fn status_of(report: &str) -> Status {
    if report.contains("refused") {
        Status::Refused
    } else if report.contains("not valid") {
        Status::NotValid
    } else {
        Status::Done
    }
}

/// Checks that a text has this report.
fn is_reported(rt: &(impl Abort + AllocGlobal), text: &str, report: &str) -> Result<(), Fail> {
    has_report(rt, text, report, status_of(report))
}

#[test]
fn refused_texts(rt: HostRuntime) -> Result<(), Fail> {
    for (text, report) in REFUSED {
        is_reported(&rt, text, report)?;
    }
    is_reported(&rt, "object U; // no line feed", "cells 0\n")
}

#[test]
fn unbuilt_statements(rt: HostRuntime) -> Result<(), Fail> {
    for (text, report) in UNBUILT {
        is_reported(&rt, text, report)?;
    }
    Ok(())
}

#[test]
fn bytes_that_are_no_text(rt: HostRuntime) -> Result<(), Fail> {
    for (text, report) in [
        (
            b"object \xff;".as_slice(),
            b"refused 10 not text: byte 7\n".as_slice(),
        ),
        (
            b"$\xc3".as_slice(),
            b"refused 10 not text: byte 1\n".as_slice(),
        ),
        (
            b"\xed\xa0\x80".as_slice(),
            b"refused 10 not text: byte 0\n".as_slice(),
        ),
    ] {
        let ran = run_on(rt.alloc(), &WORDS, text)?;
        assert_eq!(rt; ran.status, Status::Refused, "{text:?}");
        assert_eq!(rt; ran.held.as_slice(), report, "{text:?}");
    }
    Ok(())
}

#[test]
fn prefixes(rt: HostRuntime) -> Result<(), Fail> {
    let mut text = String::new(rt.alloc());
    let mut tokens = 0u64;
    for (piece, marks, documents) in PREFIXES {
        assert_eq!(rt; piece.len(), marks.len());
        for (c, mark) in piece.chars().zip(marks.chars()) {
            let byte = text.len();
            text.push(c)?;
            if mark.is_ascii_uppercase() {
                tokens = tokens.saturating_add(1);
            }
            let report = match mark.to_ascii_lowercase() {
                'd' => format!(in rt.alloc(); "{documents}")?,
                'b' => format!(in rt.alloc(); "refused 12 bad token: byte {byte}\n")?,
                'x' => format!(in rt.alloc(); "refused 13 syntax: token {tokens}\n")?,
                _ => format!(in rt.alloc();
                    "refused 13 syntax: token {}\n",
                    tokens.saturating_add(1)
                )?,
            };
            is_reported(&rt, &text, &report)?;
        }
    }
    assert_eq!(rt; text.as_str(), GRAPH);
    Ok(())
}

#[test]
fn long_texts(rt: HostRuntime) -> Result<(), Fail> {
    for (front, piece, count, back, report) in LONG {
        let mut text = String::new(rt.alloc());
        text.push_str(front)?;
        for _ in 0..count {
            text.push_str(piece)?;
        }
        text.push_str(back)?;
        is_reported(&rt, &text, report)?;
    }
    Ok(())
}

#[test]
fn many_objects_and_arrows(rt: HostRuntime) -> Result<(), Fail> {
    for (objects, arrows, report) in [
        (128, 384, "cells 0\n"),
        (128, 385, "refused 14 too many: arrows 512\n"),
        (129, 384, "refused 14 too many: objects 128\n"),
    ] {
        let mut text = String::new(rt.alloc());
        text.push_str("object o0")?;
        for i in 1..objects {
            text.push_str(&format!(in rt.alloc(); ", o{i}")?)?;
        }
        text.push_str("; arrow f0")?;
        for i in 1..arrows {
            text.push_str(&format!(in rt.alloc(); ", f{i}")?)?;
        }
        text.push_str(" : o0 -> o1;")?;
        is_reported(&rt, &text, report)?;
    }
    Ok(())
}
