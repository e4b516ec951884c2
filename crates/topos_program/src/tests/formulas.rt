// Statements about a formula: the tuples for which it is forced, those for which it is not, and the arrows along which it is.
use crate::status::Status;
use crate::tests::has_report;
use std::test::Fail;

/// Documents whose statements are about formulas, with their reports.
const FORMULAS: [(&str, &str, Status); 22] = [
    ("valid | false;", "1 valid\ncells 0\n", Status::Done),
    (
        "object V, E; arrow s, t : V -> E; let neg = p : Omega . not p; valid p : Omega | neg(neg(neg(p))) = neg(p); show { p : Omega | p = neg(neg(p)) }; valid p : Omega | neg(neg(p)) = p;",
        "4 valid\n5 show\nV: ({}) ({id V})\nE: ({}) ({t}) ({s}) ({id E, s, t})\n6 not valid\nE: ({s, t})\ncells 24\n",
        Status::NotValid,
    ),
    (
        "object U; presheaf X { at U : a; }; let m1 = x : X . (x, x); let m2 = x : X . (m1(x), m1(x));",
        "cells 6\n",
        Status::Done,
    ),
    (
        "object U; presheaf X { at U : a; }; map m : X -> X { at U : a -> a; }; let d = x : X . (x, x); equalizer m d as E with i;",
        "5 refused 70 ends: m, d\n",
        Status::Refused,
    ),
    (
        "object V, E; arrow s, t : V -> E; presheaf K { at V : a, b; at E : k, l; along s : k -> a, l -> b; along t : k -> b, l -> a; }; map m : K -> K { at V : a -> b, b -> a; at E : k -> l, l -> k; }; show { x : K | m(x) = x }; valid x : K | m(m(x)) = x; valid x : K | not m(x) = x;",
        "5 show\nV:\nE:\n6 valid\n7 valid\ncells 36\n",
        Status::Done,
    ),
    (
        "object U; presheaf X { at U : a, b; }; presheaf Y { at U : c; }; map m : X -> Y { at U : a -> c, b -> c; }; valid x : X, y : X | m(x) = m(y); show { x : X, y : Y | m(x) = y and exists z : X . not z = x and m(z) = y }; valid x : X | m(m(x)) = m(x);",
        "5 valid\n6 show\nU: (a, c) (b, c)\n7 refused 60 expected: X, found: Y\n",
        Status::Refused,
    ),
    (
        "object U; presheaf X { at U : a; }; map m : X -> X { at U : a -> a; }; valid | true; valid x : X | m(x) = x;",
        "4 valid\n5 valid\ncells 8\n",
        Status::Done,
    ),
    (
        "object A, B, C; arrow f : A -> B; arrow g : B -> C; arrow h : A -> C; valid | true;",
        "5 valid\ncells 38\n",
        Status::Done,
    ),
    (
        "object V, E; arrow s, t : V -> E; show { p : Omega | true };",
        "3 show\nV: ({}) ({id V})\nE: ({}) ({t}) ({s}) ({s, t}) ({id E, s, t})\ncells 24\n",
        Status::Done,
    ),
    (
        "object V, E; arrow s, t : V -> E; valid | forall p : Omega . p or not p;",
        "3 not valid\nE: ()\ncells 30\n",
        Status::NotValid,
    ),
    (
        "object V, E; arrow s, t : V -> E; presheaf G { at V : v0; at E : e0; along s : e0 -> v0; along t : e0 -> v0; }; show { x : G, y : G | x = y }; valid x : G, y : G | x = y or not x = y; valid x : G | exists y : G . not x = y;",
        "4 show\nV: (v0, v0)\nE: (e0, e0)\n5 valid\n6 not valid\nV: (v0)\nE: (e0)\ncells 36\n",
        Status::NotValid,
    ),
    (
        "object U; presheaf X { at U : a, b, c, d, e; }; show { x : X | true }; show { u : Pow Pow X | true };",
        "3 show\nU: (a) (b) (c) (d) (e)\n4 budget\n",
        Status::Budget,
    ),
    (
        "object U; presheaf X { at U : a, b; }; show { u : Pow X | exists x : X . u = { y : X | y = x } };",
        "3 show\nU: ({id U: b}) ({id U: a})\ncells 72\n",
        Status::Done,
    ),
    (
        "object U; presheaf X { at U : a, b; }; valid f : X -> X | (forall y : X . exists x : X . f(x) = y) => forall x : X . forall y : X . f(x) = f(y) => x = y;",
        "3 valid\ncells 72\n",
        Status::Done,
    ),
    (
        "object V, E; arrow s, t : V -> E; presheaf K { at V : a, b; at E : k; along s : k -> a; along t : k -> b; }; show { f : K -> K | f = (fun x : K . x) };",
        "4 show\nV: ({id V: a -> a, id V: b -> b})\nE: ({id E: k -> k, s: a -> a, s: b -> b, t: a -> a, t: b -> b})\ncells 116\n",
        Status::Done,
    ),
    (
        "object V, E; arrow s, t : V -> E; presheaf K { at V : a, b; at E : k; along s : k -> a; along t : k -> b; }; valid x : K | unique y : K . x = y;",
        "4 valid\ncells 44\n",
        Status::Done,
    ),
    (
        "object V, E; arrow s, t : V -> E; presheaf K { at V : a, b; at E : k; along s : k -> a; along t : k -> b; }; classify { x : K | exists y : K . not x = y };",
        "4 classify\nV (a): {id V}\nV (b): {id V}\nE (k): {s, t}\ncells 44\n",
        Status::Done,
    ),
    (
        "object U; presheaf X { at U : a; }; show { x : X | x };",
        "3 refused 60 expected: Omega, found: X\n",
        Status::Refused,
    ),
    (
        "object U; presheaf X { at U : a; }; show { x : X | (x, x) = x };",
        "3 refused 60 expected: (X * X), found: X\n",
        Status::Refused,
    ),
    (
        "object U; presheaf X { at U : a; }; show { x : X | x(x) = x };",
        "3 refused 63 not a function: X\n",
        Status::Refused,
    ),
    (
        "object U; presheaf X { at U : a; }; show { x : X | x in x };",
        "3 refused 64 not a power: X\n",
        Status::Refused,
    ),
    (
        "object U; presheaf X { at U : a; }; show { x : X | fst(x) = x };",
        "3 refused 65 not a pair: X\n",
        Status::Refused,
    ),
];

#[test]
fn formulas(rt: HostRuntime) -> Result<(), Fail> {
    for (text, report, status) in FORMULAS {
        has_report(&rt, text, report, status)?;
    }
    Ok(())
}

#[test]
fn many_statements(rt: HostRuntime) -> Result<(), Fail> {
    let mut text = String::new(rt.alloc());
    let mut report = String::new(rt.alloc());
    text.push_str("object U;")?;
    for k in 2..=10_000 {
        text.push_str("valid | true;")?;
        report.push_str(&format!(in rt.alloc(); "{k} valid\n")?)?;
    }
    report.push_str("cells 6\n")?;
    has_report(&rt, &text, &report, Status::Done)
}
