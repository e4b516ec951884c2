// Elements of types as presheaves: all of them, and those that satisfy a formula.
use crate::status::Status;
use crate::tests::has_report;
use std::test::Fail;

/// Documents that declare elements, with their reports.
const ELEMENTS: [(&str, &str, Status); 11] = [
    (
        "object V, E; arrow s, t : V -> E; build P of Omega with u, v; show { x : P | u(x) = true }; valid p : Omega | u(v(p)) = p; valid x : P | v(u(x)) = x;",
        "3 build P\nV: #0 #1\nE: #0 #1 #2 #3 #4\nalong s: #0 -> #0, #1 -> #0, #2 -> #1, #3 -> #1, #4 -> #1\nalong t: #0 -> #0, #1 -> #1, #2 -> #0, #3 -> #1, #4 -> #1\nmap u\nV: #0 -> {}, #1 -> {id V}\nE: #0 -> {}, #1 -> {t}, #2 -> {s}, #3 -> {s, t}, #4 -> {id E, s, t}\nmap v\nV: {} -> #0, {id V} -> #1\nE: {} -> #0, {t} -> #1, {s} -> #2, {s, t} -> #3, {id E, s, t} -> #4\n4 show\nV: (#1)\nE: (#4)\n5 valid\n6 valid\ncells 48\n",
        Status::Done,
    ),
    (
        "object U; presheaf X { at U : a, b, c; }; presheaf Y { at U : p, q; }; map m : X -> Y { at U : a -> p, b -> p, c -> q; }; sub S of { x : X | exists y : X . not y = x and m(y) = m(x) } with i; valid s : S | exists x : X . i(s) = x; sub N of { x : X | not x = x } with j; pullback i i as K with k, l;",
        "5 sub S\nU: #0 #1\nmap i\nU: #0 -> a, #1 -> b\n6 valid\n7 sub N\nU:\nmap j\nU:\n8 pullback K\nU: #0 #1\nmap k\nU: #0 -> #0, #1 -> #1\nmap l\nU: #0 -> #0, #1 -> #1\ncells 52\n",
        Status::Done,
    ),
    (
        "object U; presheaf X { at U : a, b; }; build P of X -> X with u, v; sub S of { x : P | forall y : X . u(x)(u(x)(y)) = y } with i; product S X as Q with p, q;",
        "3 build P\nU: #0 #1 #2 #3\nmap u\nU: #0 -> {id U: a -> a, id U: b -> a}, #1 -> {id U: a -> a, id U: b -> b}, #2 -> {id U: a -> b, id U: b -> a}, #3 -> {id U: a -> b, id U: b -> b}\nmap v\nU: {id U: a -> a, id U: b -> a} -> #0, {id U: a -> a, id U: b -> b} -> #1, {id U: a -> b, id U: b -> a} -> #2, {id U: a -> b, id U: b -> b} -> #3\n4 sub S\nU: #0 #1\nmap i\nU: #0 -> #1, #1 -> #2\n5 product Q\nU: #0 #1 #2 #3\nmap p\nU: #0 -> #0, #1 -> #0, #2 -> #1, #3 -> #1\nmap q\nU: #0 -> a, #1 -> b, #2 -> a, #3 -> b\ncells 60\n",
        Status::Done,
    ),
    (
        "object V, E; arrow s, t : V -> E; presheaf K { at V : a, b; at E : k; along s : k -> a; along t : k -> b; }; sub S of { p : K * K | fst(p) = snd(p) } with i; let d = x : K . (x, x); sub T of { q : S | exists x : K . i(q) = d(x) } with j;",
        "4 sub S\nV: #0 #1\nE: #0\nalong s: #0 -> #0\nalong t: #0 -> #1\nmap i\nV: #0 -> (a, a), #1 -> (b, b)\nE: #0 -> (k, k)\n6 sub T\nV: #0 #1\nE: #0\nalong s: #0 -> #0\nalong t: #0 -> #1\nmap j\nV: #0 -> #0, #1 -> #1\nE: #0 -> #0\ncells 72\n",
        Status::Done,
    ),
    (
        "object U; presheaf X { at U : a, b; }; build P of One with u, v; build Q of X with m, n; equalizer u v as E with i;",
        "3 build P\nU: #0\nmap u\nU: #0 -> ()\nmap v\nU: () -> #0\n4 build Q\nU: #0 #1\nmap m\nU: #0 -> a, #1 -> b\nmap n\nU: a -> #0, b -> #1\n5 refused 70 ends: u, v\n",
        Status::Refused,
    ),
    (
        "object U; presheaf X { at U : a, b, c, d, e; }; build P of Pow Pow X with u, v;",
        "3 budget\n",
        Status::Budget,
    ),
    (
        "object U; presheaf X { at U : a; }; sub S of { x : X | x } with i;",
        "3 refused 60 expected: Omega, found: X\n",
        Status::Refused,
    ),
    (
        "object U; presheaf X { at U : a; }; sub S of { x : X | x(x) = x } with i;",
        "3 refused 63 not a function: X\n",
        Status::Refused,
    ),
    (
        "object V, E; arrow s, t : V -> E; topology dense; build P of Omega with u, v; sheaf P; sub S of { p : P | u(p) } with i;",
        "4 build P\nV: #0 #1\nE: #0 #1 #2 #3\nalong s: #0 -> #0, #1 -> #0, #2 -> #1, #3 -> #1\nalong t: #0 -> #0, #1 -> #1, #2 -> #0, #3 -> #1\nmap u\nV: #0 -> {}, #1 -> {id V}\nE: #0 -> {}, #1 -> {t}, #2 -> {s}, #3 -> {id E, s, t}\nmap v\nV: {} -> #0, {id V} -> #1\nE: {} -> #0, {t} -> #1, {s} -> #2, {id E, s, t} -> #3\n5 sheaf\n6 sub S\nV: #0\nE: #0\nalong s: #0 -> #0\nalong t: #0 -> #0\nmap i\nV: #0 -> #1\nE: #0 -> #3\ncells 46\n",
        Status::Done,
    ),
    (
        "object V, E; arrow s, t : V -> E; topology dense; presheaf G { at V : p; at E : e, l; along s : e -> p, l -> p; along t : e -> p, l -> p; }; build P of Pow G with u, v;",
        "5 refused 62 not a sheaf: G\n",
        Status::Refused,
    ),
    (
        "object V, E; arrow s, t : V -> E; topology dense; presheaf G { at V : p; at E : e, l; along s : e -> p, l -> p; along t : e -> p, l -> p; }; sub S of { x : G | x = x } with i;",
        "5 refused 62 not a sheaf: G\n",
        Status::Refused,
    ),
];

#[test]
fn elements(rt: HostRuntime) -> Result<(), Fail> {
    for (text, report, status) in ELEMENTS {
        has_report(&rt, text, report, status)?;
    }
    Ok(())
}
