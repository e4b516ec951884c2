// Sites with covers: what is forced under them, which presheaves are sheaves, and families that are no topology.
use crate::status::Status;
use crate::tests::has_report;
use std::test::Fail;

/// Documents with covers, with their reports.
const COVERS: [(&str, &str, Status); 7] = [
    (
        "object V, E; arrow s, t : V -> E; topology dense; valid | forall p : Omega . p or not p;",
        "4 valid\ncells 26\n",
        Status::Done,
    ),
    (
        "object U, A, B, W1, W2; arrow a : A -> U; arrow b : B -> U; arrow p1 : W1 -> A; arrow p2 : W2 -> A; arrow q1 : W1 -> B; arrow q2 : W2 -> B; arrow w1 : W1 -> U; arrow w2 : W2 -> U; cover U by a, b; presheaf X { at A : a0, a1; at B : b0, b1; at W1 : u0, u1; at W2 : v0, v1; along p1 : a0 -> u0, a1 -> u1; along p2 : a0 -> v0, a1 -> v1; along q1 : b0 -> u0, b1 -> u1; along q2 : b0 -> v1, b1 -> v0; }; sheaf X; valid | exists x : X . true; show { x : X | true };",
        "12 sheaf\n13 valid\n14 show\nU:\nA: (a0) (a1)\nB: (b0) (b1)\nW1: (u0) (u1)\nW2: (v0) (v1)\ncells 132\n",
        Status::Done,
    ),
    (
        "object V, E; arrow s, t : V -> E; cover E by none; valid | true;",
        "refused 40 not stable: E, {}, s\n",
        Status::Refused,
    ),
    (
        "object V, E; arrow s, t : V -> E; cover E by none; cover V by none; valid | false; presheaf X { at V : a, b; }; sheaf X; show { x : X | true };",
        "5 valid\n7 not a sheaf\nat V cover {} family {} found a, b\n8 refused 62 not a sheaf: X\n",
        Status::Refused,
    ),
    (
        "object A, B, C; arrow f : A -> B; arrow g : B -> C; arrow h : A -> C; cover C by g; cover B by f; valid | true;",
        "refused 41 not transitive: C, {g, h}, {h}\n",
        Status::Refused,
    ),
    (
        "object V, E; arrow s, t : V -> E; topology dense; presheaf G { at V : p, q; at E : e, f, l; along s : e -> p, f -> p, l -> q; along t : e -> q, f -> q, l -> p; }; sheaf G;",
        "5 not a sheaf\nat E cover {s, t} family {s: p, t: p} found none\ncells 16\n",
        Status::Done,
    ),
    (
        "object V, E; arrow s, t : V -> E; topology dense; presheaf X { at V : a; at E : e; along s : e -> a; along t : e -> a; }; show { u : Pow X | true };",
        "5 show\nV: ({}) ({id V: a})\nE: ({}) ({t: a}) ({s: a}) ({id E: e, s: a, t: a})\ncells 60\n",
        Status::Done,
    ),
];

#[test]
fn covers(rt: HostRuntime) -> Result<(), Fail> {
    for (text, report, status) in COVERS {
        has_report(&rt, text, report, status)?;
    }
    Ok(())
}
