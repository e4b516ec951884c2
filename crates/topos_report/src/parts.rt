// The parts of a value, and a default where it is of another kind: the number 0, the element of `One`, which the caller lends, and the empty list.
ghost use Rattle.std.specs.Prelude.{◌≡◌};
ghost use Rattle.topos_model.specs.types.Values.{number_of, first_of, second_of, arrows_of, entries_of, assigns_of};

use topos_model::{Assign, Entry, Val};

#[tactic(auto, using(topos_model::proofs::ValueEquations::part_rules))]
pub fn number(v: &Val) -> u32
    ensures { result ≡ number_of v.now }
{
    match v {
        Val::El(number) => *number,
        _ => 0,
    }
}

#[tactic(auto, using(topos_model::proofs::ValueEquations::part_rules))]
pub fn first<'a>(v: &'a Val, star: &'a Val) -> &'a Val
    requires { star.now ≡ Val.Star }
    ensures { result.now ≡ first_of v.now }
{
    match v {
        Val::Two(first, _) => first.get(),
        _ => star,
    }
}

#[tactic(auto, using(topos_model::proofs::ValueEquations::part_rules))]
pub fn second<'a>(v: &'a Val, star: &'a Val) -> &'a Val
    requires { star.now ≡ Val.Star }
    ensures { result.now ≡ second_of v.now }
{
    match v {
        Val::Two(_, second) => second.get(),
        _ => star,
    }
}

#[tactic(auto, using(topos_model::proofs::ValueEquations::part_rules))]
pub fn arrows(v: &Val) -> &[u32]
    ensures { result.now ≡ arrows_of v.now }
{
    match v {
        Val::Sv(arrows) => arrows.as_slice(),
        _ => &[],
    }
}

#[tactic(auto, using(topos_model::proofs::ValueEquations::part_rules))]
pub fn entries(v: &Val) -> &[Entry]
    ensures { result.now ≡ entries_of v.now }
{
    match v {
        Val::Sub(entries) => entries.as_slice(),
        _ => &[],
    }
}

#[tactic(auto, using(topos_model::proofs::ValueEquations::part_rules))]
pub fn assigns(v: &Val) -> &[Assign]
    ensures { result.now ≡ assigns_of v.now }
{
    match v {
        Val::Fn(assigns) => assigns.as_slice(),
        _ => &[],
    }
}
