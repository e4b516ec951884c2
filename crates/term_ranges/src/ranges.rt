// Whether the numbers in types and terms are in range.
ghost use Rattle.std.specs.Prelude.{◌≡◌};
ghost use Rattle.term_ranges.specs.Ranges.{is_type_in_range, is_term_in_range};

use topos_model::{Term, Ty};

/// Whether each functor that a type names is among the first ones, so many.
#[tactic(auto, using(crate::proofs::RangeEquations::type_rules))]
pub fn is_type_in_range(functors: u32, ty: &Ty) -> bool
    ensures value { result ≡ is_type_in_range functors ty.now }
{
    match ty {
        Ty::Base(functor) => *functor < functors,
        Ty::One => true,
        Ty::Omega => true,
        Ty::Two(left, right) => {
            is_type_in_range(functors, left.get()) && is_type_in_range(functors, right.get())
        }
        Ty::Pow(of) => is_type_in_range(functors, of.get()),
        Ty::Fun(from, to) => {
            is_type_in_range(functors, from.get()) && is_type_in_range(functors, to.get())
        }
    }
}

/// Whether each functor that the types in a term name and each map that it applies is among the first ones, so many of each.
#[tactic(auto, using(crate::proofs::RangeEquations::term_rules))]
pub fn is_term_in_range(functors: u32, maps: u32, term: &Term) -> bool
    ensures value { result ≡ is_term_in_range functors maps term.now }
{
    match term {
        Term::Var(_) => true,
        Term::Star => true,
        Term::Pair(left, right) => {
            is_term_in_range(functors, maps, left.get())
                && is_term_in_range(functors, maps, right.get())
        }
        Term::Fst(of) => is_term_in_range(functors, maps, of.get()),
        Term::Snd(of) => is_term_in_range(functors, maps, of.get()),
        Term::App(map, of) => *map < maps && is_term_in_range(functors, maps, of.get()),
        Term::Eval(function, argument) => {
            is_term_in_range(functors, maps, function.get())
                && is_term_in_range(functors, maps, argument.get())
        }
        Term::Lam(ty, body) => {
            is_type_in_range(functors, ty) && is_term_in_range(functors, maps, body.get())
        }
        Term::Compr(ty, body) => {
            is_type_in_range(functors, ty) && is_term_in_range(functors, maps, body.get())
        }
        Term::Eq(left, right) => {
            is_term_in_range(functors, maps, left.get())
                && is_term_in_range(functors, maps, right.get())
        }
        Term::Member(element, set) => {
            is_term_in_range(functors, maps, element.get())
                && is_term_in_range(functors, maps, set.get())
        }
        Term::Truth => true,
        Term::Falsity => true,
        Term::And(left, right) => {
            is_term_in_range(functors, maps, left.get())
                && is_term_in_range(functors, maps, right.get())
        }
        Term::Or(left, right) => {
            is_term_in_range(functors, maps, left.get())
                && is_term_in_range(functors, maps, right.get())
        }
        Term::Implies(left, right) => {
            is_term_in_range(functors, maps, left.get())
                && is_term_in_range(functors, maps, right.get())
        }
        Term::Not(of) => is_term_in_range(functors, maps, of.get()),
        Term::Forall(ty, body) => {
            is_type_in_range(functors, ty) && is_term_in_range(functors, maps, body.get())
        }
        Term::Exists(ty, body) => {
            is_type_in_range(functors, ty) && is_term_in_range(functors, maps, body.get())
        }
        Term::Unique(ty, body) => {
            is_type_in_range(functors, ty) && is_term_in_range(functors, maps, body.get())
        }
    }
}
