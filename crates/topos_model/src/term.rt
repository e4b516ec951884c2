// Terms of the language.
use crate::{Boxed, Copied, NoMemory, Ty};
use std::alloc::Global;

/// A term. In `Var(k)`, k counts binders from the inside, and then the variables of the context, the last one first.
/// Maps go by their numbers; `Lam`, `Compr` and the quantifiers carry the type of the variable that they bind.
#[derive(Drop)]
pub enum Term {
    Var(u32),
    Star,
    Pair(Boxed<Term>, Boxed<Term>),
    Fst(Boxed<Term>),
    Snd(Boxed<Term>),
    App(u32, Boxed<Term>),
    Eval(Boxed<Term>, Boxed<Term>),
    Lam(Ty, Boxed<Term>),
    Compr(Ty, Boxed<Term>),
    Eq(Boxed<Term>, Boxed<Term>),
    Member(Boxed<Term>, Boxed<Term>),
    Truth,
    Falsity,
    And(Boxed<Term>, Boxed<Term>),
    Or(Boxed<Term>, Boxed<Term>),
    Implies(Boxed<Term>, Boxed<Term>),
    Not(Boxed<Term>),
    Forall(Ty, Boxed<Term>),
    Exists(Ty, Boxed<Term>),
    Unique(Ty, Boxed<Term>),
}

impl Copied for Term {
    fn copy(&self, alloc: Global) -> Result<Term, NoMemory> {
        match self {
            Term::Var(place) => Ok(Term::Var(*place)),
            Term::Star => Ok(Term::Star),
            Term::Pair(left, right) => {
                let left = left.get().copy(alloc)?;
                let right = right.get().copy(alloc)?;
                Ok(Term::Pair(Boxed::new(alloc, left)?, Boxed::new(alloc, right)?))
            }
            Term::Fst(of) => {
                let of = of.get().copy(alloc)?;
                Ok(Term::Fst(Boxed::new(alloc, of)?))
            }
            Term::Snd(of) => {
                let of = of.get().copy(alloc)?;
                Ok(Term::Snd(Boxed::new(alloc, of)?))
            }
            Term::App(map, of) => {
                let of = of.get().copy(alloc)?;
                Ok(Term::App(*map, Boxed::new(alloc, of)?))
            }
            Term::Eval(left, right) => {
                let left = left.get().copy(alloc)?;
                let right = right.get().copy(alloc)?;
                Ok(Term::Eval(Boxed::new(alloc, left)?, Boxed::new(alloc, right)?))
            }
            Term::Lam(ty, body) => {
                let ty = ty.copy(alloc)?;
                let body = body.get().copy(alloc)?;
                Ok(Term::Lam(ty, Boxed::new(alloc, body)?))
            }
            Term::Compr(ty, body) => {
                let ty = ty.copy(alloc)?;
                let body = body.get().copy(alloc)?;
                Ok(Term::Compr(ty, Boxed::new(alloc, body)?))
            }
            Term::Eq(left, right) => {
                let left = left.get().copy(alloc)?;
                let right = right.get().copy(alloc)?;
                Ok(Term::Eq(Boxed::new(alloc, left)?, Boxed::new(alloc, right)?))
            }
            Term::Member(left, right) => {
                let left = left.get().copy(alloc)?;
                let right = right.get().copy(alloc)?;
                Ok(Term::Member(Boxed::new(alloc, left)?, Boxed::new(alloc, right)?))
            }
            Term::Truth => Ok(Term::Truth),
            Term::Falsity => Ok(Term::Falsity),
            Term::And(left, right) => {
                let left = left.get().copy(alloc)?;
                let right = right.get().copy(alloc)?;
                Ok(Term::And(Boxed::new(alloc, left)?, Boxed::new(alloc, right)?))
            }
            Term::Or(left, right) => {
                let left = left.get().copy(alloc)?;
                let right = right.get().copy(alloc)?;
                Ok(Term::Or(Boxed::new(alloc, left)?, Boxed::new(alloc, right)?))
            }
            Term::Implies(left, right) => {
                let left = left.get().copy(alloc)?;
                let right = right.get().copy(alloc)?;
                Ok(Term::Implies(Boxed::new(alloc, left)?, Boxed::new(alloc, right)?))
            }
            Term::Not(of) => {
                let of = of.get().copy(alloc)?;
                Ok(Term::Not(Boxed::new(alloc, of)?))
            }
            Term::Forall(ty, body) => {
                let ty = ty.copy(alloc)?;
                let body = body.get().copy(alloc)?;
                Ok(Term::Forall(ty, Boxed::new(alloc, body)?))
            }
            Term::Exists(ty, body) => {
                let ty = ty.copy(alloc)?;
                let body = body.get().copy(alloc)?;
                Ok(Term::Exists(ty, Boxed::new(alloc, body)?))
            }
            Term::Unique(ty, body) => {
                let ty = ty.copy(alloc)?;
                let body = body.get().copy(alloc)?;
                Ok(Term::Unique(ty, Boxed::new(alloc, body)?))
            }
        }
    }
}
