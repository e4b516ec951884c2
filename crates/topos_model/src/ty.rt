// Types of the language.
ghost use Rattle.std.specs.Prelude.{◌≡◌, ◌^◌, ◌<◌, Decides};
ghost use Rattle.std.specs.Cmp.{partial_equiv_from_equiv};
ghost use Rattle.topos_model.specs.types.Nodes.{nodes};
ghost use Rattle.topos_model.specs.types.SameType.{same_type, type_writes};
ghost use Rattle.topos_model.specs.types.SameTypeLaws.{same_type_equivalence, equal_types_write_alike};

use crate::{Boxed, Copied, NoMemory};
use std::alloc::Global;
use std::hash::{Hash, Hasher};

/// A type of the language.
#[derive(Drop)]
pub enum Ty {
    /// A functor, by its number.
    Base(u32),
    One,
    Omega,
    Two(Boxed<Ty>, Boxed<Ty>),
    Pow(Boxed<Ty>),
    Fun(Boxed<Ty>, Boxed<Ty>),
}

impl Copied for Ty {
    fn copy(&self, alloc: Global) -> Result<Ty, NoMemory> {
        match self {
            Ty::Base(functor) => Ok(Ty::Base(*functor)),
            Ty::One => Ok(Ty::One),
            Ty::Omega => Ok(Ty::Omega),
            Ty::Two(left, right) => {
                let left = left.get().copy(alloc)?;
                let right = right.get().copy(alloc)?;
                Ok(Ty::Two(Boxed::new(alloc, left)?, Boxed::new(alloc, right)?))
            }
            Ty::Pow(of) => {
                let of = of.get().copy(alloc)?;
                Ok(Ty::Pow(Boxed::new(alloc, of)?))
            }
            Ty::Fun(from, to) => {
                let from = from.get().copy(alloc)?;
                let to = to.get().copy(alloc)?;
                Ok(Ty::Fun(Boxed::new(alloc, from)?, Boxed::new(alloc, to)?))
            }
        }
    }
}

impl Ty {
    /// The number of its constructors, each counted as often as it stands there.
    #[tactic(auto, using(crate::proofs::Nodes::nodes_rules))]
    pub fn nodes(&self) -> u64
        requires { nodes self.now < 2 ^ 64 }
        ensures { result ≡ nodes self.now }
    {
        match self {
            Ty::Base(_) => 1,
            Ty::One => 1,
            Ty::Omega => 1,
            Ty::Two(left, right) => 1 + left.get().nodes() + right.get().nodes(),
            Ty::Pow(of) => 1 + of.get().nodes(),
            Ty::Fun(from, to) => 1 + from.get().nodes() + to.get().nodes(),
        }
    }

    /// Whether two types are equal.
    fn is(&self, other: &Ty) -> bool
        ensures equal { Decides result (self.now ≡ other.now) }
    {
        match (self, other) {
            (Ty::Base(functor), Ty::Base(other)) => *functor == *other,
            (Ty::One, Ty::One) => true,
            (Ty::Omega, Ty::Omega) => true,
            (Ty::Two(left, right), Ty::Two(other_left, other_right)) => {
                left.get().is(other_left.get()) && right.get().is(other_right.get())
            }
            (Ty::Pow(of), Ty::Pow(other)) => of.get().is(other.get()),
            (Ty::Fun(from, to), Ty::Fun(other_from, other_to)) => {
                from.get().is(other_from.get()) && to.get().is(other_to.get())
            }
            _ => false,
        }
    }
}

impl PartialEq for Ty {
    ghost eq = { same_type };

    ghost laws = { partial_equiv_from_equiv same_type_equivalence };

    fn eq(&self, other: &Ty) -> bool {
        self.is(other)
    }
}

impl Eq for Ty {
    ghost laws = { same_type_equivalence };
}

impl Hash for Ty {
    ghost hash_input = { type_writes };

    ghost respects_eq = { λ S T h. equal_types_write_alike S T h };

    #[tactic(auto, using(crate::proofs::SameTypes::type_writes_rules))]
    fn hash<H: Hasher>(&self, state: &mut H) {
        match self {
            Ty::Base(functor) => {
                state.write_u8(0);
                state.write_u32(*functor);
            }
            Ty::One => state.write_u8(1),
            Ty::Omega => state.write_u8(2),
            Ty::Two(left, right) => {
                state.write_u8(3);
                left.get().hash(state);
                right.get().hash(state);
            }
            Ty::Pow(of) => {
                state.write_u8(4);
                of.get().hash(state);
            }
            Ty::Fun(from, to) => {
                state.write_u8(5);
                from.get().hash(state);
                to.get().hash(state);
            }
        }
    }
}
