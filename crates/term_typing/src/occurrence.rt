// Whether a presheaf occurs in types.
ghost use Rattle.std.specs.Prelude.{◌≡◌};
ghost use Rattle.std.specs.List.{flat_map, list_any};
ghost use Rattle.topos_model.specs.statements.Needs.{parts, is_functor};

use topos_model::Ty;

/// Whether the presheaf with this number occurs in one of the types.
pub fn names_functor(types: &[Ty], functor: u32) -> bool
    ensures { result ≡ list_any (is_functor functor) (flat_map parts types.now) }
{
    any_names(types, functor)
}

/// Whether one of the types has the presheaf with this number as a part.
fn any_names(types: &[Ty], functor: u32) -> bool
    ensures { result ≡ list_any (λ T. list_any (is_functor functor) (parts T)) types.now }
{
    types.iter().any(|ty| occurs(ty, functor))
}

/// Whether the presheaf with this number is a part of a type.
#[tactic(auto, using(crate::proofs::Occurrences::occurrence_rules))]
fn occurs(ty: &Ty, functor: u32) -> bool
    ensures { result ≡ list_any (is_functor functor) (parts ty.now) }
{
    match ty {
        Ty::Base(of) => *of == functor,
        Ty::One => false,
        Ty::Omega => false,
        Ty::Two(left, right) => occurs(left.get(), functor) || occurs(right.get(), functor),
        Ty::Pow(of) => occurs(of.get(), functor),
        Ty::Fun(domain, codomain) => {
            occurs(domain.get(), functor) || occurs(codomain.get(), functor)
        }
    }
}
