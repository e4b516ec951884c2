// Whether a type speaks of truth values.
ghost use Rattle.std.specs.Prelude.{◌≡◌};
ghost use Rattle.std.specs.List.{list_any};
ghost use Rattle.topos_model.specs.declared.ty.Ty.{Omega};
ghost use Rattle.topos_model.specs.types.SameType.{same_type};
ghost use Rattle.topos_model.specs.statements.Needs.{parts};

use topos_model::Ty;

/// Whether the type of truth values is a part of a type.
#[tactic(auto, using(crate::proofs::OmegaParts::mention_rules))]
pub(crate) fn has_omega(ty: &Ty) -> bool
    ensures { result ≡ list_any (same_type Omega) (parts ty.now) }
{
    match ty {
        Ty::Base(_) => false,
        Ty::One => false,
        Ty::Omega => true,
        Ty::Two(left, right) => has_omega(left.get()) || has_omega(right.get()),
        Ty::Pow(of) => has_omega(of.get()),
        Ty::Fun(from, to) => has_omega(from.get()) || has_omega(to.get()),
    }
}
