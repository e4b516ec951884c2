// Functors and maps that a statement makes.
ghost use Rattle.std.specs.Prelude.{◌≡◌, ◌+◌, [], ◌∷◌, None, length, OnOk, IfOk, IfErr};
ghost use Rattle.topos_text.specs.Tokens.{written};
ghost use Rattle.topos_text.specs.Names.{known, new_fault};
ghost use Rattle.topos_text.specs.StatementNames.{made};
ghost use Rattle.topos_names.specs.Stops.{Blames};

use crate::NameStop;
use crate::scope::Scope;
use std::alloc::Global;
use topos_text::Written;

// Declares a functor whose elements have no names, and a map. Gives their numbers.
pub(crate) fn declare_with_map<'a>(
    alloc: Global,
    scope: &mut Scope<'a>,
    z: &Written<'a>,
    p: &Written<'a>,
) -> Result<(u32, u32), NameStop>
    ensures ok { OnOk result (new_fault (known scope.old) (written z.now ∷ written p.now ∷ []) ≡ None) }
    ensures made { OnOk result (scope.new ≡ made scope.old (written z.now) (written p.now ∷ [])) }
    ensures functor { IfOk result (λ r. r.0 ≡ length scope.old.functors) }
    ensures map { IfOk result (λ r. r.1 ≡ length scope.old.maps) }
    ensures fault { IfErr result (λ s. Blames (new_fault (known scope.old) (written z.now ∷ written p.now ∷ [])) s) }
{
    let functor = scope.declare_functor(alloc, z, None)?;
    let map = scope.declare_map(alloc, p)?;
    Ok((functor, map))
}

// Declares a functor whose elements have no names, and two maps. Gives their numbers.
pub(crate) fn declare_with_maps<'a>(
    alloc: Global,
    scope: &mut Scope<'a>,
    z: &Written<'a>,
    p: &Written<'a>,
    q: &Written<'a>,
) -> Result<(u32, u32, u32), NameStop>
    ensures ok { OnOk result (new_fault (known scope.old) (written z.now ∷ written p.now ∷ written q.now ∷ []) ≡ None) }
    ensures made { OnOk result (scope.new ≡ made scope.old (written z.now) (written p.now ∷ written q.now ∷ [])) }
    ensures functor { IfOk result (λ r. r.0 ≡ length scope.old.functors) }
    ensures first { IfOk result (λ r. r.1 ≡ length scope.old.maps) }
    ensures second { IfOk result (λ r. r.2 ≡ length scope.old.maps + 1) }
    ensures fault { IfErr result (λ s. Blames (new_fault (known scope.old) (written z.now ∷ written p.now ∷ written q.now ∷ [])) s) }
{
    let functor = scope.declare_functor(alloc, z, None)?;
    let first = scope.declare_map(alloc, p)?;
    let second = scope.declare_map(alloc, q)?;
    Ok((functor, first, second))
}
