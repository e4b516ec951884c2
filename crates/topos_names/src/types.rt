// Types by numbers.
ghost use Rattle.std.specs.Prelude.{◌≡◌, Ok, IfOk, IfErr};
ghost use Rattle.topos_text.specs.TermNames.{type_of};
ghost use Rattle.topos_text.specs.Views as view;
ghost use Rattle.topos_names.specs.Stops.{Stops};

use crate::NameStop;
use crate::scope::Scope;
use std::alloc::Global;
use topos_model::{Boxed, Ty};
use topos_text::TypeTree;

// The type of a tree.
#[tactic(auto, unfolding(topos_text::specs::TermNames::type_of))]
pub(crate) fn type_of(alloc: Global, scope: &Scope<'_>, tree: &TypeTree<'_>) -> Result<Ty, NameStop>
    ensures ok { IfOk result (λ ty. type_of scope.now (view.type_of tree.now) ≡ Ok ty) }
    ensures fault { IfErr result (λ s. Stops (type_of scope.now (view.type_of tree.now)) s) }
{
    match tree {
        TypeTree::Functor(x) => Ok(Ty::Base(scope.functor(alloc, x)?)),
        TypeTree::One => Ok(Ty::One),
        TypeTree::Omega => Ok(Ty::Omega),
        TypeTree::Power(of) => {
            let of = type_of(alloc, scope, of)?;
            Ok(Ty::Pow(Boxed::new(alloc, of)?))
        }
        TypeTree::Product(left, right) => {
            let left = type_of(alloc, scope, left)?;
            let right = type_of(alloc, scope, right)?;
            Ok(Ty::Two(Boxed::new(alloc, left)?, Boxed::new(alloc, right)?))
        }
        TypeTree::Function(dom, cod) => {
            let dom = type_of(alloc, scope, dom)?;
            let cod = type_of(alloc, scope, cod)?;
            Ok(Ty::Fun(Boxed::new(alloc, dom)?, Boxed::new(alloc, cod)?))
        }
    }
}
