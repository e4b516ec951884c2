// Contexts by numbers.
ghost use Rattle.std.specs.Prelude.{◌≡◌, [], ◌∷◌, map, Ok, IfOk, IfErr};
ghost use Rattle.topos_text.specs.TermNames as names;
ghost use Rattle.topos_text.specs.Views.{binding_of};
ghost use Rattle.topos_names.specs.Stops.{Stops};

use crate::NameStop;
use crate::scope::Scope;
use crate::types::type_of;
use crate::variables::Variables;
use std::alloc::Global;
use topos_model::{NoMemory, Row, Ty};
use topos_text::Binding;

// The types of a context, and its variables, none of which stands twice.
pub(crate) fn context_of<'a>(
    alloc: Global,
    scope: &Scope<'a>,
    bindings: &[Binding<'a>],
) -> Result<(Row<Ty>, Variables<'a>), NameStop>
    ensures ok { IfOk result (λ r. names.context_of scope.now [] (map binding_of bindings.now) ≡ Ok r.0) }
    ensures variables { IfOk result (λ r. r.1 ≡ names.variables (map binding_of bindings.now)) }
    ensures fault { IfErr result (λ s. Stops (names.context_of scope.now [] (map binding_of bindings.now)) s) }
{
    let mut types = Row::new(alloc);
    let mut variables = Variables::new(alloc);
    for binding in bindings {
        variables.is_new(alloc, &binding.variable)?;
        types.push(type_of(alloc, scope, &binding.ty)?)?;
        variables.push(binding.variable.text)?;
    }
    Ok((types, variables))
}

// The one variable of a term.
pub(crate) fn one_variable<'a>(
    alloc: Global,
    binding: &Binding<'a>,
) -> Result<Variables<'a>, NoMemory>
    ensures { IfOk result (λ r. r ≡ names.variables (binding_of binding.now ∷ [])) }
{
    let mut variables = Variables::new(alloc);
    variables.push(binding.variable.text)?;
    Ok(variables)
}
