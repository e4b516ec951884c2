ghost use Rattle.type_laws.specs.TypeLaws.{ElementsRise, TypesAreFunctors, TypesAreSheaves};

/// Each type is a functor, and a sheaf where the functors that it names are sheaves; its elements rise in its order.
pub fn type_laws()
    ensures functors { TypesAreFunctors }
    ensures sheaves { TypesAreSheaves }
    ensures order { ElementsRise }
{}
