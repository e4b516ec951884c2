// Syntax trees of types and terms.
use crate::Written;

/// A type as it was written. A name stands in it with the number of its token.
#[derive(Drop)]
pub enum TypeTree<'a> {
    Functor(Written<'a>),
    One,
    Omega,
    Power(Box<TypeTree<'a>>),
    Product(Box<TypeTree<'a>>, Box<TypeTree<'a>>),
    Function(Box<TypeTree<'a>>, Box<TypeTree<'a>>),
}

/// A variable and its type.
#[derive(Drop)]
pub struct Binding<'a> {
    pub variable: Written<'a>,
    pub ty: TypeTree<'a>,
}

/// What binds a variable.
#[derive(Clone, Copy, Debug, PartialEq, Eq)]
pub enum Binder {
    Forall,
    Exists,
    Unique,
    Fun,
}

/// A term as it was written.
#[derive(Drop)]
pub enum TermTree<'a> {
    Named(Written<'a>),
    Truth,
    Falsity,
    /// `()`
    Unit,
    /// A term in parentheses.
    Grouped(Box<TermTree<'a>>),
    Paired(Box<TermTree<'a>>, Box<TermTree<'a>>),
    First(Box<TermTree<'a>>),
    Second(Box<TermTree<'a>>),
    Applied(Box<TermTree<'a>>, Box<TermTree<'a>>),
    Subset(Binding<'a>, Box<TermTree<'a>>),
    Equal(Box<TermTree<'a>>, Box<TermTree<'a>>),
    Member(Box<TermTree<'a>>, Box<TermTree<'a>>),
    Not(Box<TermTree<'a>>),
    And(Box<TermTree<'a>>, Box<TermTree<'a>>),
    Or(Box<TermTree<'a>>, Box<TermTree<'a>>),
    Implies(Box<TermTree<'a>>, Box<TermTree<'a>>),
    Bound(Binder, Binding<'a>, Box<TermTree<'a>>),
}
