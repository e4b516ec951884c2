// Types and terms made of their parts.
ghost use Rattle.std.specs.Prelude.{◌≡◌, IfOk};
ghost use Rattle.topos_text.specs.Trees as tree;
ghost use Rattle.topos_text.specs.Views.{type_of, term_of, binding_of, binder_of};

use std::alloc::{AllocError, Global};
use topos_text::{Binder, Binding, TermTree, TypeTree};

pub fn power<'a>(alloc: Global, inner: TypeTree<'a>) -> Result<TypeTree<'a>, AllocError>
    ensures { IfOk result (λ t. type_of t ≡ tree.Power (type_of inner.entry)) }
{
    Ok(TypeTree::Power(Box::new(alloc, inner)?))
}

pub fn product<'a>(
    alloc: Global,
    left: TypeTree<'a>,
    right: TypeTree<'a>,
) -> Result<TypeTree<'a>, AllocError>
    ensures { IfOk result (λ t. type_of t ≡ tree.Product (type_of left.entry) (type_of right.entry)) }
{
    Ok(TypeTree::Product(Box::new(alloc, left)?, Box::new(alloc, right)?))
}

pub fn function<'a>(
    alloc: Global,
    left: TypeTree<'a>,
    right: TypeTree<'a>,
) -> Result<TypeTree<'a>, AllocError>
    ensures { IfOk result (λ t. type_of t ≡ tree.Function (type_of left.entry) (type_of right.entry)) }
{
    Ok(TypeTree::Function(Box::new(alloc, left)?, Box::new(alloc, right)?))
}

pub fn grouped<'a>(alloc: Global, inner: Box<TermTree<'a>>) -> Result<Box<TermTree<'a>>, AllocError>
    ensures { IfOk result (λ t. term_of t.value ≡ tree.Grouped (term_of inner.entry.value)) }
{
    Ok(Box::new(alloc, TermTree::Grouped(inner))?)
}

pub fn first_of<'a>(
    alloc: Global,
    inner: Box<TermTree<'a>>,
) -> Result<Box<TermTree<'a>>, AllocError>
    ensures { IfOk result (λ t. term_of t.value ≡ tree.First (term_of inner.entry.value)) }
{
    Ok(Box::new(alloc, TermTree::First(inner))?)
}

pub fn second_of<'a>(
    alloc: Global,
    inner: Box<TermTree<'a>>,
) -> Result<Box<TermTree<'a>>, AllocError>
    ensures { IfOk result (λ t. term_of t.value ≡ tree.Second (term_of inner.entry.value)) }
{
    Ok(Box::new(alloc, TermTree::Second(inner))?)
}

pub fn not<'a>(alloc: Global, inner: Box<TermTree<'a>>) -> Result<Box<TermTree<'a>>, AllocError>
    ensures { IfOk result (λ t. term_of t.value ≡ tree.Not (term_of inner.entry.value)) }
{
    Ok(Box::new(alloc, TermTree::Not(inner))?)
}

pub fn paired<'a>(
    alloc: Global,
    left: Box<TermTree<'a>>,
    right: Box<TermTree<'a>>,
) -> Result<Box<TermTree<'a>>, AllocError>
    ensures { IfOk result (λ t. term_of t.value ≡ tree.Paired (term_of left.entry.value) (term_of right.entry.value)) }
{
    Ok(Box::new(alloc, TermTree::Paired(left, right))?)
}

pub fn applied<'a>(
    alloc: Global,
    left: Box<TermTree<'a>>,
    right: Box<TermTree<'a>>,
) -> Result<Box<TermTree<'a>>, AllocError>
    ensures { IfOk result (λ t. term_of t.value ≡ tree.Applied (term_of left.entry.value) (term_of right.entry.value)) }
{
    Ok(Box::new(alloc, TermTree::Applied(left, right))?)
}

pub fn equal<'a>(
    alloc: Global,
    left: Box<TermTree<'a>>,
    right: Box<TermTree<'a>>,
) -> Result<Box<TermTree<'a>>, AllocError>
    ensures { IfOk result (λ t. term_of t.value ≡ tree.Equal (term_of left.entry.value) (term_of right.entry.value)) }
{
    Ok(Box::new(alloc, TermTree::Equal(left, right))?)
}

pub fn member<'a>(
    alloc: Global,
    left: Box<TermTree<'a>>,
    right: Box<TermTree<'a>>,
) -> Result<Box<TermTree<'a>>, AllocError>
    ensures { IfOk result (λ t. term_of t.value ≡ tree.Member (term_of left.entry.value) (term_of right.entry.value)) }
{
    Ok(Box::new(alloc, TermTree::Member(left, right))?)
}

pub fn and<'a>(
    alloc: Global,
    left: Box<TermTree<'a>>,
    right: Box<TermTree<'a>>,
) -> Result<Box<TermTree<'a>>, AllocError>
    ensures { IfOk result (λ t. term_of t.value ≡ tree.And (term_of left.entry.value) (term_of right.entry.value)) }
{
    Ok(Box::new(alloc, TermTree::And(left, right))?)
}

pub fn or<'a>(
    alloc: Global,
    left: Box<TermTree<'a>>,
    right: Box<TermTree<'a>>,
) -> Result<Box<TermTree<'a>>, AllocError>
    ensures { IfOk result (λ t. term_of t.value ≡ tree.Or (term_of left.entry.value) (term_of right.entry.value)) }
{
    Ok(Box::new(alloc, TermTree::Or(left, right))?)
}

pub fn implies<'a>(
    alloc: Global,
    left: Box<TermTree<'a>>,
    right: Box<TermTree<'a>>,
) -> Result<Box<TermTree<'a>>, AllocError>
    ensures { IfOk result (λ t. term_of t.value ≡ tree.Implies (term_of left.entry.value) (term_of right.entry.value)) }
{
    Ok(Box::new(alloc, TermTree::Implies(left, right))?)
}

pub fn subset<'a>(
    alloc: Global,
    binding: Binding<'a>,
    inner: Box<TermTree<'a>>,
) -> Result<Box<TermTree<'a>>, AllocError>
    ensures { IfOk result (λ t. term_of t.value ≡ tree.Subset (binding_of binding.entry) (term_of inner.entry.value)) }
{
    Ok(Box::new(alloc, TermTree::Subset(binding, inner))?)
}

pub fn bound<'a>(
    alloc: Global,
    binder: Binder,
    binding: Binding<'a>,
    inner: Box<TermTree<'a>>,
) -> Result<Box<TermTree<'a>>, AllocError>
    ensures { IfOk result (λ t. term_of t.value ≡ tree.Bound (binder_of binder) (binding_of binding.entry) (term_of inner.entry.value)) }
{
    Ok(Box::new(alloc, TermTree::Bound(binder, binding, inner))?)
}
