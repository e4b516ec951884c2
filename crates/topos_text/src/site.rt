// Syntax trees of a site.
use crate::Written;

/// A declared arrow, or the identity of an object.
#[derive(Clone, Copy)]
pub enum ArrowTree<'a> {
    Declared(Written<'a>),
    Identity(Written<'a>),
}

/// A statement about objects and arrows.
#[derive(Drop)]
pub enum SiteTree<'a> {
    Objects(Vec<Written<'a>>),
    Arrows {
        names: Vec<Written<'a>>,
        dom: Written<'a>,
        cod: Written<'a>,
    },
    /// `arrow` is the first behind the second.
    Composite {
        after: Written<'a>,
        before: Written<'a>,
        arrow: ArrowTree<'a>,
    },
}

/// An object, and the arrows that cover it.
#[derive(Drop)]
pub struct CoverTree<'a> {
    pub object: Written<'a>,
    pub arrows: Vec<ArrowTree<'a>>,
}

/// The covers of a topology: the dense ones, or those that are listed.
#[derive(Drop)]
pub enum CoversTree<'a> {
    Dense,
    Listed(Vec<CoverTree<'a>>),
}

/// A topology and its name.
#[derive(Drop)]
pub struct TopologyTree<'a> {
    pub name: Written<'a>,
    pub covers: CoversTree<'a>,
}
