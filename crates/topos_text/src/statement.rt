// Syntax trees of the statements behind a site.
use crate::{ArrowTree, Binding, CoversTree, SiteTree, TermTree, TopologyTree, TypeTree, Written};

/// An element, and the one that it is restricted to.
#[derive(Clone, Copy)]
pub struct EntryTree<'a> {
    pub from: Written<'a>,
    pub to: Written<'a>,
}

/// The elements of a presheaf at an object, or its restrictions along an arrow.
#[derive(Drop)]
pub enum SectionTree<'a> {
    At {
        object: Written<'a>,
        elements: Vec<Written<'a>>,
    },
    Along {
        arrow: Written<'a>,
        entries: Vec<EntryTree<'a>>,
    },
}

/// An element by its name, or by its number.
#[derive(Clone, Copy)]
pub enum ElementTree<'a> {
    ByName(Written<'a>),
    ByPlace { number: u32, written: Written<'a> },
}

/// An element, and the one that a map sends it to.
#[derive(Clone, Copy)]
pub struct MappingTree<'a> {
    pub from: ElementTree<'a>,
    pub to: ElementTree<'a>,
}

/// The entries of a map at an object.
#[derive(Drop)]
pub struct MapAtTree<'a> {
    pub object: Written<'a>,
    pub entries: Vec<MappingTree<'a>>,
}

/// Where a functor of categories sends an object or an arrow.
#[derive(Clone, Copy)]
pub enum SentTree<'a> {
    ObjectTo {
        object: Written<'a>,
        to: Written<'a>,
    },
    ArrowTo {
        arrow: Written<'a>,
        to: ArrowTree<'a>,
    },
}

/// A place, and the number that it stands for.
#[derive(Clone, Copy)]
pub struct PlaceTree<'a> {
    pub number: u32,
    pub written: Written<'a>,
}

/// A step of a derivation.
#[derive(Drop)]
pub struct StepTree<'a> {
    pub rule: Written<'a>,
    pub from: Vec<PlaceTree<'a>>,
    pub context: Vec<Binding<'a>>,
    pub hypotheses: Vec<Box<TermTree<'a>>>,
    pub conclusion: Box<TermTree<'a>>,
    pub with_term: Option<Box<TermTree<'a>>>,
}

/// The constructions that declare two maps: the first two are of two functors, the others of two maps.
#[derive(Clone, Copy, Debug, PartialEq, Eq)]
pub enum Construction {
    Product,
    Coproduct,
    Pullback,
    Pushout,
}

/// The constructions that declare one map.
#[derive(Clone, Copy, Debug, PartialEq, Eq)]
pub enum Fork {
    Equalizer,
    Coequalizer,
}

/// What is asked of a formula.
#[derive(Clone, Copy, Debug, PartialEq, Eq)]
pub enum Question {
    Show,
    Classify,
    Valid,
}

/// The two extensions along a functor of categories.
#[derive(Clone, Copy, Debug, PartialEq, Eq)]
pub enum Extension {
    Left,
    Right,
}

/// A statement behind the site. `under` is the topology that is named behind the word `under`, and what a statement declares stands last.
#[derive(Drop)]
pub enum StatementTree<'a> {
    Presheaf {
        name: Written<'a>,
        sections: Vec<SectionTree<'a>>,
    },
    Map {
        name: Written<'a>,
        dom: Written<'a>,
        cod: Written<'a>,
        parts: Vec<MapAtTree<'a>>,
    },
    Construct {
        of: Construction,
        left: Written<'a>,
        right: Written<'a>,
        functor: Written<'a>,
        first: Written<'a>,
        second: Written<'a>,
    },
    Forked {
        of: Fork,
        left: Written<'a>,
        right: Written<'a>,
        functor: Written<'a>,
        map: Written<'a>,
    },
    Image {
        of: Written<'a>,
        functor: Written<'a>,
        onto: Written<'a>,
        inclusion: Written<'a>,
    },
    Empty(Written<'a>),
    Sheafify {
        under: Option<Written<'a>>,
        of: Written<'a>,
        functor: Written<'a>,
        unit: Written<'a>,
    },
    Sheaf {
        under: Option<Written<'a>>,
        functor: Written<'a>,
    },
    Hom {
        dom: Written<'a>,
        cod: Written<'a>,
    },
    Build {
        under: Option<Written<'a>>,
        functor: Written<'a>,
        ty: TypeTree<'a>,
        into: Written<'a>,
        out_of: Written<'a>,
    },
    Sub {
        under: Option<Written<'a>>,
        functor: Written<'a>,
        binding: Binding<'a>,
        formula: Box<TermTree<'a>>,
        inclusion: Written<'a>,
    },
    Let {
        under: Option<Written<'a>>,
        map: Written<'a>,
        binding: Binding<'a>,
        term: Box<TermTree<'a>>,
    },
    Ask {
        question: Question,
        under: Option<Written<'a>>,
        context: Vec<Binding<'a>>,
        formula: Box<TermTree<'a>>,
    },
    /// `tuple` is the number of a tuple at the object.
    Why {
        under: Option<Written<'a>>,
        object: Written<'a>,
        tuple: PlaceTree<'a>,
        context: Vec<Binding<'a>>,
        formula: Box<TermTree<'a>>,
    },
    Derive {
        under: Option<Written<'a>>,
        steps: Vec<StepTree<'a>>,
    },
    Local(Written<'a>),
    LocalAs {
        operator: Written<'a>,
        map: Written<'a>,
    },
    Category {
        name: Written<'a>,
        statements: Vec<SiteTree<'a>>,
    },
    CategoryFunctor {
        name: Written<'a>,
        dom: Written<'a>,
        sent: Vec<SentTree<'a>>,
    },
    Restricted {
        along: Written<'a>,
        of: Written<'a>,
        functor: Written<'a>,
    },
    PresheafOn {
        name: Written<'a>,
        category: Written<'a>,
        sections: Vec<SectionTree<'a>>,
    },
    Extended {
        of: Extension,
        along: Written<'a>,
        presheaf: Written<'a>,
        functor: Written<'a>,
        map: Written<'a>,
    },
}

/// A document as it was written.
#[derive(Drop)]
pub enum DocumentTree<'a> {
    FirstVersion {
        site: Vec<SiteTree<'a>>,
        covers: CoversTree<'a>,
        statements: Vec<StatementTree<'a>>,
    },
    SecondVersion {
        site: Vec<SiteTree<'a>>,
        topologies: Vec<TopologyTree<'a>>,
        statements: Vec<StatementTree<'a>>,
    },
}
