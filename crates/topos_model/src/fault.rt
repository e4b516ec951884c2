// Why a text, a site or a statement is refused.
use crate::{Copied, Name, NoMemory, Row, Ty};
use std::alloc::Global;

/// What a limit counts: the bytes of a text or of a name, the tokens of a statement with a term, statements, objects, arrows with the identities,
/// the elements of a declared functor at an object, and declared topologies.
#[derive(Clone, Copy, Debug, PartialEq, Eq)]
pub enum Kind {
    Document,
    Name,
    Term,
    Statements,
    Objects,
    Arrows,
    Elements,
    Topologies,
}

/// A refusal and the instance that it carries. Objects, arrows, elements and functors go by their numbers, tokens from 1, bytes from 0.
#[derive(Drop)]
pub enum Fault {
    /// The length of the longest prefix that is UTF-8.
    NotText(u32),
    /// A form of text or statement that this program does not run yet.
    NotBuilt,
    /// The byte at which no token begins.
    BadToken(u32),
    /// The token, from 1, at which no document goes on.
    Syntax(u32),
    /// A limit is passed.
    TooMany {
        kind: Kind,
        limit: u32,
    },
    NameTwice {
        token: u32,
        text: Name,
    },
    NameUnknown {
        token: u32,
        text: Name,
    },
    /// The composite g.f is neither listed nor determined.
    CompositeMissing {
        g: u32,
        f: u32,
    },
    /// The composite g.f is listed before.
    CompositeTwice {
        g: u32,
        f: u32,
    },
    /// The listed h has other ends than g.f, or g and f do not meet.
    CompositeEnds {
        g: u32,
        f: u32,
        h: u32,
    },
    /// h.(g.f) is other than (h.g).f.
    NotAssociative {
        h: u32,
        g: u32,
        f: u32,
    },
    /// The listed sieve pulled back along f does not cover.
    NotStable {
        under: u32,
        at: u32,
        cover: Row<u32>,
        f: u32,
    },
    /// The sieve `other` does not cover, and transitivity wants it to.
    NotTransitive {
        under: u32,
        at: u32,
        cover: Row<u32>,
        other: Row<u32>,
    },
    /// The restriction along f is neither listed nor determined.
    RestrictionMissing {
        f: u32,
    },
    /// The restriction along f lists no entry for x.
    NotTotal {
        f: u32,
        x: u32,
    },
    /// (x.g).f is other than x.(g.f).
    NotFunctorial {
        g: u32,
        f: u32,
        x: u32,
    },
    /// The map lists no entry for x.
    MapNotTotal {
        at: u32,
        x: u32,
    },
    /// The map does not commute with the restriction of x along f.
    NotNatural {
        f: u32,
        x: u32,
    },
    /// An entry names the element number k, and there are at most k.
    NoElement {
        at: u32,
        k: u32,
    },
    /// A statement names the tuple number k, and there are at most k.
    NoTuple {
        at: u32,
        k: u32,
    },
    /// The type that was needed, and the one that was found.
    Expected {
        needed: Ty,
        found: Ty,
    },
    TypeTooLarge {
        nodes: u32,
    },
    NotASheaf {
        functor: u32,
    },
    NotAFunction {
        found: Ty,
    },
    NotAPower {
        found: Ty,
    },
    NotAPair {
        found: Ty,
    },
    WrongTopology(u32),
    NotPlain,
    NotPresheaves,
    /// The ends of the statement's maps do not fit.
    NotParallel,
    BadStep {
        step: u32,
    },
    NotSent {
        is_arrow: bool,
        number: u32,
    },
    FunctorEnds {
        u: u32,
    },
    FunctorLaw {
        v: u32,
        u: u32,
    },
}

impl Copied for Fault {
    fn copy(&self, alloc: Global) -> Result<Fault, NoMemory> {
        match self {
            Fault::NotText(number) => Ok(Fault::NotText(*number)),
            Fault::NotBuilt => Ok(Fault::NotBuilt),
            Fault::BadToken(number) => Ok(Fault::BadToken(*number)),
            Fault::Syntax(number) => Ok(Fault::Syntax(*number)),
            Fault::TooMany { kind, limit } => Ok(Fault::TooMany {
                kind: *kind,
                limit: *limit,
            }),
            Fault::NameTwice { token, text } => {
                let text = text.copy(alloc)?;
                Ok(Fault::NameTwice {
                    token: *token,
                    text,
                })
            }
            Fault::NameUnknown { token, text } => {
                let text = text.copy(alloc)?;
                Ok(Fault::NameUnknown {
                    token: *token,
                    text,
                })
            }
            Fault::CompositeMissing { g, f } => Ok(Fault::CompositeMissing { g: *g, f: *f }),
            Fault::CompositeTwice { g, f } => Ok(Fault::CompositeTwice { g: *g, f: *f }),
            Fault::CompositeEnds { g, f, h } => Ok(Fault::CompositeEnds {
                g: *g,
                f: *f,
                h: *h,
            }),
            Fault::NotAssociative { h, g, f } => Ok(Fault::NotAssociative {
                h: *h,
                g: *g,
                f: *f,
            }),
            Fault::NotStable {
                under,
                at,
                cover,
                f,
            } => {
                let cover = cover.copy(alloc)?;
                Ok(Fault::NotStable {
                    under: *under,
                    at: *at,
                    cover,
                    f: *f,
                })
            }
            Fault::NotTransitive {
                under,
                at,
                cover,
                other,
            } => {
                let cover = cover.copy(alloc)?;
                let other = other.copy(alloc)?;
                Ok(Fault::NotTransitive {
                    under: *under,
                    at: *at,
                    cover,
                    other,
                })
            }
            Fault::RestrictionMissing { f } => Ok(Fault::RestrictionMissing { f: *f }),
            Fault::NotTotal { f, x } => Ok(Fault::NotTotal { f: *f, x: *x }),
            Fault::NotFunctorial { g, f, x } => Ok(Fault::NotFunctorial {
                g: *g,
                f: *f,
                x: *x,
            }),
            Fault::MapNotTotal { at, x } => Ok(Fault::MapNotTotal { at: *at, x: *x }),
            Fault::NotNatural { f, x } => Ok(Fault::NotNatural { f: *f, x: *x }),
            Fault::NoElement { at, k } => Ok(Fault::NoElement { at: *at, k: *k }),
            Fault::NoTuple { at, k } => Ok(Fault::NoTuple { at: *at, k: *k }),
            Fault::Expected { needed, found } => {
                let needed = needed.copy(alloc)?;
                let found = found.copy(alloc)?;
                Ok(Fault::Expected { needed, found })
            }
            Fault::TypeTooLarge { nodes } => Ok(Fault::TypeTooLarge { nodes: *nodes }),
            Fault::NotASheaf { functor } => Ok(Fault::NotASheaf { functor: *functor }),
            Fault::NotAFunction { found } => {
                let found = found.copy(alloc)?;
                Ok(Fault::NotAFunction { found })
            }
            Fault::NotAPower { found } => {
                let found = found.copy(alloc)?;
                Ok(Fault::NotAPower { found })
            }
            Fault::NotAPair { found } => {
                let found = found.copy(alloc)?;
                Ok(Fault::NotAPair { found })
            }
            Fault::WrongTopology(number) => Ok(Fault::WrongTopology(*number)),
            Fault::NotPlain => Ok(Fault::NotPlain),
            Fault::NotPresheaves => Ok(Fault::NotPresheaves),
            Fault::NotParallel => Ok(Fault::NotParallel),
            Fault::BadStep { step } => Ok(Fault::BadStep { step: *step }),
            Fault::NotSent { is_arrow, number } => Ok(Fault::NotSent {
                is_arrow: *is_arrow,
                number: *number,
            }),
            Fault::FunctorEnds { u } => Ok(Fault::FunctorEnds { u: *u }),
            Fault::FunctorLaw { v, u } => Ok(Fault::FunctorLaw { v: *v, u: *u }),
        }
    }
}
