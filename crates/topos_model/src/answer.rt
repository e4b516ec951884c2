// What statements answer, and how a run ends.
use crate::{Copied, Ctx, Fault, MapTy, NoMemory, Row, Val};
use std::alloc::Global;

/// A finite functor: how many elements it has at each object, and for each declared arrow the restriction of each element at its codomain.
#[derive(Drop)]
pub struct Shape {
    pub sizes: Row<u32>,
    pub along: Row<Row<u32>>,
}

/// A map: its ends, and at each object the pairs of an element and its image, in the order of the elements.
#[derive(Drop)]
pub struct MapShape {
    pub ends: MapTy,
    pub stages: Row<Row<(Val, Val)>>,
}

/// The values of a context's variables, the outermost first.
#[derive(Drop)]
pub struct Tuple {
    pub vals: Row<Val>,
}

/// A node of a certificate of forcing: the part of the formula that it is about, the arrow, the bound element, the verdict and the nodes below.
#[derive(Drop)]
pub struct WhyNode {
    pub side: Option<u32>,
    pub arrow: u32,
    pub extra: Option<Val>,
    pub yes: bool,
    pub kids: Row<WhyNode>,
}

/// What a statement answers.
#[derive(Drop)]
pub enum Answer {
    /// Nothing is printed.
    Quiet,
    /// A functor that the statement made, and its maps.
    Built {
        functor: Shape,
        maps: Row<MapShape>,
    },
    /// For each object the tuples that are forced.
    Shown {
        ctx: Ctx,
        stages: Row<Row<Tuple>>,
    },
    /// For each object each tuple, and the arrows along which it is forced.
    Classified {
        ctx: Ctx,
        stages: Row<Row<(Tuple, Row<u32>)>>,
    },
    /// For each object the tuples that are not forced.
    Verdict {
        ctx: Ctx,
        unforced: Row<Row<Tuple>>,
    },
    Sheaf,
    /// A matching family on the least cover of `at` with no amalgamation, or with at least the two that were found.
    NotSheaf {
        functor: u32,
        at: u32,
        cover: Row<u32>,
        family: Row<u32>,
        found: Option<(u32, u32)>,
    },
    /// All natural maps.
    Maps(Row<MapShape>),
    /// The certificate of forcing.
    Why {
        root: WhyNode,
    },
    /// How many steps follow.
    Derived(u32),
    /// The least covers of the topology of a local operator.
    Local {
        least: Row<Row<u32>>,
    },
    /// The law that fails, where, and at which sieves.
    NotLocal {
        law: u32,
        at: u32,
        sieves: Row<Row<u32>>,
    },
    /// A functor made along a functor of categories, and its unit or counit.
    Kan {
        functor: Shape,
        map: Option<Row<Row<u32>>>,
    },
}

/// How a run ends. Statements are numbered from 1.
#[derive(Drop)]
pub enum End {
    /// All statements answered. Cells are counted over the whole document.
    Whole { cells: u64 },
    /// The statements up to this number were checked.
    Checked { statements: u32, cells: u64 },
    /// The statement's number, and none where the text or the site is refused.
    Refused { at: Option<u32>, fault: Fault },
    /// The statement at which the cells are more than the budget.
    Budget { at: u32 },
}

impl Copied for Shape {
    fn copy(&self, alloc: Global) -> Result<Shape, NoMemory> {
        let sizes = self.sizes.copy(alloc)?;
        let along = self.along.copy(alloc)?;
        Ok(Shape { sizes, along })
    }
}

impl Copied for MapShape {
    fn copy(&self, alloc: Global) -> Result<MapShape, NoMemory> {
        let ends = self.ends.copy(alloc)?;
        let stages = self.stages.copy(alloc)?;
        Ok(MapShape { ends, stages })
    }
}

impl Copied for Tuple {
    fn copy(&self, alloc: Global) -> Result<Tuple, NoMemory> {
        let vals = self.vals.copy(alloc)?;
        Ok(Tuple { vals })
    }
}

impl Copied for WhyNode {
    fn copy(&self, alloc: Global) -> Result<WhyNode, NoMemory> {
        let mut kids = Row::new(alloc);
        for kid in self.kids.as_slice() {
            let kid = kid.copy(alloc)?;
            kids.push(kid)?;
        }
        let side = self.side.copy(alloc)?;
        let extra = self.extra.copy(alloc)?;
        Ok(WhyNode {
            side,
            arrow: self.arrow,
            extra,
            yes: self.yes,
            kids,
        })
    }
}

impl Copied for Answer {
    fn copy(&self, alloc: Global) -> Result<Answer, NoMemory> {
        match self {
            Answer::Quiet => Ok(Answer::Quiet),
            Answer::Built { functor, maps } => {
                let functor = functor.copy(alloc)?;
                let maps = maps.copy(alloc)?;
                Ok(Answer::Built { functor, maps })
            }
            Answer::Shown { ctx, stages } => {
                let ctx = ctx.copy(alloc)?;
                let stages = stages.copy(alloc)?;
                Ok(Answer::Shown { ctx, stages })
            }
            Answer::Classified { ctx, stages } => {
                let ctx = ctx.copy(alloc)?;
                let stages = stages.copy(alloc)?;
                Ok(Answer::Classified { ctx, stages })
            }
            Answer::Verdict { ctx, unforced } => {
                let ctx = ctx.copy(alloc)?;
                let unforced = unforced.copy(alloc)?;
                Ok(Answer::Verdict { ctx, unforced })
            }
            Answer::Sheaf => Ok(Answer::Sheaf),
            Answer::NotSheaf {
                functor,
                at,
                cover,
                family,
                found,
            } => {
                let cover = cover.copy(alloc)?;
                let family = family.copy(alloc)?;
                let found = found.copy(alloc)?;
                Ok(Answer::NotSheaf {
                    functor: *functor,
                    at: *at,
                    cover,
                    family,
                    found,
                })
            }
            Answer::Maps(row) => {
                let row = row.copy(alloc)?;
                Ok(Answer::Maps(row))
            }
            Answer::Why { root } => {
                let root = root.copy(alloc)?;
                Ok(Answer::Why { root })
            }
            Answer::Derived(number) => Ok(Answer::Derived(*number)),
            Answer::Local { least } => {
                let least = least.copy(alloc)?;
                Ok(Answer::Local { least })
            }
            Answer::NotLocal { law, at, sieves } => {
                let sieves = sieves.copy(alloc)?;
                Ok(Answer::NotLocal {
                    law: *law,
                    at: *at,
                    sieves,
                })
            }
            Answer::Kan { functor, map } => {
                let functor = functor.copy(alloc)?;
                let map = map.copy(alloc)?;
                Ok(Answer::Kan { functor, map })
            }
        }
    }
}

impl Copied for End {
    fn copy(&self, alloc: Global) -> Result<End, NoMemory> {
        match self {
            End::Whole { cells } => Ok(End::Whole { cells: *cells }),
            End::Checked { statements, cells } => Ok(End::Checked {
                statements: *statements,
                cells: *cells,
            }),
            End::Refused { at, fault } => {
                let at = at.copy(alloc)?;
                let fault = fault.copy(alloc)?;
                Ok(End::Refused { at, fault })
            }
            End::Budget { at } => Ok(End::Budget { at: *at }),
        }
    }
}
