// The statements after a document's site.
use crate::{Copied, Ctx, Derivation, NoMemory, RawCatFunctor, RawFunctor, RawMap, Term, Ty};
use std::alloc::Global;

/// A statement. Functors, maps, topologies and second categories go by their numbers; `under` is the topology in force, and 0 where none is named.
/// What a statement declares stands last: `functor`, `map`, `p` and `q`, `u` and `v`.
#[derive(Drop)]
pub enum Stmt {
    Presheaf {
        functor: u32,
        raw: RawFunctor,
    },
    Map {
        map: u32,
        dom: u32,
        cod: u32,
        raw: RawMap,
    },
    Product {
        x: u32,
        y: u32,
        functor: u32,
        p: u32,
        q: u32,
    },
    Coproduct {
        x: u32,
        y: u32,
        functor: u32,
        p: u32,
        q: u32,
    },
    Equalizer {
        m: u32,
        n: u32,
        functor: u32,
        map: u32,
    },
    Coequalizer {
        m: u32,
        n: u32,
        functor: u32,
        map: u32,
    },
    Pullback {
        m: u32,
        n: u32,
        functor: u32,
        p: u32,
        q: u32,
    },
    Pushout {
        m: u32,
        n: u32,
        functor: u32,
        p: u32,
        q: u32,
    },
    Image {
        m: u32,
        functor: u32,
        p: u32,
        q: u32,
    },
    Empty {
        functor: u32,
    },
    Sheafify {
        under: u32,
        x: u32,
        functor: u32,
        map: u32,
    },
    Sheaf {
        under: u32,
        x: u32,
    },
    Hom {
        x: u32,
        y: u32,
    },
    Build {
        under: u32,
        functor: u32,
        ty: Ty,
        u: u32,
        v: u32,
    },
    Sub {
        under: u32,
        functor: u32,
        ty: Ty,
        phi: Term,
        map: u32,
    },
    Let {
        under: u32,
        map: u32,
        ty: Ty,
        term: Term,
    },
    Show {
        under: u32,
        ctx: Ctx,
        phi: Term,
    },
    Classify {
        under: u32,
        ctx: Ctx,
        phi: Term,
    },
    Valid {
        under: u32,
        ctx: Ctx,
        phi: Term,
    },
    Why {
        under: u32,
        at: u32,
        tuple: u32,
        ctx: Ctx,
        phi: Term,
    },
    Derive {
        under: u32,
        d: Derivation,
    },
    Local {
        m: u32,
    },
    LocalAs {
        top: u32,
        map: u32,
    },
    Category {
        cat: u32,
    },
    CatFunctor {
        f: u32,
        cat: u32,
        raw: RawCatFunctor,
    },
    Along {
        f: u32,
        x: u32,
        on: u32,
    },
    PresheafOf {
        cat: u32,
        on: u32,
        raw: RawFunctor,
    },
    Lan {
        f: u32,
        on: u32,
        functor: u32,
        on_map: u32,
    },
    Ran {
        f: u32,
        on: u32,
        functor: u32,
        on_map: u32,
    },
}

impl Copied for Stmt {
    fn copy(&self, alloc: Global) -> Result<Stmt, NoMemory> {
        match self {
            Stmt::Presheaf { functor, raw } => {
                let raw = raw.copy(alloc)?;
                Ok(Stmt::Presheaf {
                    functor: *functor,
                    raw,
                })
            }
            Stmt::Map { map, dom, cod, raw } => {
                let raw = raw.copy(alloc)?;
                Ok(Stmt::Map {
                    map: *map,
                    dom: *dom,
                    cod: *cod,
                    raw,
                })
            }
            Stmt::Product {
                x,
                y,
                functor,
                p,
                q,
            } => Ok(Stmt::Product {
                x: *x,
                y: *y,
                functor: *functor,
                p: *p,
                q: *q,
            }),
            Stmt::Coproduct {
                x,
                y,
                functor,
                p,
                q,
            } => Ok(Stmt::Coproduct {
                x: *x,
                y: *y,
                functor: *functor,
                p: *p,
                q: *q,
            }),
            Stmt::Equalizer { m, n, functor, map } => Ok(Stmt::Equalizer {
                m: *m,
                n: *n,
                functor: *functor,
                map: *map,
            }),
            Stmt::Coequalizer { m, n, functor, map } => Ok(Stmt::Coequalizer {
                m: *m,
                n: *n,
                functor: *functor,
                map: *map,
            }),
            Stmt::Pullback {
                m,
                n,
                functor,
                p,
                q,
            } => Ok(Stmt::Pullback {
                m: *m,
                n: *n,
                functor: *functor,
                p: *p,
                q: *q,
            }),
            Stmt::Pushout {
                m,
                n,
                functor,
                p,
                q,
            } => Ok(Stmt::Pushout {
                m: *m,
                n: *n,
                functor: *functor,
                p: *p,
                q: *q,
            }),
            Stmt::Image { m, functor, p, q } => Ok(Stmt::Image {
                m: *m,
                functor: *functor,
                p: *p,
                q: *q,
            }),
            Stmt::Empty { functor } => Ok(Stmt::Empty { functor: *functor }),
            Stmt::Sheafify {
                under,
                x,
                functor,
                map,
            } => Ok(Stmt::Sheafify {
                under: *under,
                x: *x,
                functor: *functor,
                map: *map,
            }),
            Stmt::Sheaf { under, x } => Ok(Stmt::Sheaf {
                under: *under,
                x: *x,
            }),
            Stmt::Hom { x, y } => Ok(Stmt::Hom { x: *x, y: *y }),
            Stmt::Build {
                under,
                functor,
                ty,
                u,
                v,
            } => {
                let ty = ty.copy(alloc)?;
                Ok(Stmt::Build {
                    under: *under,
                    functor: *functor,
                    ty,
                    u: *u,
                    v: *v,
                })
            }
            Stmt::Sub {
                under,
                functor,
                ty,
                phi,
                map,
            } => {
                let ty = ty.copy(alloc)?;
                let phi = phi.copy(alloc)?;
                Ok(Stmt::Sub {
                    under: *under,
                    functor: *functor,
                    ty,
                    phi,
                    map: *map,
                })
            }
            Stmt::Let {
                under,
                map,
                ty,
                term,
            } => {
                let ty = ty.copy(alloc)?;
                let term = term.copy(alloc)?;
                Ok(Stmt::Let {
                    under: *under,
                    map: *map,
                    ty,
                    term,
                })
            }
            Stmt::Show { under, ctx, phi } => {
                let ctx = ctx.copy(alloc)?;
                let phi = phi.copy(alloc)?;
                Ok(Stmt::Show {
                    under: *under,
                    ctx,
                    phi,
                })
            }
            Stmt::Classify { under, ctx, phi } => {
                let ctx = ctx.copy(alloc)?;
                let phi = phi.copy(alloc)?;
                Ok(Stmt::Classify {
                    under: *under,
                    ctx,
                    phi,
                })
            }
            Stmt::Valid { under, ctx, phi } => {
                let ctx = ctx.copy(alloc)?;
                let phi = phi.copy(alloc)?;
                Ok(Stmt::Valid {
                    under: *under,
                    ctx,
                    phi,
                })
            }
            Stmt::Why {
                under,
                at,
                tuple,
                ctx,
                phi,
            } => {
                let ctx = ctx.copy(alloc)?;
                let phi = phi.copy(alloc)?;
                Ok(Stmt::Why {
                    under: *under,
                    at: *at,
                    tuple: *tuple,
                    ctx,
                    phi,
                })
            }
            Stmt::Derive { under, d } => {
                let d = d.copy(alloc)?;
                Ok(Stmt::Derive { under: *under, d })
            }
            Stmt::Local { m } => Ok(Stmt::Local { m: *m }),
            Stmt::LocalAs { top, map } => Ok(Stmt::LocalAs {
                top: *top,
                map: *map,
            }),
            Stmt::Category { cat } => Ok(Stmt::Category { cat: *cat }),
            Stmt::CatFunctor { f, cat, raw } => {
                let raw = raw.copy(alloc)?;
                Ok(Stmt::CatFunctor {
                    f: *f,
                    cat: *cat,
                    raw,
                })
            }
            Stmt::Along { f, x, on } => Ok(Stmt::Along {
                f: *f,
                x: *x,
                on: *on,
            }),
            Stmt::PresheafOf { cat, on, raw } => {
                let raw = raw.copy(alloc)?;
                Ok(Stmt::PresheafOf {
                    cat: *cat,
                    on: *on,
                    raw,
                })
            }
            Stmt::Lan {
                f,
                on,
                functor,
                on_map,
            } => Ok(Stmt::Lan {
                f: *f,
                on: *on,
                functor: *functor,
                on_map: *on_map,
            }),
            Stmt::Ran {
                f,
                on,
                functor,
                on_map,
            } => Ok(Stmt::Ran {
                f: *f,
                on: *on,
                functor: *functor,
                on_map: *on_map,
            }),
        }
    }
}
