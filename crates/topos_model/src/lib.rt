//! The public data of the workbench, and the definitions that every contract of it speaks of.
#![tactic(auto)]

mod answer;
mod bits;
mod boxed;
mod context;
mod copied;
mod derivation;
mod doc;
mod fault;
mod raw;
mod row;
mod stmt;
mod term;
mod ty;
mod value;

pub use answer::{Answer, End, MapShape, Shape, Tuple, WhyNode};
pub use bits::Bits;
pub use boxed::Boxed;
pub use context::{Ctx, Env, MapEnv, MapTable, MapTy};
pub use copied::Copied;
pub use derivation::{Derivation, Step};
pub use doc::{CatDecl, Doc, FunctorName, OnName, TopDecl};
pub use fault::{Fault, Kind};
pub use raw::{Family, RawAlong, RawCat, RawCatFunctor, RawEntry, RawFunctor, RawMap};
pub use row::{Name, Row};
pub use stmt::Stmt;
pub use term::Term;
pub use ty::Ty;
pub use value::{Assign, Entry, Val};

/// No memory was left.
#[derive(Clone, Copy, Debug, PartialEq, Eq)]
pub struct NoMemory;

impl From<std::alloc::AllocError> for NoMemory {
    fn from(_error: std::alloc::AllocError) -> NoMemory {
        NoMemory
    }
}
