// Derivations of sequents, as they are listed.
use crate::{Copied, Ctx, Name, NoMemory, Row, Term};
use std::alloc::Global;

/// A step: the name of its rule, the earlier steps that it uses, and its sequent, with the term that some rules want.
#[derive(Drop)]
pub struct Step {
    pub rule: Name,
    pub from: Row<u32>,
    pub ctx: Ctx,
    pub hyps: Row<Term>,
    pub concl: Term,
    pub with_term: Option<Term>,
}

/// A derivation: its steps, numbered from 0.
#[derive(Drop)]
pub struct Derivation {
    pub steps: Row<Step>,
}

impl Copied for Step {
    fn copy(&self, alloc: Global) -> Result<Step, NoMemory> {
        let rule = self.rule.copy(alloc)?;
        let from = self.from.copy(alloc)?;
        let ctx = self.ctx.copy(alloc)?;
        let hyps = self.hyps.copy(alloc)?;
        let concl = self.concl.copy(alloc)?;
        let with_term = self.with_term.copy(alloc)?;
        Ok(Step {
            rule,
            from,
            ctx,
            hyps,
            concl,
            with_term,
        })
    }
}

impl Copied for Derivation {
    fn copy(&self, alloc: Global) -> Result<Derivation, NoMemory> {
        let steps = self.steps.copy(alloc)?;
        Ok(Derivation { steps })
    }
}
