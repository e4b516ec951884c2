// The numbers that may still stand at each place: what the numbers set so far leave, and the changes, so that they can be taken back.
ghost use Rattle.std.specs.Prelude.{◌≡◌, ◌<◌, ◌≤◌, ◌%◌, ℕ, List, true, [], map, length, get_or, take, IfOk};
ghost use Rattle.natural_search.specs.Squares.{AreSquares};
ghost use Rattle.natural_search.specs.Domains.{allows, AllFit, AreLinks, ArePreimages, IsWhole, Narrows, at_level};

use crate::links::Links;
use crate::preimages::Preimages;
use crate::residues::{below, image, one, sole};
use crate::squares::{Square, row};
use std::alloc::Global;
use topos_model::{NoMemory, Row};

// The place of a set that changed, and the set before.
#[derive(Clone, Copy, Drop)]
pub(crate) struct Change {
    pub(crate) place: usize,
    pub(crate) before: u64,
}

// A set of residues for each place, and its changes so far.
#[derive(Drop)]
pub(crate) struct Domains {
    pub(crate) masks: Vec<u64>,
    pub(crate) trail: Vec<Change>,
}

// For each place the numbers below its bound.
fn full_masks(alloc: Global, bounds: &[u32]) -> Result<Vec<u64>, NoMemory>
    ensures places { IfOk result (λ masks. length masks.items ≡ length bounds.now) }
    ensures all { IfOk result (λ masks. (p v : ℕ) → p < length bounds.now → v < get_or bounds.now p 0 → allows (get_or masks.items p 0) v ≡ true) }
{
    let mut masks = Vec::new(alloc);
    for bound in bounds {
        if masks.push(below(*bound)).is_err() {
            return Err(NoMemory);
        }
    }
    Ok(masks)
}

impl Domains {
    // All numbers below the bounds.
    pub(crate) fn new(alloc: Global, bounds: &[u32]) -> Result<Domains, NoMemory>
        ensures trail { IfOk result (λ domains. domains.trail.items ≡ []) }
        ensures places { IfOk result (λ domains. length domains.masks.items ≡ length bounds.now) }
        ensures all { IfOk result (λ domains. (p v : ℕ) → p < length bounds.now → v < get_or bounds.now p 0 → allows (get_or domains.masks.items p 0) v ≡ true) }
    {
        let masks = full_masks(alloc, bounds)?;
        let trail = Vec::new(alloc);
        Ok(Domains { masks, trail })
    }

    // How many changes there are.
    pub(crate) fn level(&self) -> usize
        ensures { result ≡ length self.now.trail.items }
    {
        self.trail.len()
    }

    // Leaves at a place only the residues of a set, or answers false where none is left.
    fn narrow(&mut self, place: usize, mask: u64) -> Result<bool, NoMemory>
        requires whole { IsWhole self.old }
        requires place { place < length self.old.masks.items }
        ensures { IfOk result (Narrows (λ values. allows mask (get_or values place 0) ≡ true) self.old self.new) }
    {
        let before = self.masks[place];
        let after = before & mask;
        if after == before {
            return Ok(true);
        }
        if after == 0 {
            return Ok(false);
        }
        if self.trail.push(Change { place, before }).is_err() {
            return Err(NoMemory);
        }
        self.masks[place] = after;
        Ok(true)
    }

    // Takes back all changes but the first so many.
    pub(crate) fn rewind(&mut self, level: usize)
        requires whole { IsWhole self.old }
        requires level { level ≤ length self.old.trail.items }
        ensures trail { self.new.trail.items ≡ take level self.old.trail.items }
        ensures masks { self.new.masks.items ≡ at_level self.old level }
        ensures whole { IsWhole self.new }
    {
        'changes: while level < self.trail.len() {
            if let Some(change) = self.trail.pop() {
                self.masks[change.place] = change.before;
            }
        }
    }

    // Narrows the places of the restrictions of the element at a place.
    fn narrow_below(
        &mut self,
        along: &[Row<u32>],
        squares: &[Square],
        links: &Links,
        place: usize,
    ) -> Result<bool, NoMemory>
        requires whole { IsWhole self.old }
        requires place { place < length self.old.masks.items }
        requires squares { AreSquares along.now (length self.old.masks.items) squares.now }
        requires links { AreLinks (length self.old.masks.items) squares.now links.now }
        ensures { IfOk result (Narrows (AllFit along.now squares.now) self.old self.new) }
    {
        let mut next = links.below.heads[place];
        'chain: while 0 < next {
            let index = next - 1;
            let square = squares[index];
            if sole(self.masks[square.restricted]).is_none() {
                let allowed = image(row(along, square.arrow), self.masks[place]);
                if !self.narrow(square.restricted, allowed)? {
                    return Ok(false);
                }
            }
            next = *links.below.links.get(index);
        }
        Ok(true)
    }

    // Narrows the places of the elements whose restriction is at a place that has one residue left, and those of their restrictions; where an element has one left, its turn comes later.
    fn narrow_above(
        &mut self,
        along: &[Row<u32>],
        preimages: &Preimages,
        squares: &[Square],
        links: &Links,
        place: usize,
        residue: usize,
    ) -> Result<bool, NoMemory>
        requires whole { IsWhole self.old }
        requires place { place < length self.old.masks.items }
        requires squares { AreSquares along.now (length self.old.masks.items) squares.now }
        requires links { AreLinks (length self.old.masks.items) squares.now links.now }
        requires preimages { ArePreimages along.now preimages.now.masks.items }
        requires residue { residue < 64 }
        ensures { IfOk result (Narrows (λ values. AllFit along.now squares.now values × (get_or values place 0 % 64 ≡ residue)) self.old self.new) }
    {
        let mut next = links.above.heads[place];
        'chain: while 0 < next {
            let index = next - 1;
            let square = squares[index];
            let allowed = preimages.at(along, square.arrow, residue);
            if !self.narrow(square.element, allowed)? {
                return Ok(false);
            }
            if sole(self.masks[square.element]).is_none() {
                if !self.narrow_below(along, squares, links, square.element)? {
                    return Ok(false);
                }
            }
            next = *links.above.links.get(index);
        }
        Ok(true)
    }

    // Narrows on from each place, among those that changed from an index on, that has one residue left; or answers false where some place has none.
    fn propagate(
        &mut self,
        along: &[Row<u32>],
        preimages: &Preimages,
        squares: &[Square],
        links: &Links,
        start: usize,
    ) -> Result<bool, NoMemory>
        requires whole { IsWhole self.old }
        requires squares { AreSquares along.now (length self.old.masks.items) squares.now }
        requires links { AreLinks (length self.old.masks.items) squares.now links.now }
        requires preimages { ArePreimages along.now preimages.now.masks.items }
        ensures { IfOk result (Narrows (AllFit along.now squares.now) self.old self.new) }
    {
        'changes: for index in start..usize::MAX {
            if self.trail.len() <= index {
                return Ok(true);
            }
            let place = self.trail[index].place;
            if let Some(residue) = sole(self.masks[place]) {
                if !self.narrow_below(along, squares, links, place)? {
                    return Ok(false);
                }
                if !self.narrow_above(along, preimages, squares, links, place, residue)? {
                    return Ok(false);
                }
            }
        }
        Ok(true)
    }

    // Sets the number at a place and narrows on from there; or answers false where some place has no number left.
    pub(crate) fn assign(
        &mut self,
        along: &[Row<u32>],
        preimages: &Preimages,
        squares: &[Square],
        links: &Links,
        place: usize,
        number: u32,
    ) -> Result<bool, NoMemory>
        requires whole { IsWhole self.old }
        requires place { place < length self.old.masks.items }
        requires squares { AreSquares along.now (length self.old.masks.items) squares.now }
        requires links { AreLinks (length self.old.masks.items) squares.now links.now }
        requires preimages { ArePreimages along.now preimages.now.masks.items }
        ensures { IfOk result (Narrows (λ values. AllFit along.now squares.now values × (get_or values place 0 ≡ number)) self.old self.new) }
    {
        let start = self.trail.len();
        if !self.narrow(place, one(number as usize))? {
            return Ok(false);
        }
        self.propagate(along, preimages, squares, links, start)
    }
}
