// Closing a set of places in two passes, and adding a place to a closed one.
ghost use Rattle.std.specs.Prelude.{◌≡◌, ◌<◌, ◌||◌, ◌^◌, ℕ, Bool, List, [], length, get_or, true, false, IsTrue, IfOk, MatchOption};
ghost use Rattle.std.specs.List.{list_all};
ghost use Rattle.topos_model.specs.categories.Category.{has};
ghost use Rattle.closed_sets.specs.Closed.{IsBelow};
ghost use Rattle.closed_sets.specs.Ideals.{lowered};
ghost use Rattle.place_closures.specs.Passes.{AreTables, AreTurned, Has, HasCover, IsMissing, IsCoverClosed, IsRestrictionClosed, moves, covered, two_passes};

use crate::turned::turned;
use closed_sets::Closing;
use std::alloc::Global;
use topos_model::{Bits, NoMemory, Row};

/// For each place those that it moves to, those that it moves to along the least cover of its stage, and those along whose covers it is moved to.
#[derive(Drop)]
pub struct TwoPasses {
    below: Row<Row<u32>>,
    covers: Row<Row<u32>>,
    covering: Vec<Row<u32>>,
    ghost lawful: { AreTables below covers },
    ghost turned: { AreTurned covers covering.items },
}

impl TwoPasses {
    /// The closure by these tables.
    pub fn new(
        alloc: Global,
        below: Row<Row<u32>>,
        covers: Row<Row<u32>>,
    ) -> Result<TwoPasses, NoMemory>
        requires lawful { AreTables below covers }
        requires few { length below < 2 ^ 32 }
        ensures below { IfOk result (λ passes. passes.below ≡ below) }
        ensures covers { IfOk result (λ passes. passes.covers ≡ covers) }
    {
        let covering = turned(alloc, covers.as_slice())?;
        Ok(TwoPasses {
            below,
            covers,
            covering,
        })
    }

    // Adds all places that a member moves to.
    fn restrict(&self, set: &mut Bits)
        requires { length set.old ≡ length self.now.below }
        ensures { set.new ≡ lowered (moves self.now.below) set.old }
    {
        'places: for i in 0..self.below.len() {
            if set.get(i) {
                mark(set, self.below.get(i).as_slice());
            }
        }
    }

    // Adds all places whose cover is in the set, which moves within itself.
    fn cover(&self, set: &mut Bits)
        requires places { length set.old ≡ length self.now.below }
        requires moved { IsRestrictionClosed self.now.below set.old }
        ensures { set.new ≡ covered self.now.covers set.old }
    {
        'places: for i in 0..self.below.len() {
            if has_all(set, self.covers.get(i).as_slice()) {
                set.set(i, true);
            }
        }
    }
}

impl TwoPasses {
    // Whether the set has not the place k, though it has its whole cover.
    fn is_missing(&self, set: &Bits, k: usize) -> bool
        requires places { length set.now ≡ length self.now.below }
        requires within { k < length self.now.below }
        ensures missing { IsTrue result → (get_or set.now k false ≡ false) × HasCover self.now.covers set.now k }
        ensures there { result ≡ false → HasCover self.now.covers set.now k → get_or set.now k false ≡ true }
    {
        !set.get(k) && has_all(set, self.covers.get(k).as_slice())
    }

    // A missing place before `end` whose cover has m.
    fn missing_before(&self, set: &Bits, m: usize, end: usize) -> Option<usize>
        requires places { length set.now ≡ length self.now.below }
        requires within { m < length self.now.below }
        ensures { MatchOption result
            ((k : ℕ) → Has self.now.covers k m → k < end → HasCover self.now.covers set.now k → get_or set.now k false ≡ true)
            (λ k. IsMissing self.now.covers set.now end k) }
    {
        for k in self.covering[m].as_slice() {
            let k = *k as usize;
            if k < end && self.is_missing(set, k) {
                return Some(k);
            }
        }
        None
    }

    // A missing place before `place` whose cover has a place that `place` moves to and `last` has not.
    fn brought_before(&self, last: &Bits, place: usize, set: &Bits) -> Option<usize>
        requires last { length last.now ≡ length self.now.below }
        requires places { length set.now ≡ length self.now.below }
        requires within { place < length self.now.below }
        ensures { MatchOption result
            ((m : ℕ) → Has self.now.below place m → get_or last.now m false ≡ false → (k : ℕ) → Has self.now.covers k m → k < place → HasCover self.now.covers set.now k → get_or set.now k false ≡ true)
            (λ k. IsMissing self.now.covers set.now place k) }
    {
        for m in self.below.get(place).as_slice() {
            let m = *m as usize;
            if !last.get(m) {
                if let Some(k) = self.missing_before(set, m, place) {
                    return Some(k);
                }
            }
        }
        None
    }

    // Adds each missing place whose cover has m.
    fn cover_from(&self, m: usize, set: &mut Bits)
        requires places { length set.old ≡ length self.now.below }
        requires within { m < length self.now.below }
        ensures places { length set.new ≡ length set.old }
        ensures above { IsBelow set.old set.new }
        ensures least { (t : List Bool) → length t ≡ length self.now.below → IsCoverClosed self.now.covers t → IsBelow set.old t → IsBelow set.new t }
        ensures all { (k : ℕ) → Has self.now.covers k m → HasCover self.now.covers set.old k → get_or set.new k false ≡ true }
    {
        for k in self.covering[m].as_slice() {
            let k = *k as usize;
            if self.is_missing(set, k) {
                set.set(k, true);
            }
        }
    }

    // Adds each missing place whose cover has a place that `place` moves to and `last` has not.
    fn cover_new(&self, last: &Bits, place: usize, set: &mut Bits)
        requires last { length last.now ≡ length self.now.below }
        requires places { length set.old ≡ length self.now.below }
        requires within { place < length self.now.below }
        ensures places { length set.new ≡ length set.old }
        ensures above { IsBelow set.old set.new }
        ensures least { (t : List Bool) → length t ≡ length self.now.below → IsCoverClosed self.now.covers t → IsBelow set.old t → IsBelow set.new t }
        ensures all { (m : ℕ) → Has self.now.below place m → get_or last.now m false ≡ false → (k : ℕ) → Has self.now.covers k m → HasCover self.now.covers set.old k → get_or set.new k false ≡ true }
    {
        for m in self.below.get(place).as_slice() {
            let m = *m as usize;
            if !last.get(m) {
                self.cover_from(m, set);
            }
        }
    }
}

// A place of a row before `end` that the set has not.
fn absent_before(set: &Bits, row: &[u32], end: usize) -> Option<usize>
    requires { (j : ℕ) → has j row.now ≡ true → j < length set.now }
    ensures { MatchOption result
        ((j : ℕ) → has j row.now ≡ true → j < end → get_or set.now j false ≡ true)
        (λ j. (has j row.now ≡ true) × (j < end) × (get_or set.now j false ≡ false)) }
{
    for j in row {
        let j = *j as usize;
        if j < end && !set.get(j) {
            return Some(j);
        }
    }
    None
}

// Takes out of the set, which is `last` but for the places of a row, what `last` has not.
fn put_back(last: &Bits, row: &[u32], set: &mut Bits)
    requires places { length set.old ≡ length last.now }
    requires within { (j : ℕ) → has j row.now ≡ true → j < length last.now }
    requires alike { (j : ℕ) → has j row.now ≡ false → get_or set.old j false ≡ get_or last.now j false }
    ensures { set.new ≡ last.now }
{
    for j in row {
        let j = *j as usize;
        set.set(j, last.get(j));
    }
}

// Puts all places of a row into the set.
fn mark(set: &mut Bits, row: &[u32])
    requires { (j : ℕ) → has j row.now ≡ true → j < length set.old }
    ensures places { length set.new ≡ length set.old }
    ensures marked { (j : ℕ) → get_or set.new j false ≡ (get_or set.old j false || has j row.now) }
{
    for j in row {
        set.set(*j as usize, true);
    }
}

// Whether the set has all places of a row.
fn has_all(set: &Bits, row: &[u32]) -> bool
    requires { (j : ℕ) → has j row.now ≡ true → j < length set.now }
    ensures { result ≡ list_all (λ j. get_or set.now j false) row.now }
{
    for j in row {
        if !set.get(*j as usize) {
            return false;
        }
    }
    true
}

impl Closing for TwoPasses {
    ghost use Rattle.std.specs.Prelude.{length};
    ghost use Rattle.place_closures.specs.Passes.{two_passes};
    ghost use Rattle.place_closures.specs.PassLaws.{two_passes_closure};

    ghost places = { λ op. length op.below };

    ghost closure = { λ op. two_passes op.below op.covers };

    ghost is_closure = { λ op. two_passes_closure op.below op.covers op.lawful };

    fn len(&self) -> usize {
        self.below.len()
    }

    fn close(&self, set: &mut Bits) {
        self.restrict(set);
        self.cover(set);
    }

    // Only what the place moves to is new in the first pass, and in the second only places whose covers have some of that.
    fn add(&self, last: &Bits, place: usize, set: &mut Bits) -> Option<usize> {
        let row = self.below.get(place).as_slice();
        if let Some(j) = absent_before(last, row, place) {
            return Some(j);
        }
        set.set(place, true);
        mark(set, row);
        if let Some(k) = self.brought_before(last, place, set) {
            set.set(place, false);
            put_back(last, row, set);
            return Some(k);
        }
        self.cover_new(last, place, set);
        None
    }
}
