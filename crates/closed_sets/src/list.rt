// All closed sets, one after another.
ghost use Rattle.std.specs.Prelude.{◌≡◌, ◌-◌, ◌<◌, ◌∷◌, [], true, false, length, get_or, IfOk, IsTrue, MatchOption};
ghost use Rattle.closed_sets.specs.Closed.{closed_lists};
ghost use Rattle.closed_sets.specs.Later.{later};
ghost use Rattle.closed_sets.specs.Listing.{IsListing};
ghost use Rattle.closed_sets.specs.Origins.{set_at, IsMade, AreMade, IsPath, AreRefused};

use crate::Closing;
use crate::closing::restore;
use std::alloc::Global;
use topos_model::{Bits, NoMemory, Row};

/// All closed sets, or `Over` where there are more than the room.
#[derive(Drop)]
pub enum ClosedListing {
    All(Row<Bits>),
    Over,
}

/// How a closed set was found: its places before the limit span it, and the last of them was put into the listed set with the number `before`.
/// The first closed set, which is the closure of none, has the limit 0.
#[derive(Clone, Copy)]
struct Origin {
    limit: usize,
    before: usize,
}

/// How a place was last refused: with it the listed set with the number `at` has `new`, which is before it. At first `new` is no place before it.
#[derive(Clone, Copy)]
struct Refusal {
    at: usize,
    new: usize,
}

/// All sets that the closure leaves as they are, those without the first place before those with it.
/// `Over` comes exactly where there are more than `room`. Want of memory is the only error.
pub fn list_closed<O: Closing>(alloc: Global, op: &O, room: u64) -> Result<ClosedListing, NoMemory>
    ensures listing { IfOk result (λ listing. IsListing (closed_lists (O.places op.now) (O.closure op.now)) room listing) }
{
    let places = op.len();
    let mut set = Bits::new(alloc, places)?;
    op.close(&mut set);
    let mut origin = Origin {
        limit: 0,
        before: 0,
    };
    let mut found = Row::new(alloc);
    let mut origins = Row::new(alloc);
    let mut active = Vec::new(alloc);
    let mut refusals = Vec::new(alloc);
    refusals.resize(places, Refusal { at: 0, new: places })?;
    'sets: loop {
        if found.len() as u64 == room {
            return Ok(ClosedListing::Over);
        }
        found.push(copy(alloc, &set)?)?;
        origins.push(origin)?;
        if active.push(true).is_err() {
            return Err(NoMemory);
        }
        match next_closed(
            op,
            found.as_slice(),
            origins.as_slice(),
            &mut active,
            &mut refusals,
            &mut set,
        ) {
            Some(next) => origin = next,
            None => return Ok(ClosedListing::All(found)),
        }
    }
}

// A set with the same places.
fn copy(alloc: Global, set: &Bits) -> Result<Bits, NoMemory>
    ensures { IfOk result (λ copied. copied ≡ set.now) }
{
    let mut copied = Bits::new(alloc, set.len())?;
    'places: for k in 0..set.len() {
        if set.get(k) {
            copied.set(k, true);
        }
    }
    Ok(copied)
}

// Whether a place is refused again: the set has all that an active one has, but not the place that was brought there.
fn is_refused_again(refusal: Refusal, active: &[bool], place: usize, set: &Bits) -> bool
    requires place { place < length set.now }
    requires known { refusal.new < place → refusal.at < length active.now }
    ensures { IsTrue result → (refusal.new < place) × (get_or active.now refusal.at false ≡ true) × (get_or set.now refusal.new false ≡ false) }
{
    refusal.new < place && active[refusal.at] && !set.get(refusal.new)
}

// Leaves `set`, which is the last that was found, with the closed set after it, and answers how that was found; or none, where it was the last one.
// The greatest place decides that can be put into the set with no new place before it. Where that place was put into the set itself, the set is left for the one that it was put into.
// Active are the sets that are not left, each within the next.
fn next_closed<O: Closing>(
    op: &O,
    found: &[Bits],
    origins: &[Origin],
    active: &mut [bool],
    refusals: &mut [Refusal],
    set: &mut Bits,
) -> Option<Origin>
    requires some { 0 < length found.now }
    requires all { length origins.now ≡ length found.now }
    requires made { AreMade (O.places op.now) (O.closure op.now) found.now origins.now }
    requires flags { length active.old ≡ length found.now }
    requires path { IsPath origins.now active.old (length found.now - 1) }
    requires each { length refusals.old ≡ O.places op.now }
    requires refused { AreRefused (O.closure op.now) found.now refusals.old }
    requires last { set.old ≡ set_at found.now (length found.now - 1) }
    ensures flags { length active.new ≡ length found.now }
    ensures each { length refusals.new ≡ O.places op.now }
    ensures refused { AreRefused (O.closure op.now) found.now refusals.new }
    ensures found { MatchOption result
        (later (O.places op.now) (O.closure op.now) set.old ≡ [])
        (λ origin. (later (O.places op.now) (O.closure op.now) set.old ≡ set.new ∷ later (O.places op.now) (O.closure op.now) set.new) × IsMade (O.places op.now) (O.closure op.now) found.now origins.now set.new origin
        × (0 < origin.limit) × IsPath origins.now active.new origin.before) }
{
    let mut number = found.len() - 1;
    let mut place = op.len();
    'places: while 0 < place {
        place -= 1;
        if set.get(place) {
            let origin = origins[number];
            if place < origin.limit {
                active[number] = false;
                number = origin.before;
                restore(&found[number], place, set);
            }
        } else if !is_refused_again(refusals[place], active, place, set) {
            match op.add(&found[number], place, set) {
                None => {
                    return Some(Origin {
                        limit: place + 1,
                        before: number,
                    });
                }
                Some(new) => refusals[place] = Refusal { at: number, new },
            }
        }
    }
    None
}
