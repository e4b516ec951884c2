// Places that no square has: how many rows they make of one.
ghost use Rattle.std.specs.Prelude.{◌≡◌, ◌<◌, ◌+◌, ◌^◌, min, cond, nat_lt, length, get_or};
ghost use Rattle.natural_search.specs.Domains.{AreLinks};
ghost use Rattle.natural_search.specs.FreePlaces.{is_free, free_choices};

use crate::links::Links;
use crate::squares::Square;

// Whether no square has the place.
fn is_free(squares: &[Square], links: &Links, places: usize, place: usize) -> bool
    requires links { AreLinks places squares.now links.now }
    requires place { place < places }
    ensures { result ≡ is_free squares.now place }
{
    // What the links are of is a condition alone.
    let _ = squares;
    links.below.heads[place] == 0 && links.above.heads[place] == 0
}

// The bound where the place is free, and 1 where it is not.
fn choices_at(squares: &[Square], links: &Links, bounds: &[u32], place: usize) -> u32
    requires links { AreLinks (length bounds.now) squares.now links.now }
    requires place { place < length bounds.now }
    ensures { result ≡ cond (is_free squares.now place) (get_or bounds.now place 0) 1 }
{
    if is_free(squares, links, bounds.len(), place) {
        bounds[place]
    } else {
        1
    }
}

// In how many ways numbers can stand at the free places; or one more than the room, where there are more ways.
pub(crate) fn free_choices(squares: &[Square], links: &Links, bounds: &[u32], room: u64) -> u64
    requires links { AreLinks (length bounds.now) squares.now links.now }
    requires room { room < 2 ^ 32 }
    ensures { result ≡ min (free_choices squares.now bounds.now 0 (length bounds.now)) (room + 1) }
{
    let mut choices = 1;
    let mut place = bounds.len();
    'places: while 0 < place {
        place -= 1;
        choices = (choices_at(squares, links, bounds, place) as u64 * choices).min(room + 1);
    }
    choices
}

// The room that a search is given: none where the free places make of one row more than the room has, so that it ends at the first.
pub(crate) fn search_room(squares: &[Square], links: &Links, bounds: &[u32], room: u64) -> u64
    requires links { AreLinks (length bounds.now) squares.now links.now }
    requires room { room < 2 ^ 32 }
    ensures { result ≡ cond (nat_lt room (free_choices squares.now bounds.now 0 (length bounds.now))) 0 room }
{
    if room < free_choices(squares, links, bounds, room) {
        0
    } else {
        room
    }
}
