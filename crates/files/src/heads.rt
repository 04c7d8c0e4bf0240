// The heads of slots, in the order of a file.
ghost use Rattle.std.specs.Prelude.{◌≡◌, ◌*◌, ◌/◌, ◌%◌, ◌<◌};
ghost use Rattle.entries.specs.Entries.{head};
ghost use Rattle.entries.specs.Table.{kinds};
ghost use Rattle.ledger.specs.Slots.{head_at as head_of_place};

use entries::head::Head;

// The head at a place of its kind, of which each first has so many subs.
fn head_of(kind: u8, at: usize, subs: usize) -> Head
    requires { (0 < subs) × ((subs < 256) × (at < 256 * subs)) }
    ensures { result ≡ head kind (at / subs) (at % subs) }
{
    Head {
        kind,
        first: (at / subs) as u8,
        sub: (at % subs) as u8,
    }
}

// The head of the slot at a place.
pub fn head_at(place: usize) -> Head
    requires { place < 1138 }
    ensures { result ≡ head_of_place kinds place }
{
    if place < 50 {
        head_of(1, place, 10)
    } else if place < 82 {
        head_of(2, place - 50, 1)
    } else if place < 338 {
        head_of(3, place - 82, 8)
    } else if place < 594 {
        head_of(4, place - 338, 8)
    } else if place < 722 {
        head_of(5, place - 594, 4)
    } else if place < 1106 {
        head_of(6, place - 722, 12)
    } else {
        head_of(7, place - 1106, 1)
    }
}
