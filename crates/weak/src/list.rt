// The places of a weak list; which they are, `weak_list` says.
ghost use Rattle.std.specs.Prelude.{◌≡◌, ◌≤◌, length};
ghost use Rattle.order.specs.Slots.{slot_count};
ghost use Rattle.weak.specs.Held.{held, held_count};

use order::KEPT;

mod methods;

#[derive(Clone, Copy, Debug, PartialEq, Eq)]
pub struct WeakList {
    places: Places,
    // What the arrays' types say: a clause sees lists, and not how long they are.
    ghost long: { length (held places) ≡ held_count places },
    ghost within: { held_count places ≤ slot_count },
}

// 2t places for each of the two codes. No const parameter: the code is known only when the call is made.
#[derive(Clone, Copy, Debug, PartialEq, Eq)]
enum Places {
    Four([usize; 4]),
    Six([usize; KEPT]),
}
