// The code, and the working copy of a reading's bits, a byte a place.
ghost use Rattle.std.specs.Prelude.{◌≡◌, length};
ghost use Rattle.bch.specs.Codes.{places};

use bch::{Code, PLACES};

mod methods;

#[derive(Drop)]
pub struct Received {
    code: Code,
    bits: [bool; PLACES],
    // A clause sees a list, and not the length that the type gives it.
    ghost long: { length bits ≡ places },
}
