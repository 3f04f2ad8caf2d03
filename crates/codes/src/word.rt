// The corrected word: a code and 255 bits that are always a codeword of it. The caller owns one, and calls fill it.
ghost use Rattle.std.specs.Prelude.{◌≡◌, length};
ghost use Rattle.bch.specs.Codes.{places, Vanishes};

use bch::{Code, PLACES};

mod methods;
mod reading;

#[derive(Drop)]
pub struct Word {
    code: Code,
    bits: [bool; PLACES],
    // A clause sees a list, and not the length that the type gives it.
    ghost long: { length bits ≡ places },
    ghost zeros: { Vanishes code bits },
}
