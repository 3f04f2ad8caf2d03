ghost use Rattle.std.specs.Prelude.{◌≡◌, ℕ, Bool, Option};
ghost use Rattle.readings.specs.Places.{where_sound};

use crate::strength::Strength;

// A kind of strength that a byte tells, beside its bit.
// Two questions and no pair: the codeword test asks bits alone.
pub trait Sample: Strength {
    // the place that a byte stands for: a bit, or unsound
    ghost place_of: { ℕ → Option Bool };

    // a strength for every byte
    ghost strength_of: { ℕ → Self };

    // The bit of a byte; absent exactly where its place is unsound.
    fn bit(byte: u8) -> Option<bool>
        ensures { result ≡ place_of byte };

    // The strength of a byte; absent exactly where the bit is.
    fn strength(byte: u8) -> Option<Self>
        ensures { result ≡ where_sound (place_of byte) (strength_of byte) };
}
