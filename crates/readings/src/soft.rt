ghost use Rattle.std.specs.Prelude.{◌≡◌, ℕ, None, slice_index_or};
ghost use Rattle.readings.specs.Places.{where_sound};

use crate::hard::Hard;
use crate::strength::Strength;

// A soft reading: a hard one that tells how strong the bit at each place is.
pub trait Soft: Hard {
    type Kind: Strength;

    // a strength for every place number
    ghost strengths: { Self → ℕ → Self.Kind };

    // The strength at a place; absent exactly where the bit is.
    fn strength(&self, place: usize) -> Option<Self::Kind>
        ensures { result ≡ where_sound (slice_index_or (Self.Hard.places self.now) place None) (strengths self.now place) };
}
