// Signed bytes as a soft reading.
ghost use Rattle.std.specs.Prelude.{◌≡◌, ℕ, not, slice_index};
ghost use Rattle.readings.specs.SignedBytes.{negative, signed_place, signed_places, signed_strength};
ghost use Rattle.readings.specs.Strengths.{magnitude_at_most};

use crate::bytes::Bytes;
use crate::hard::Hard;
use crate::magnitude::Magnitude;
use crate::sample::Sample;
use crate::soft::Soft;
use order::Ordered;

// Bytes with one sample a place.
pub type Signed<'a> = Bytes<'a, Magnitude>;

impl<'a> Signed<'a> {
    // The reading over these bytes: what its places are, how strong they are, and how strengths compare.
    // A constructor for each kind: it promises what the bytes mean, which a clause over S could only call S's own meaning.
    #[tactic(auto, unfolding(crate::specs::SignedBytes::signed_places))]
    pub fn new(bytes: &'a [u8]) -> Signed<'a>
        ensures places { ⟦<Signed<'a> as Hard>⟧.places result ≡ signed_places bytes.now }
        ensures strengths { (place : ℕ) → ⟦<Signed<'a> as Soft>⟧.strengths result place ≡ signed_strength (slice_index bytes.now place) }
        ensures order { ⟦<Magnitude as Ordered>⟧.at_most ≡ magnitude_at_most }
    {
        Bytes::over(bytes)
    }
}

// Whether a byte's sample is bit one.
fn is_one(byte: u8) -> bool
    ensures { result ≡ not (negative byte) }
{
    byte.cast_signed() >= 0
}

impl Sample for Magnitude {
    ghost place_of = { signed_place };

    ghost strength_of = { signed_strength };

    fn bit(byte: u8) -> Option<bool> {
        Some(is_one(byte))
    }

    fn strength(byte: u8) -> Option<Magnitude> {
        Some(Magnitude::of(byte))
    }
}
