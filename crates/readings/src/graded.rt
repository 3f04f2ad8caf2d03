// Graded bytes as a soft reading.
ghost use Rattle.std.specs.Prelude.{◌≡◌, ℕ, slice_index};
ghost use Rattle.readings.specs.GradedBytes.{graded_bit, graded_place, graded_places, graded_strength};
ghost use Rattle.readings.specs.Strengths.{grade_at_most};

use crate::bytes::Bytes;
use crate::grade::{Class, Grade};
use crate::hard::Hard;
use crate::sample::Sample;
use crate::soft::Soft;
use order::Ordered;

// Bytes with the bit, a class and a level of one place each.
pub type Graded<'a> = Bytes<'a, Grade>;

impl<'a> Graded<'a> {
    // The reading over these bytes: what its places are, how strong they are, and how strengths compare.
    // A constructor for each kind: it promises what the bytes mean, which a clause over S could only call S's own meaning.
    #[tactic(auto, unfolding(crate::specs::GradedBytes::graded_places))]
    pub fn new(bytes: &'a [u8]) -> Graded<'a>
        ensures places { ⟦<Graded<'a> as Hard>⟧.places result ≡ graded_places bytes.now }
        ensures strengths { (place : ℕ) → ⟦<Graded<'a> as Soft>⟧.strengths result place ≡ graded_strength (slice_index bytes.now place) }
        ensures order { ⟦<Grade as Ordered>⟧.at_most ≡ grade_at_most }
    {
        Bytes::over(bytes)
    }
}

// The top bit of a byte.
fn top_bit(byte: u8) -> bool
    ensures { result ≡ graded_bit byte }
{
    byte >> 7 == 1
}

impl Sample for Grade {
    ghost place_of = { graded_place };

    ghost strength_of = { graded_strength };

    fn bit(byte: u8) -> Option<bool> {
        Class::of_byte(byte).map(|_| top_bit(byte))
    }

    fn strength(byte: u8) -> Option<Grade> {
        Grade::of(byte)
    }
}
