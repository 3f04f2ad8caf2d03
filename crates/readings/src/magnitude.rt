// The magnitude of a signed sample as a strength.
ghost use Rattle.std.specs.Prelude.{◌≡◌, ◌≤◌};
ghost use Rattle.readings.specs.Strengths.{magnitude_at_most};
ghost use Rattle.readings.specs.SignedBytes.{signed_strength};
ghost use Rattle.std.proofs.Common.{rules};

use crate::strength::Strength;
use order::Ordered;

// No derived order beside this one: a strength has one order, the trait's.
#[derive(Clone, Copy, Debug, PartialEq, Eq)]
pub struct Magnitude {
    pub value: u8,
}

impl Magnitude {
    // The magnitude of a byte's sample; by name, since `From<u8>` would read as the magnitude that the byte is.
    pub fn of(byte: u8) -> Magnitude
        ensures value { result ≡ signed_strength byte }
        ensures range { result.value ≤ 128 }
    {
        Magnitude {
            value: byte.cast_signed().unsigned_abs(),
        }
    }
}

impl Ordered for Magnitude {
    ghost at_most = { magnitude_at_most };

    ghost total = { Prim.search rules };

    ghost transitive = { Prim.search rules };

    fn is_at_most(&self, other: &Magnitude) -> bool {
        self.value <= other.value
    }
}

impl Strength for Magnitude {}
