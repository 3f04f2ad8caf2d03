// The caller's bytes as a soft reading.
ghost use Rattle.std.specs.Prelude.{◌≡◌, map, slice_index};

use crate::hard::Hard;
use crate::sample::Sample;
use crate::soft::Soft;
use std::marker::PhantomData;

// Stands over the caller's bytes, one a place, and reads each as a sample of kind S.
#[derive(Clone, Copy)]
pub struct Bytes<'a, S> {
    bytes: &'a [u8],
    kind: PhantomData<S>,
}

impl<'a, S> Bytes<'a, S> {
    // The reading over these bytes. For this crate alone: each kind's own `new` says what the reading means.
    pub(crate) fn over(bytes: &'a [u8]) -> Bytes<'a, S>
        ensures { result.bytes.now ≡ bytes.now }
    {
        Bytes {
            bytes,
            kind: PhantomData,
        }
    }
}

impl<'a, S: Sample> Hard for Bytes<'a, S> {
    ghost places = { λ s. map S.place_of s.bytes.now };

    fn len(&self) -> usize {
        self.bytes.len()
    }

    fn bit(&self, place: usize) -> Option<bool> {
        self.bytes.get(place).and_then(|byte| S::bit(*byte))
    }
}

impl<'a, S: Sample> Soft for Bytes<'a, S> {
    type Kind = S;

    ghost strengths = { λ s place. S.strength_of (slice_index s.bytes.now place) };

    fn strength(&self, place: usize) -> Option<S> {
        self.bytes.get(place).and_then(|byte| S::strength(*byte))
    }
}
