// A word as bytes.
ghost use Rattle.std.specs.Prelude.{◌≡◌, ℕ, ◌/◌, ◌%◌, ◌<◌, false, slice_index, slice_index_or};
ghost use Rattle.galois.specs.Polynomials.{bit};
ghost use Rattle.bch.specs.Codes.{places};
ghost use Rattle.printing.specs.Packing.{packed_byte, packing};

use bch::{PLACES, number_of};
use std::array;

const BYTE_BITS: usize = 8;

// The bytes of a packed word.
const PACKED_BYTES: usize = PLACES / BYTE_BITS + 1;

// Byte j of a packed word: the places from 8 * j on, as many as there are up to eight.
// By number: 255 places leave seven for the last byte, so as_chunks would leave them out.
fn byte_at(bits: &[bool; PLACES], j: usize) -> u8
    requires { j < PACKED_BYTES }
    ensures { result ≡ packed_byte bits.now j }
{
    let from = BYTE_BITS * j;
    let end = (from + BYTE_BITS).min(PLACES);
    number_of(&bits[from..end]) as u8
}

// The places of a word in bytes, eight to a byte, the lowest place at the lowest bit.
pub fn packed(bits: &[bool; PLACES]) -> [u8; PACKED_BYTES]
    ensures bytes { result ≡ packing bits.now }
    ensures placed { (i : ℕ) → i < places → bit (i % 8) (slice_index result (i / 8)) ≡ slice_index_or bits.now i false }
{
    array::from_fn(|j| byte_at(bits, j))
}
