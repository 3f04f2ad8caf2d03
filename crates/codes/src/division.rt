// Division of a word by the generator polynomial.
ghost use Rattle.std.specs.Prelude.{◌≡◌, ◌^◌, ◌<◌, ◌++◌, drop, bit_xor};
ghost use Rattle.galois.specs.Polynomials.{twice, digit, bits, remainder, Divided};
ghost use Rattle.bch.specs.Codes.{parity, generator};

use bch::{Code, PLACES, lay_number};

// The remainder with one place more below: x times the remainder plus that place.
fn divide_step(rest: u32, place: bool, code: Code) -> u32
    requires { rest < 2 ^ parity code }
    ensures { result ≡ bit_xor (digit place) (twice (parity code) (generator code) rest) }
{
    let doubled = rest * 2;
    let top = (doubled >> code.parity()) % 2;
    u32::from(place) ^ doubled ^ (top * code.generator())
}

// The remainder of a word on division by the code's generator.
// Code and bits apart: the pair is Word, which is a codeword at all times, and before `fill` these are none.
pub fn divide(bits: &[bool; PLACES], code: Code) -> u32
    ensures value { result ≡ remainder (parity code) (generator code) bits.now }
    ensures divided { Divided (parity code) (generator code) bits.now result }
{
    let mut rest = 0;
    for place in bits.iter().rev() {
        rest = divide_step(rest, *place, code);
    }
    rest
}

// The remainder written into the parity places. Code and bits apart, as in `divide`.
pub fn lay_parity(rest: u32, code: Code, places: &mut [bool; PLACES])
    ensures { places.new ≡ bits (parity code) rest ++ drop (parity code) places.old }
{
    lay_number(rest, &mut places[..code.parity()]);
}
