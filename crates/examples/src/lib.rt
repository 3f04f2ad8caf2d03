// Worked examples: shown of the definitions by theorems on contracts, and run as tests.
#![tactic(auto)]

ghost use Rattle.std.specs.Prelude.{◌≡◌, [], ◌∷◌, slice_index};
ghost use Rattle.galois.specs.Polynomials.{remainder};
ghost use Rattle.bch.specs.declared.code.Code.TheVariants.{Two, Three};
ghost use Rattle.bch.specs.Codes.{parity, generator, Codeword};
ghost use Rattle.examples.specs.Ones.{ones_at};

mod bytes;
mod lists;

pub use bytes::{graded_bytes, least_sample};
pub use lists::equal_strengths;

// The places that hold one in a codeword of code 2.
pub fn light_codeword() -> [usize; 5]
    ensures places { result ≡ 0 ∷ 68 ∷ 102 ∷ 119 ∷ 136 ∷ [] }
    ensures codeword { Codeword Two (ones_at result) }
{
    [0, 68, 102, 119, 136]
}

// What x^16 leaves on division by the generator of code 2, and x^24 by that of code 3.
pub fn first_remainders() -> [u32; 2]
    ensures values { result ≡ 0x6F63 ∷ 0xBBA1B5 ∷ [] }
    ensures two { remainder (parity Two) (generator Two) (ones_at (16 ∷ [])) ≡ slice_index result 0 }
    ensures three { remainder (parity Three) (generator Three) (ones_at (24 ∷ [])) ≡ slice_index result 1 }
{
    [0x6F63, 0xBBA1B5]
}

#[cfg(test)]
mod tests;
