ghost use Rattle.std.specs.Prelude.{◌≡◌, map, Some};
ghost use Rattle.bch.specs.Codes.{Codeword};
ghost use Rattle.codes.specs.Calls.{New};
ghost use Rattle.codes.specs.contracts.word.reading.WordHard.TheImpl.{ghosts as hard};

use super::Word;
use bch::{Code, PLACES};

impl Word {
    // All zero, under code 2.
    pub fn new() -> Word
        ensures { New result }
    {
        Word {
            code: Code::Two,
            bits: [false; PLACES],
        }
    }

    pub fn code(&self) -> Code
        ensures { result ≡ self.now.code }
    {
        self.code
    }

    // The bit at each place; they are the word's places as a hard reading.
    #[tactic(auto, unfolding(crate::specs::Calls::word_places))]
    pub fn bits(&self) -> &[bool; PLACES]
        ensures value { result.now ≡ self.now.bits }
        ensures reading { hard.places self.now ≡ map Some result.now }
    {
        &self.bits
    }

    // Becomes the given codeword: the one way to fill a word. Code and bits come apart, and are a pair from here on.
    pub fn fill(&mut self, code: Code, bits: &[bool; PLACES])
        requires { Codeword code bits.now }
        ensures code { self.new.code ≡ code }
        ensures bits { self.new.bits ≡ bits.now }
    {
        *self = Word { code, bits: *bits };
    }
}
