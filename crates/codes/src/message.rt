// Messages as words, and as bits in their places.
ghost use Rattle.std.specs.Prelude.{◌≡◌, MatchOption};
ghost use Rattle.bch.specs.Codes.{parity};
ghost use Rattle.bch.specs.Messages.{Message};
ghost use Rattle.codes.specs.Steps.{Laid};

use bch::{Code, MESSAGE_WORDS, PLACES, WORD_BITS, lay_number};

// A word's kind is its top two bits.
const KIND_SHIFT: u32 = 30;

// A number and no enum: of the four kinds only this one is asked for until the export is built.
const MESSAGE_KIND: u32 = 1;

// The words as a message, where they are one.
pub fn message_in(words: &[u32]) -> Option<&[u32; MESSAGE_WORDS]>
    ensures { MatchOption result (Message words.now → ⊥) (λ message. (message.now ≡ words.now) × Message words.now) }
{
    let message = words.as_array()?;
    words
        .iter()
        .all(|word| *word >> KIND_SHIFT == MESSAGE_KIND)
        .then_some(message)
}

// The message's bits written to their places, which stand above the parity places.
// Code and bits apart, as in division: they are no codeword yet.
pub fn lay_message(words: &[u32; MESSAGE_WORDS], code: Code, bits: &mut [bool; PLACES])
    ensures { Laid words.now (parity code) bits.old bits.new }
{
    let from = code.parity();
    // By number. Tried: chunks_exact_mut; after it a proof knows how many places there are, and not what they hold.
    for (i, word) in words.iter().enumerate() {
        let at = from + WORD_BITS * i;
        lay_number(*word, &mut bits[at..at + WORD_BITS]);
    }
}
