// From a codeword to the message that it carries.
ghost use Rattle.std.specs.Prelude.{◌≡◌, true, false};
ghost use Rattle.bch.specs.Codes.{parity};
ghost use Rattle.bch.specs.Messages.{Empty, spare_from};
ghost use Rattle.codes.specs.Steps.{Read};
ghost use Rattle.codes.specs.Calls.{Takes, InAfterOut};

use crate::message::message_in;
use crate::word::Word;
use bch::{MESSAGE_BITS, MESSAGE_WORDS, WORD_BITS, number_of};
use refusals::Refusal;
use std::array;

// The numbers that stand in the places of a message.
fn words_in(word: &Word) -> [u32; MESSAGE_WORDS]
    ensures { Read word.now.bits (parity word.now.code) result }
{
    let from = word.code().parity();
    let (words, _) = word.bits()[from..from + MESSAGE_BITS].as_chunks::<WORD_BITS>();
    array::from_fn(|i| number_of(&words[i]))
}

// Whether the places above those of the message are empty.
fn spare_is_empty(word: &Word) -> bool
    ensures yes { result ≡ true → Empty (spare_from word.now.code) word.now.bits }
    ensures no { result ≡ false → Empty (spare_from word.now.code) word.now.bits → ⊥ }
{
    !word.bits()[word.code().parity() + MESSAGE_BITS..].contains(&true)
}

// Writes the message that the word carries to the caller's memory.
// There, and not in the answer: so the rules in docs/ have it, as is that a refusal leaves it as it was.
pub fn take_message(word: &Word, message: &mut [u32; MESSAGE_WORDS]) -> Result<(), Refusal>
    ensures call { Takes word.now message.old message.new result }
    ensures in_after_out { InAfterOut }
{
    let words = words_in(word);
    let carried = message_in(&words).ok_or(Refusal::NoMessage)?;
    if !spare_is_empty(word) {
        return Err(Refusal::NoMessage);
    }
    *message = *carried;
    Ok(())
}
