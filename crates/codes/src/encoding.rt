// From a message to the codeword that carries it.
ghost use Rattle.codes.specs.Calls.{Encodes, OutAfterIn};

use crate::division::{divide, lay_parity};
use crate::message::{lay_message, message_in};
use crate::word::Word;
use bch::{Code, PLACES};
use refusals::Refusal;

// Fills the word with the one codeword under that code that carries the words.
// Into the caller's memory, and not in the answer: so the rules in docs/ have it, as is that a refusal leaves it as it was.
// `number` is any 32-bit number, as the calls of docs/ take it; inside it is a Code.
pub fn encode(words: &[u32], number: u32, word: &mut Word) -> Result<(), Refusal>
    ensures call { Encodes words.now number word.old word.new result }
    ensures out_after_in { OutAfterIn }
{
    let code = Code::try_from(number)?;
    let message = message_in(words).ok_or(Refusal::NoMessage)?;
    let mut bits = [false; PLACES];
    lay_message(message, code, &mut bits);
    let rest = divide(&bits, code);
    lay_parity(rest, code, &mut bits);
    word.fill(code, &bits);
    Ok(())
}
