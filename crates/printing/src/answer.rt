// The answers to a script, and their texts.
ghost use Rattle.std.specs.Prelude.{◌≡◌, ◌*◌, ◌≤◌, length, take, Some};
ghost use Rattle.bch.specs.Messages.{message_words};
ghost use Rattle.refusals.specs.Refusals.{returned};
ghost use Rattle.printing.specs.Texts.{numbers_text, words_text, said};

use crate::packing::packed;
use bch::{MESSAGE_WORDS, PLACES};
use numerals::{HexBytes, HexWord, as_text};
use refusals::Refusal;
use std::fmt;

// The bytes of a word's text: a space and eight digits.
const SPACED: usize = 9;

// What a line of a script prints, without the newline after it.
#[derive(Clone, Copy)]
pub enum Answer<'a> {
    // A word that was filled, by its bits.
    Word(&'a [bool; PLACES]),
    // A message that was taken out.
    Message(&'a [u32]),
    // What an accepted test said.
    Tested(bool),
    // A call that was refused.
    Refused(Refusal),
    // A line that fits no row.
    NotUnderstood,
}

// Words, each after a space.
#[derive(Drop)]
struct Words<'a>(&'a [u32]);

// The text of up to seven words, in the places below nine times their number. It is put together so that a text of it is made once.
fn spaced(words: &[u32]) -> [u8; SPACED * MESSAGE_WORDS]
    requires { length words.now ≤ message_words }
    ensures { take (9 * length words.now) result ≡ words_text words.now }
{
    let mut text = [b' '; SPACED * MESSAGE_WORDS];
    for (i, word) in words.iter().enumerate() {
        let at = SPACED * i;
        text[at + 1..at + SPACED].copy_from_slice(&HexWord::new(*word).digits());
    }
    text
}

impl fmt::Display for Words<'_> {
    ghost output = { λ ws. Some (words_text ws.0.now) };

    #[tactic(auto, unfolding(crate::specs::Texts::words_text))]
    fn fmt<W: fmt::Write>(&self, f: &mut fmt::Formatter<W>) -> fmt::Result {
        for run in self.0.chunks(MESSAGE_WORDS) {
            let text = spaced(run);
            f.write_str(as_text(&text[..SPACED * run.len()])?)?;
        }
        Ok(())
    }
}

// The numbers that a refusal returns, each after a space.
#[derive(Drop)]
struct Returned(Refusal);

impl fmt::Display for Returned {
    ghost output = { λ r. Some (numbers_text (returned r.0)) };

    fn fmt<W: fmt::Write>(&self, f: &mut fmt::Formatter<W>) -> fmt::Result {
        let number = u8::from(self.0);
        match self.0 {
            Refusal::Unsound { place } => write!(f, " {number} {place}"),
            _ => write!(f, " {number}"),
        }
    }
}

impl fmt::Display for Answer<'_> {
    ghost output = { λ a. Some (said a) };

    #[tactic(auto, unfolding(crate::specs::Texts::word_text, crate::specs::Texts::message_text, crate::specs::Texts::refused_text))]
    fn fmt<W: fmt::Write>(&self, f: &mut fmt::Formatter<W>) -> fmt::Result {
        match self {
            Answer::Word(bits) => write!(f, "word {}", HexBytes(&packed(bits))),
            Answer::Message(words) => write!(f, "message{}", Words(words)),
            Answer::Tested(true) => f.write_str("yes"),
            Answer::Tested(false) => f.write_str("no"),
            Answer::Refused(refusal) => write!(f, "refused{}", Returned(*refusal)),
            Answer::NotUnderstood => f.write_str("not understood"),
        }
    }
}
