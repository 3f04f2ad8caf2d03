ghost use Rattle.std.specs.Prelude.{◌≡◌, ◌++◌, OnOk};
ghost use Rattle.printing.specs.Texts.{answer_text, printed, said};
ghost use Rattle.session.specs.Steps.{Adds, EncodeLine, TakeLine, Steps};

use super::Session;
use bch::MESSAGE_WORDS;
use codes::{encode, take_message};
use line_fields::Unread;
use printing::{Answer, put_line};
use refusals::Refusal;
use script_text::{Call, parse};
use std::alloc::AllocError;

// Puts what a call answered after `out`: this answer where it was accepted, or else the refusal.
// A match and no map_or_else: the borrow checker does not cover one with Answer::Refused, whose answer's lifetime no argument names.
fn put_call(
    call: Result<(), Refusal>,
    accepted: Answer,
    out: &mut Vec<u8>,
) -> Result<(), AllocError>
    ensures { OnOk result (out.new.items ≡ out.old.items ++ printed (answer_text (λ _. said accepted.entry) call)) }
{
    let answer = match call {
        Ok(()) => accepted,
        Err(refusal) => Answer::Refused(refusal),
    };
    put_line(&answer, out)
}

impl Session {
    // encode CODE WORD..
    // Not one helper with take_row: an answer borrows the session's word, and the count writes the session.
    // `code` is a number, as in the line: the call refuses one that no code has.
    fn encode_row(&mut self, code: u32, words: &[u32], out: &mut Vec<u8>) -> Result<(), AllocError>
        ensures { OnOk result (Adds (EncodeLine code words.now self.old self.new) out.old.items out.new.items) }
    {
        let made = encode(words, code, &mut self.word);
        self.count(made.is_ok());
        put_call(made, Answer::Word(self.word.bits()), out)
    }

    // take
    fn take_row(&mut self, out: &mut Vec<u8>) -> Result<(), AllocError>
        ensures { OnOk result (Adds (TakeLine self.old self.new) out.old.items out.new.items) }
    {
        let mut message = [0; MESSAGE_WORDS];
        let taken = take_message(&self.word, &mut message);
        self.count(taken.is_ok());
        put_call(taken, Answer::Message(&message), out)
    }

    // Does what a line of a script says, and puts the text that it prints after `out`, on the heap that `out` is on. The line
    // comes without its newline.
    pub fn answer(&mut self, line: &[u8], out: &mut Vec<u8>) -> Result<(), AllocError>
        ensures { OnOk result (Adds (Steps line.now self.old self.new) out.old.items out.new.items) }
    {
        let heap = *out.allocator();
        match parse(heap, line) {
            Ok(None) => Ok(()),
            Ok(Some(Call::Encode { code, words })) => self.encode_row(code, &words, out),
            Ok(Some(Call::Take)) => self.take_row(out),
            Err(Unread::NotUnderstood) => put_line(&Answer::NotUnderstood, out),
            Err(Unread::OutOfMemory(e)) => Err(e),
        }
    }
}
