// The lines of a script: those of `script_text`, and the codeword lines.
ghost use Rattle.std.specs.Prelude.{◌≡◌};
ghost use Rattle.line_fields.specs.Left.{left};
ghost use Rattle.line_fields.specs.Reads.{ReadsAs};
ghost use Rattle.script.specs.Lines.{not_understood, word_code, codeword_row, call, meaning};
ghost use Rattle.script.specs.Seen.{says, line_says};

use crate::given::{Given, reading_fields};
use line_fields::{Fields, Unread, field_is};
use numerals::code_number;
use script_text::{call_fields, named_call};
use std::alloc::Global;

// What a line of a script asks for.
#[derive(Debug, Drop)]
pub enum Call {
    // A call with another name than codeword.
    Other(script_text::Call),
    Codeword(Given),
    // A number and no Code: one that no code has is refused when the call is made, not when the line is read.
    CodewordOfWord { code: u32 },
}

// word CODE, and no field more.
#[tactic(auto, unfolding(crate::specs::Lines::word_code))]
fn word_code(fields: Fields) -> Option<u32>
    ensures { result ≡ word_code (left fields.entry) }
{
    let (word, code) = fields.two()?;
    match word {
        b"word" => code_number(code),
        _ => None,
    }
}

// codeword word CODE, or codeword KIND CODE BYTES
#[tactic(auto, unfolding(crate::specs::Lines::codeword_row))]
fn codeword_row(heap: Global, fields: Fields) -> Result<Call, Unread>
    ensures { ReadsAs not_understood says (codeword_row (left fields.entry)) result }
{
    if let Some(code) = word_code(fields) {
        return Ok(Call::CodewordOfWord { code });
    }
    Ok(Call::Codeword(reading_fields(heap, fields)?))
}

// A call by its fields, the first of which is its name.
#[tactic(auto, using(crate::proofs::Rows::codeword_name, crate::proofs::Rows::other_name))]
fn read_call(heap: Global, mut fields: Fields) -> Result<Call, Unread>
    ensures { ReadsAs not_understood says (call (left fields.entry)) result }
{
    let name = fields.next().ok_or(Unread::NotUnderstood)?;
    // A test and no pattern: where `named_call` tests the name again, a proof needs one fact, and after a pattern it has one for each byte.
    if field_is(name, b"codeword") {
        codeword_row(heap, fields)
    } else {
        Ok(Call::Other(named_call(heap, name, fields)?))
    }
}

// Reads a line of a script, or gives `None` where it says nothing.
// One expression, as in script_text, over this crate's calls.
#[tactic(auto, using(crate::proofs::Rows::no_call, crate::proofs::Rows::one_call))]
pub fn parse(heap: Global, line: &[u8]) -> Result<Option<Call>, Unread>
    ensures { ReadsAs not_understood line_says (meaning line.now) result }
{
    call_fields(line)
        .map(|fields| read_call(heap, fields))
        .transpose()
}
