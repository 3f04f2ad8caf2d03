// The lines of a script.
ghost use Rattle.std.specs.Prelude.{◌≡◌, vec_items};
ghost use Rattle.std.specs.Option.{option_map};
ghost use Rattle.line_fields.specs.Left.{left};
ghost use Rattle.line_fields.specs.Reads.{ReadsAs, Reads};
ghost use Rattle.script_text.specs.Lines.{not_understood, hex_words, encode_row, call_row, call, call_text, quiet, meaning};
ghost use Rattle.script_text.specs.Seen.{says, line_says};

use line_fields::{Fields, Unread, without_return};
use numerals::{code_number, hex_word};
use std::alloc::Global;

const COMMENT: u8 = b'#';

// What a line of a script asks for.
#[derive(Debug, Drop)]
pub enum Call {
    // A number and no Code: one that no code has is refused when the call is made, not when the line is read.
    Encode { code: u32, words: Vec<u32> },
    Take,
}

// The words that are left of a line.
#[tactic(auto, using(crate::proofs::Rows::no_word))]
fn words_left(heap: Global, fields: Fields) -> Result<Vec<u32>, Unread>
    ensures { Reads vec_items (hex_words (left fields.entry)) result }
{
    let mut words = Vec::new(heap);
    for field in fields {
        words.push(hex_word(field).ok_or(Unread::NotUnderstood)?)?;
    }
    Ok(words)
}

// encode CODE WORD..
#[tactic(auto, unfolding(crate::specs::Lines::encode_row))]
fn encode_row(heap: Global, mut fields: Fields) -> Result<Call, Unread>
    ensures { ReadsAs not_understood says (encode_row (left fields.entry)) result }
{
    // A closure and not the function's name: the check finds no contract of another crate's function as a value.
    let code = fields
        .next()
        .and_then(|field| code_number(field))
        .ok_or(Unread::NotUnderstood)?;
    let words = words_left(heap, fields)?;
    Ok(Call::Encode { code, words })
}

// A call by its name and the fields after it.
#[tactic(auto, using(std::proofs::lemmas::Slice::Eq::text_from_reads), unfolding(crate::specs::Lines::call_row, crate::specs::Lines::bare_row))]
pub fn named_call(heap: Global, name: &[u8], mut fields: Fields) -> Result<Call, Unread>
    ensures { ReadsAs not_understood says (call_row name.now (left fields.entry)) result }
{
    match name {
        b"encode" => encode_row(heap, fields),
        b"take" if fields.next().is_none() => Ok(Call::Take),
        _ => Err(Unread::NotUnderstood),
    }
}

// A call by its fields, the first of which is its name.
pub fn read_call(heap: Global, mut fields: Fields) -> Result<Call, Unread>
    ensures { ReadsAs not_understood says (call (left fields.entry)) result }
{
    let name = fields.next().ok_or(Unread::NotUnderstood)?;
    named_call(heap, name, fields)
}

// Whether a text is empty or a comment.
#[tactic(auto, using(crate::proofs::Rows::quiet_none, crate::proofs::Rows::quiet_some))]
fn is_quiet(text: &[u8]) -> bool
    ensures { result ≡ quiet text.now }
{
    matches!(text, [] | [COMMENT, ..])
}

// The fields of a line's call, or `None` where it says nothing.
#[tactic(auto, unfolding(crate::specs::Lines::call_text))]
pub fn call_fields(line: &[u8]) -> Option<Fields<'_>>
    ensures { option_map left result ≡ call_text line.now }
{
    let text = without_return(line);
    if is_quiet(text) {
        None
    } else {
        Some(Fields::new(text))
    }
}

// Reads a line of a script, or gives `None` where it says nothing.
#[tactic(auto, using(crate::proofs::Rows::no_call, crate::proofs::Rows::one_call))]
pub fn parse(heap: Global, line: &[u8]) -> Result<Option<Call>, Unread>
    ensures { ReadsAs not_understood line_says (meaning line.now) result }
{
    call_fields(line)
        .map(|fields| read_call(heap, fields))
        .transpose()
}
