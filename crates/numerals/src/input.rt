// Numbers, words and bytes as they are written in a script.
ghost use Rattle.std.specs.Prelude.{◌≡◌, ◌^◌, length, vec_items};
ghost use Rattle.line_fields.specs.Reads.{Reads};
ghost use Rattle.numerals.specs.Numerals.{and_then, below, hex_digit, digit_in, numeral, short_numeral, hex_word, code_text, hex_byte, hex_pairs, hex_bytes};

use line_fields::Unread;
use std::alloc::Global;

const MAX_HEX_DIGITS: usize = 8;

const MAX_CODE_DIGITS: usize = 10;

// The value of a hex digit of either case.
fn hex_digit(b: u8) -> Option<u32>
    ensures { result ≡ hex_digit b }
{
    char::from(b).to_digit(16)
}

// The value of a digit in a base up to 16.
// Not to_digit(base), which requires a base of 2 to 36.
fn digit_in(base: u32, b: u8) -> Option<u32>
    ensures { result ≡ digit_in base b }
{
    hex_digit(b).filter(|d| *d < base)
}

// The number that digits write, high digit first, if it is below 2^32.
// Not u32::from_str_radix: it takes text and not bytes, and a + before the digits.
#[tactic(auto, using(crate::proofs::Reading::digit_steps))]
fn number(base: u32, field: &[u8]) -> Option<u32>
    ensures { result ≡ and_then (numeral base field.now) (below (2 ^ 32)) }
{
    let mut n = 0u32;
    for b in field {
        n = n.checked_mul(base)?.checked_add(digit_in(base, *b)?)?;
    }
    Some(n)
}

// The same of one to `most` digits.
fn short_number(base: u32, most: usize, field: &[u8]) -> Option<u32>
    ensures { result ≡ short_numeral base most field.now }
{
    if field.is_empty() || field.len() > most {
        None
    } else {
        number(base, field)
    }
}

// A field that is a WORD: one to eight hex digits.
#[tactic(auto, using(crate::proofs::Reading::hex_word_is))]
pub fn hex_word(field: &[u8]) -> Option<u32>
    ensures { result ≡ hex_word field.now }
{
    short_number(16, MAX_HEX_DIGITS, field)
}

// A field that is a CODE: one to ten decimal digits with a value below 2^32.
#[tactic(auto, unfolding(crate::specs::Numerals::code_text))]
pub fn code_number(field: &[u8]) -> Option<u32>
    ensures { result ≡ code_text field.now }
{
    short_number(10, MAX_CODE_DIGITS, field)
}

// The byte that two hex digits write, high digit first.
fn hex_byte(high: u8, low: u8) -> Option<u8>
    ensures { result ≡ hex_byte high low }
{
    let h = hex_digit(high)?;
    let l = hex_digit(low)?;
    Some((h * 16 + l) as u8)
}

// Hex digits as bytes, two digits a byte.
// Not the kit's crate hex: the rule of BYTES stands in specs/, and that crate brings a second one.
fn hex_pairs(heap: Global, digits: &[u8]) -> Result<Vec<u8>, Unread>
    ensures { Reads vec_items (hex_pairs digits.now) result }
{
    let (pairs, odd) = digits.as_chunks::<2>();
    let mut bytes = Vec::new(heap);
    for [high, low] in pairs {
        bytes.push(hex_byte(*high, *low).ok_or(Unread::NotUnderstood)?)?;
    }
    // After the pairs: want of memory for their bytes is told first.
    if !odd.is_empty() {
        return Err(Unread::NotUnderstood);
    }
    Ok(bytes)
}

// A field that is BYTES: two hex digits a byte, or `-` for no bytes.
#[tactic(auto, using(std::proofs::lemmas::Slice::Eq::text_from_reads), unfolding(crate::specs::Numerals::hex_bytes))]
pub fn hex_bytes(heap: Global, field: &[u8]) -> Result<Vec<u8>, Unread>
    ensures { Reads vec_items (hex_bytes field.now) result }
{
    match field {
        [] => Err(Unread::NotUnderstood),
        b"-" => Ok(Vec::new(heap)),
        digits => hex_pairs(heap, digits),
    }
}
