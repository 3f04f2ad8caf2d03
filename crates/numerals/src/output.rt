// Words and bytes as they are printed.
ghost use Rattle.std.specs.Prelude.{◌≡◌, ◌*◌, ◌%◌, ◌≤◌, length, take, Some, MatchResult};
ghost use Rattle.std.specs.Str.{IsUtf8};
ghost use Rattle.numerals.specs.Numerals.{hex_word, upper_digit, hex_text, bytes_text};

use std::fmt;

// How many bytes are turned into digits at once: as many as a packed word of 255 places has.
const RUN: usize = 32;

// The upper-case hex digit of the lowest four bits.
fn last_digit(x: u32) -> u8
    ensures { result ≡ upper_digit (x % 16) }
{
    let d = (x % 16) as u8;
    if d < 10 { b'0' + d } else { b'A' - 10 + d }
}

// The last N hex digits of a word, in upper case, high digit first: 8 are the whole word, 2 a byte. It asks no formatter, so it cannot fail.
// The digits come from the lowest up, and are turned round.
pub fn hex_text<const N: usize>(x: u32) -> [u8; N]
    ensures text { result ≡ hex_text N x }
    ensures reads_back { N ≡ 8 → hex_word result ≡ Some x }
{
    let mut text = [0; N];
    let mut rest = x;
    for digit in text.iter_mut() {
        *digit = last_digit(rest);
        rest /= 16;
    }
    text.reverse();
    text
}

// Digits, and what stands between them, as text. An error where the bytes are no text, which digits never are.
pub fn as_text(digits: &[u8]) -> Result<&str, fmt::Error>
    ensures { MatchResult result (λ text. text.now ≡ digits.now) (λ _. IsUtf8 digits.now → ⊥) }
{
    str::from_utf8(digits).map_err(|_| fmt::Error)
}

// A word as it is printed: eight upper-case hex digits, high digit first.
#[derive(Clone, Copy)]
pub struct HexWord(u32);

impl HexWord {
    // What is printed of a word reads back as the word.
    #[tactic(auto, using(crate::proofs::Writing::word_reads_back))]
    pub fn new(word: u32) -> HexWord
        ensures word { result.0 ≡ word }
        ensures reads_back { hex_word (hex_text 8 word) ≡ Some word }
    {
        HexWord(word)
    }

    // What is printed of the word.
    pub fn digits(self) -> [u8; 8]
        ensures { result ≡ hex_text 8 self.0 }
    {
        hex_text::<8>(self.0)
    }
}

impl fmt::Display for HexWord {
    ghost output = { λ h. Some (hex_text 8 h.0) };

    fn fmt<W: fmt::Write>(&self, f: &mut fmt::Formatter<W>) -> fmt::Result {
        f.write_str(as_text(&self.digits())?)
    }
}

// Bytes as they are printed: two upper-case hex digits each, in order.
#[derive(Clone, Copy)]
pub struct HexBytes<'a>(pub &'a [u8]);

// The digits of bytes, in the places below twice their number. They are put together so that a text of them is made once.
fn digits_of(bytes: &[u8]) -> [u8; 2 * RUN]
    requires { length bytes.now ≤ RUN }
    ensures { take (2 * length bytes.now) result ≡ bytes_text bytes.now }
{
    let mut digits = [0; 2 * RUN];
    for (i, byte) in bytes.iter().enumerate() {
        digits[2 * i..2 * i + 2].copy_from_slice(&hex_text::<2>(u32::from(*byte)));
    }
    digits
}

impl fmt::Display for HexBytes<'_> {
    ghost output = { λ h. Some (bytes_text h.0.now) };

    #[tactic(auto, unfolding(crate::specs::Numerals::bytes_text))]
    fn fmt<W: fmt::Write>(&self, f: &mut fmt::Formatter<W>) -> fmt::Result {
        for run in self.0.chunks(RUN) {
            let digits = digits_of(run);
            f.write_str(as_text(&digits[..2 * run.len()])?)?;
        }
        Ok(())
    }
}
