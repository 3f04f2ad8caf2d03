// Bytes on the way to a tag: records that hold messages, and samples that hold words.
#![tactic(auto)]

ghost use Rattle.std.specs.Prelude.{◌≡◌, map};
ghost use Rattle.wire.specs.Bytes.{record_words, sample, Sends};

use bch::{Code, MESSAGE_WORDS, PLACES};
use codes::{Word, encode};
use refusals::Refusal;
use std::array;

// The bytes of a 32-bit word.
const BYTES_IN_WORD: usize = 4;

// The bytes of a record, which holds a message.
pub const RECORD_BYTES: usize = BYTES_IN_WORD * MESSAGE_WORDS;

// The code that `send` encodes under.
const SEND_CODE: Code = Code::Two;

// The words in a record, the high byte of each first.
pub fn record_words(bytes: &[u8; RECORD_BYTES]) -> [u32; MESSAGE_WORDS]
    ensures { result ≡ record_words bytes.now }
{
    let (words, _) = bytes.as_chunks::<BYTES_IN_WORD>();
    array::from_fn(|i| u32::from_be_bytes(words[i]))
}

// A bit as a sample: 127 for one, -127 for zero.
// No From: u8::from(bool) is the library's, and gives 0 or 1.
fn sample_of(bit: bool) -> u8
    ensures { result ≡ sample bit }
{
    if bit { 0x7F } else { 0x81 }
}

// Each place as a sample, into the caller's memory. Not `bits.map(sample_of)`, which goes over the places three times; nor a zip, since
// after an adapter of `iter_mut` a proof knows nothing of what was written.
pub fn lay_samples(bits: &[bool; PLACES], samples: &mut [u8; PLACES])
    ensures { samples.new ≡ map sample bits.now }
{
    for (place, sample) in samples.iter_mut().enumerate() {
        *sample = sample_of(bits[place]);
    }
}

// The samples of the message in a record.
// Into the caller's memory, and not in the answer: `Sends` says what is in it after a refusal too.
pub fn send_record(bytes: &[u8; RECORD_BYTES], samples: &mut [u8; PLACES]) -> Result<(), Refusal>
    ensures { Sends bytes.now samples.old samples.new result }
{
    let words = record_words(bytes);
    let mut word = Word::new();
    encode(&words, u32::from(SEND_CODE), &mut word)?;
    lay_samples(word.bits(), samples);
    Ok(())
}
