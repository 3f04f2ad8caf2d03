ghost use Rattle.std.specs.Prelude.{◌≡◌, ◌<◌, false, length, slice_index_or};
ghost use Rattle.bch.specs.Codes.{places};
ghost use Rattle.receiving.specs.Receiving.{received_bits, Copies, Receives};

use super::Received;
use bch::{Code, PLACES};
use readings::Hard;
use refusals::Refusal;

// The bits of a reading of 255 places; each place is asked once, from the lowest up to the first unsound one.
// Not array::try_from_fn: its contract gives an index of the error, and not that it is the lowest.
fn copied<R: Hard>(reading: &R) -> Result<[bool; PLACES], Refusal>
    requires { length (R.Hard.places reading.now) ≡ places }
    ensures { Copies (R.Hard.places reading.now) result }
{
    let mut bits = [false; PLACES];
    for (place, slot) in bits.iter_mut().enumerate() {
        *slot = reading.bit(place).ok_or(Refusal::Unsound { place })?;
    }
    Ok(bits)
}

impl Received {
    // The received word of a reading, under the code of that number.
    // `number` is any 32-bit number, as the calls of docs/ take it; inside it is a Code.
    pub fn of<R: Hard>(reading: &R, number: u32) -> Result<Received, Refusal>
        ensures { Receives (R.Hard.places reading.now) number result }
    {
        let code = Code::try_from(number)?;
        if reading.len() != PLACES {
            return Err(Refusal::WrongLength);
        }
        let bits = copied(reading)?;
        Ok(Received { code, bits })
    }

    pub fn code(&self) -> Code
        ensures { result ≡ self.now.code }
    {
        self.code
    }

    // The bit at a place.
    #[tactic(auto, unfolding(crate::specs::Receiving::received_bits))]
    pub fn bit(&self, place: usize) -> bool
        requires { place < places }
        ensures { result ≡ slice_index_or (received_bits self.now) place false }
    {
        self.bits[place]
    }
}
