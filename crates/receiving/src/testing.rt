// The codeword test.
ghost use Rattle.readings.specs.Places.{Finds};
ghost use Rattle.receiving.specs.Tests.{Tests};

use crate::received::Received;
use crate::sums::Sums;
use readings::Hard;
use refusals::Refusal;

// Whether the reading's bits are a codeword of the code of that number.
// `number` is any 32-bit number, as the calls of docs/ take it; inside it is a Code.
pub fn is_codeword<R: Hard>(reading: &R, number: u32) -> Result<bool, Refusal>
    ensures call { Tests (R.Hard.places reading.now) number result }
    ensures lowest { Finds }
{
    let received = Received::of(reading, number)?;
    let sums = Sums::of(&received);
    Ok(sums.vanish(received.code()))
}
