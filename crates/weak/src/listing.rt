// The weak list as a call.
ghost use Rattle.readings.specs.Burst.{burst, Lawful};
ghost use Rattle.weak.specs.Lists.{Lists};

use crate::keeping::weakest;
use crate::list::WeakList;
use readings::Soft;
use receiving::Received;
use refusals::Refusal;

// The weak list of a reading under the code of that number.
// Any 32-bit number, as the calls of docs/ take it; inside it is a Code. The burst is written out, as at `keep`.
pub fn weak_list<R: Soft>(reading: &R, number: u32) -> Result<WeakList, Refusal>
    ensures call { Lists (burst R.Soft R.Kind.Ordered reading.now) number result }
    ensures lawful { Lawful (burst R.Soft R.Kind.Ordered reading.now) }
{
    // Received for its refusals and its code; its bits are not used.
    let received = Received::of(reading, number)?;
    Ok(weakest(reading, received.code()))
}
