ghost use Rattle.std.specs.Prelude.{◌≡◌, slice_index};
ghost use Rattle.refusals.specs.Refusals.{outcome, nothing, returned};

use super::refusal::Refusal;

// The number that two makers' receivers know the refusal by.
impl From<Refusal> for u8 {
    ghost from_gives = { λ refusal number. number ≡ slice_index (returned refusal) 0 };

    fn from(refusal: Refusal) -> u8 {
        match refusal {
            Refusal::UnknownCode => 1,
            Refusal::WrongLength => 2,
            Refusal::Unsound { place: _ } => 3,
            Refusal::Unreadable => 4,
            Refusal::NoMessage => 5,
            Refusal::CountFull => 6,
            Refusal::TallyFull => 7,
            Refusal::NoLine => 8,
            Refusal::ShortOutput => 9,
        }
    }
}

// The number that a call returned whose answer is nothing else: 0 where it was accepted.
// A function, since neither Result nor u8 is ours, and so no From can be written.
pub fn outcome_number(answer: &Result<(), Refusal>) -> u8
    ensures { result ≡ slice_index (outcome nothing answer.now) 0 }
{
    match answer {
        Ok(()) => 0,
        Err(refusal) => u8::from(*refusal),
    }
}
