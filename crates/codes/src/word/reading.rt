ghost use Rattle.codes.specs.Calls.{word_places};

use super::Word;
use bch::PLACES;
use readings::Hard;

// The corrected word as a hard reading.
#[tactic(auto, unfolding(crate::specs::Calls::word_places))]
impl Hard for Word {
    ghost places = { word_places };

    fn len(&self) -> usize {
        PLACES
    }

    fn bit(&self, place: usize) -> Option<bool> {
        self.bits.get(place).copied()
    }
}
