ghost use Rattle.std.specs.Prelude.{◌≡◌, ◌*◌, take};
ghost use Rattle.bch.specs.Codes.{code_number};
ghost use Rattle.weak.specs.Lists.{listed};

use super::{Places, WeakList};
use bch::Code;
use order::KEPT;

impl WeakList {
    // The first 2t of the places.
    #[tactic(auto, unfolding(crate::specs::Lists::listed))]
    pub(crate) fn new(code: Code, places: [usize; KEPT]) -> WeakList
        ensures { listed result ≡ take (2 * code_number code) places }
    {
        let places = match code {
            Code::Two => {
                // Not [four @ .., _, _]: tried, and the borrow checker "does not cover .. a value that is not a scalar".
                let [first, second, third, fourth, _, _] = places;
                Places::Four([first, second, third, fourth])
            }
            Code::Three => Places::Six(places),
        };
        WeakList { places }
    }

    // The places, weakest first.
    #[tactic(auto, unfolding(crate::specs::Lists::listed))]
    pub fn places(&self) -> &[usize]
        ensures { result.now ≡ listed self.now }
    {
        match &self.places {
            Places::Four(places) => places,
            Places::Six(places) => places,
        }
    }
}
