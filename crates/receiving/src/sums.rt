// The odd syndromes of a word. The even ones are squares of these.
ghost use Rattle.std.specs.Prelude.{◌≡◌, ◌<◌, Bool, List, [], length};
ghost use Rattle.bch.specs.Codes.{places, Codeword};
ghost use Rattle.receiving.specs.Receiving.{received_bits};
ghost use Rattle.receiving.specs.Syndromes.{SumsOf, Flips, OddVanish};
ghost use Rattle.receiving.specs.Tests.{Says};

use crate::received::Received;
use bch::{Code, PLACES};
use field::{Element, power};

// The sums of α^i, α^(3i) and α^(5i) over the places i that hold one.
#[derive(Clone, Copy, PartialEq, Eq, Debug, Default)]
pub struct Sums {
    pub one: Element,
    pub three: Element,
    pub five: Element,
}

impl Sums {
    // Those of the empty word; places are added one by one. It is Default, with a clause that says so.
    pub fn new() -> Sums
        ensures { SumsOf [] result }
    {
        Sums::default()
    }

    // Those of the received word. By name, and no From: it adds up 255 places, and is no change of form.
    pub fn of(received: &Received) -> Sums
        ensures { SumsOf (received_bits received.now) result }
    {
        let mut sums = Sums::new();
        // Places are asked by number, so that a received word may hold its bits as it likes.
        for place in 0..PLACES {
            if received.bit(place) {
                sums.flip(place);
            }
        }
        sums
    }

    // Adds what a one at the place adds to each; a second time takes it away again.
    // Three by name: an array and a loop over 1, 3, 5 would be no shorter.
    pub fn flip(&mut self, place: usize)
        requires { place < places }
        ensures { Flips place self.old self.new }
    {
        let k = place as u32;
        self.one ^= power(k);
        self.three ^= power(k * 3);
        self.five ^= power(k * 5);
    }

    // Whether those below 2t are zero. The sums of a word vanish exactly when it is a codeword.
    // By name, and not compared with the empty word's: under code 2 the fifth sum is not asked, and so the two rows stay alike.
    pub fn vanish(&self, code: Code) -> bool
        ensures sums { Says result (OddVanish code self.now) }
        ensures codeword { (w : List Bool) → length w ≡ places → SumsOf w self.now → Says result (Codeword code w) }
    {
        match code {
            Code::Two => self.one == 0 && self.three == 0,
            Code::Three => self.one == 0 && self.three == 0 && self.five == 0,
        }
    }
}
