// The places of least strength, kept as the reading is asked place by place.
ghost use Rattle.std.specs.Prelude.{◌≡◌, ◌*◌, map};
ghost use Rattle.order.specs.Kept.{slots};
ghost use Rattle.readings.specs.Burst.{burst};
ghost use Rattle.bch.specs.Codes.{code_number};
ghost use Rattle.receiving.specs.Causes.{Whole};
ghost use Rattle.weak.specs.Lists.{KeepsWeakest, place_in, listed, WeakListOf};

use crate::list::WeakList;
use crate::place::WeakPlace;
use bch::{Code, PLACES};
use order::{KEPT, Kept};
use readings::{Soft, Strength};
use std::array;

// Asks every place's strength once, and keeps the weakest. Every place is sound, so each has one.
// By number: a reading is asked, and there is nothing to go through.
// The burst is written out: as a ghost member of Soft with a default, an impl could give another, and the clause would say less.
fn keep<R: Soft>(reading: &R) -> Kept<WeakPlace<R::Kind>>
    requires { Whole (R.places reading.now) }
    ensures { KeepsWeakest (burst R.Soft R.Kind.Ordered reading.now) (R.strengths reading.now) result }
{
    let mut least = Kept::new();
    for place in 0..PLACES {
        if let Some(strength) = reading.strength(place) {
            least.offer(WeakPlace { strength, place });
        }
    }
    least
}

// The places of what is kept. By number, as the six are single; a slot of a whole reading is never empty, and 0 stands for
// what an empty one would have.
fn kept_places<S: Strength>(least: &Kept<WeakPlace<S>>) -> [usize; KEPT]
    ensures { result ≡ map place_in (slots least.now) }
{
    array::from_fn(|slot| least.at(slot).map_or(0, |weak| weak.place))
}

// The weak list of a reading of 255 sound places. The burst is written out, as at `keep`.
pub fn weakest<R: Soft>(reading: &R, code: Code) -> WeakList
    requires { Whole (R.places reading.now) }
    ensures { WeakListOf (2 * code_number code) (burst R.Soft R.Kind.Ordered reading.now) (listed result) }
{
    let least = keep(reading);
    WeakList::new(code, kept_places(&least))
}
