// An element on its way through the slots.
ghost use Rattle.std.specs.Prelude.{◌≡◌, List, ◌∷◌, Some, Option};
ghost use Rattle.order.specs.Slots.{slot_at_most};
ghost use Rattle.order.specs.Steps.{carried_into};

use crate::ordered::Ordered;

// What goes on to the next slot: the new element, still to be compared, or what the last slot held, to be moved on.
// Not an Option alone: what was moved on is not compared again, so elements that are equal in the order keep their turn.
#[derive(Drop)]
pub(crate) enum Carried<E> {
    New(E),
    Moved(Option<E>),
}

// Whether the slot stays where it is when x comes.
pub(crate) fn stays<E: Ordered>(slot: &Option<E>, x: &E) -> bool
    ensures { result ≡ slot_at_most E.Ordered.at_most slot.now (Some x.now) }
{
    slot.as_ref().is_some_and(|element| element.is_at_most(x))
}

// Passes one slot: what stands in it then, and what goes on.
#[tactic(auto, unfolding(crate::specs::Order::insert))]
pub(crate) fn pass<E: Ordered + Copy>(
    slot: Option<E>,
    carried: Carried<E>,
) -> (Option<E>, Carried<E>)
    ensures { (rest : List (Option E)) → carried_into (slot_at_most E.Ordered.at_most) carried (slot ∷ rest)
        ≡ result.0 ∷ carried_into (slot_at_most E.Ordered.at_most) result.1 rest }
{
    match carried {
        Carried::New(x) => {
            if stays(&slot, &x) {
                (slot, Carried::New(x))
            } else {
                (Some(x), Carried::Moved(slot))
            }
        }
        Carried::Moved(moved) => (moved, Carried::Moved(slot)),
    }
}
