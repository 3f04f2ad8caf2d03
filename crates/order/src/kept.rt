ghost use Rattle.std.specs.Prelude.{[], ◌∷◌};
ghost use Rattle.order.specs.Order.{InOrder};
ghost use Rattle.order.specs.Slots.{slot_at_most};

use crate::ordered::Ordered;

mod methods;

// How many are kept.
pub const KEPT: usize = 6;

// Six kept elements, in order. They are single, and no array, as is asked of this project: `offer` names each that it passes.
#[derive(Drop)]
pub struct Kept<E: Ordered> {
    first: Option<E>,
    second: Option<E>,
    third: Option<E>,
    fourth: Option<E>,
    fifth: Option<E>,
    sixth: Option<E>,
    ghost in_order: { InOrder (slot_at_most E.at_most) (first ∷ second ∷ third ∷ fourth ∷ fifth ∷ sixth ∷ []) },
}
