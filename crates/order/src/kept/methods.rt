ghost use Rattle.std.specs.Prelude.{◌≡◌, take, replicate, Some, None, slice_index_or};
ghost use Rattle.order.specs.Order.{InOrder, insert};
ghost use Rattle.order.specs.Kept.{slots};
ghost use Rattle.order.specs.Slots.{slot_at_most, slot_count};

use super::Kept;
use crate::carrying::{Carried, pass, stays};
use crate::ordered::Ordered;

impl<E: Ordered + Copy> Kept<E> {
    // No element yet.
    #[tactic(auto, unfolding(crate::specs::Kept::slots))]
    pub fn new() -> Kept<E>
        ensures { slots result ≡ replicate slot_count None }
    {
        Kept {
            first: None,
            second: None,
            third: None,
            fourth: None,
            fifth: None,
            sixth: None,
        }
    }

    // The element in a slot. One by one, as the six are single.
    #[tactic(auto, unfolding(crate::specs::Kept::slots))]
    pub fn at(&self, slot: usize) -> Option<E>
        ensures { result ≡ slice_index_or (slots self.now) slot None }
    {
        match slot {
            0 => self.first,
            1 => self.second,
            2 => self.third,
            3 => self.fourth,
            4 => self.fifth,
            5 => self.sixth,
            _ => None,
        }
    }

    // Inserts an element in order; the seventh is let go.
    pub fn offer(&mut self, x: E)
        ensures kept { slots self.new ≡ take slot_count (insert (slot_at_most E.Ordered.at_most) (Some x) (slots self.old)) }
        ensures order { InOrder (slot_at_most E.Ordered.at_most) (slots self.new) }
    {
        // Most elements come after all that are kept.
        if stays(&self.sixth, &x) {
            return;
        }
        let (first, carried) = pass(self.first, Carried::New(x));
        let (second, carried) = pass(self.second, carried);
        let (third, carried) = pass(self.third, carried);
        let (fourth, carried) = pass(self.fourth, carried);
        let (fifth, carried) = pass(self.fifth, carried);
        let (sixth, _) = pass(self.sixth, carried);
        *self = Kept {
            first,
            second,
            third,
            fourth,
            fifth,
            sixth,
        };
    }
}
