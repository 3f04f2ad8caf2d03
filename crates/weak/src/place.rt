// A strength with its place, ordered by strength and then by the tie rule.
ghost use Rattle.std.specs.Prelude.{◌≡◌};
ghost use Rattle.weak.specs.Turns.{tie, weak_at_most};
ghost use Rattle.weak.specs.InTurns.{turn_total, turn_transitive};

use order::Ordered;
use readings::Strength;

#[derive(Clone, Copy)]
pub struct WeakPlace<S> {
    pub strength: S,
    pub place: usize,
}

// Decides a tie between two places of equal strength. A function of its own, so that the tie rule stands in one place.
#[tactic(auto, unfolding(crate::specs::Turns::tie))]
fn wins_tie(place: usize, other: usize) -> bool
    ensures { result ≡ tie place other }
{
    place <= other
}

// By hand, and no derived Ord: strengths have none, and where they are equal the tie rule decides.
impl<S: Strength> Ordered for WeakPlace<S> {
    ghost at_most = { weak_at_most S.Ordered.at_most };

    ghost total = { turn_total (λ a b. S.Ordered.at_most a.strength b.strength) (λ a. a.place) (λ a b. S.Ordered.total a.strength b.strength) };

    ghost transitive = { turn_transitive (λ a b. S.Ordered.at_most a.strength b.strength) (λ a. a.place)
        (λ a b c. S.Ordered.transitive a.strength b.strength c.strength) };

    fn is_at_most(&self, other: &WeakPlace<S>) -> bool {
        self.strength.is_at_most(&other.strength)
            && (!other.strength.is_at_most(&self.strength) || wins_tie(self.place, other.place))
    }
}
