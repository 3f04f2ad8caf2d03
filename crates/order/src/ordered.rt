ghost use Rattle.std.specs.Prelude.{◌≡◌, Bool, true, false};

// Elements of one kind, compared by an order. No `Ord`: it wants `==` exactly where elements compare both ways, and two lost places
// of different levels compare both ways and are not the same.
pub trait Ordered {
    // the first stands no later than the second
    ghost at_most: { Self → Self → Bool };

    // Answers by the order.
    fn is_at_most(&self, other: &Self) -> bool
        ensures { result ≡ at_most self.now other.now };

    // any two compare one way or the other
    ghost total: { (a b : Self) → at_most a b ≡ false → at_most b a ≡ true };

    ghost transitive: { (a b c : Self) → at_most a b ≡ true → at_most b c ≡ true → at_most a c ≡ true };
}
