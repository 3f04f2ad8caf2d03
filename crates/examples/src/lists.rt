// Weak lists.
ghost use Rattle.std.specs.Prelude.{◌≡◌, ◌*◌, [], ◌∷◌, length, take};
ghost use Rattle.readings.specs.Burst.{Burst};
ghost use Rattle.bch.specs.declared.code.Code.TheVariants.{Two, Three};
ghost use Rattle.bch.specs.Codes.{places, code_number};
ghost use Rattle.weak.specs.Lists.{WeakListOf};
ghost use Rattle.examples.specs.Strengths.{AllEqual};

// With all strengths equal the weak list is the first four of these places in code 2, and all six in code 3.
pub fn equal_strengths() -> [usize; 6]
    ensures values { result ≡ 0 ∷ 1 ∷ 2 ∷ 3 ∷ 4 ∷ 5 ∷ [] }
    ensures two { (b : Burst) → length b.places ≡ places → AllEqual b → WeakListOf (2 * code_number Two) b (take 4 result) }
    ensures three { (b : Burst) → length b.places ≡ places → AllEqual b → WeakListOf (2 * code_number Three) b result }
{
    [0, 1, 2, 3, 4, 5]
}
