// Bytes as places with their strengths.
ghost use Rattle.std.specs.Prelude.{◌≡◌, true, false, [], ◌∷◌, Some, None, slice_index};
ghost use Rattle.readings.specs.declared.grade.Class.TheVariants.{Clear};
ghost use Rattle.readings.specs.SignedBytes.{signed_place, signed_strength};
ghost use Rattle.readings.specs.GradedBytes.{graded_place, graded_strength};
ghost use Rattle.readings.specs.Strengths.{grade_at_most};

// Graded bytes: a one in class 2 (clear) at level 5; an unsound place; two lost places, which are equal in strength.
pub fn graded_bytes() -> [u8; 4]
    ensures values { result ≡ 0xC5 ∷ 0x60 ∷ 0x00 ∷ 0x1F ∷ [] }
    ensures one { graded_place (slice_index result 0) ≡ Some true }
    ensures clear { graded_strength (slice_index result 0) ≡ record { class = Clear; level = 5 } }
    ensures unsound { graded_place (slice_index result 1) ≡ None }
    ensures no_stronger { grade_at_most (graded_strength (slice_index result 3)) (graded_strength (slice_index result 2)) ≡ true }
    ensures no_weaker { grade_at_most (graded_strength (slice_index result 2)) (graded_strength (slice_index result 3)) ≡ true }
{
    [0xC5, 0x60, 0x00, 0x1F]
}

// The signed byte of the sample -128: bit zero of strength 128.
pub fn least_sample() -> u8
    ensures value { result ≡ 0x80 }
    ensures zero { signed_place result ≡ Some false }
    ensures strength { (signed_strength result).value ≡ 128 }
{
    0x80
}
