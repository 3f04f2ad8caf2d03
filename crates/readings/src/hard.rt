ghost use Rattle.std.specs.Prelude.{◌≡◌, Bool, List, length, None, Option, slice_index_or};

// A hard reading: bits by place.
pub trait Hard {
    // its places, each unsound or a bit
    ghost places: { Self → List (Option Bool) };

    // The number of places.
    fn len(&self) -> usize
        ensures { result ≡ length (places self.now) };

    // The bit at a place; absent exactly beyond the last place and at an unsound one.
    fn bit(&self, place: usize) -> Option<bool>
        ensures { result ≡ slice_index_or (places self.now) place None };
}
