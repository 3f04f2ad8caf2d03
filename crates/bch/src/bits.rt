// Numbers as bits in their places, the lowest bit first.
ghost use Rattle.std.specs.Prelude.{◌≡◌, ◌≤◌, length};
ghost use Rattle.galois.specs.Polynomials.{bits, number};

// The number whose bit i is the bit at place i.
pub fn number_of(places: &[bool]) -> u32
    requires { length places.now ≤ 32 }
    ensures { result ≡ number places.now }
{
    let mut value = 0;
    for place in places.iter().rev() {
        value = value * 2 + u32::from(*place);
    }
    value
}

// The lowest bits of a number, as many as there are places.
pub fn lay_number(value: u32, places: &mut [bool])
    ensures { places.new ≡ bits (length places.old) value }
{
    let mut rest = value;
    for place in places {
        *place = rest % 2 == 1;
        rest /= 2;
    }
}
