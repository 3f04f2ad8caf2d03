ghost use Rattle.std.specs.Prelude.{◌≡◌};
ghost use Rattle.galois.specs.Field.{nonzeros};
ghost use Rattle.field.specs.Bytes.{bytes};
ghost use Rattle.bch.specs.Codes.{places, code_number, parity, generator, CodeOf, Generates, Checks};

use super::code::Code;
use refusals::Refusal;

// The code that has this number.
impl TryFrom<u32> for Code {
    type Error = Refusal;

    ghost try_from_gives = { CodeOf };

    fn try_from(number: u32) -> Result<Code, Refusal> {
        match number {
            2 => Ok(Code::Two),
            3 => Ok(Code::Three),
            _ => Err(Refusal::UnknownCode),
        }
    }
}

impl From<Code> for u32 {
    ghost from_gives = { λ code number. number ≡ code_number code };

    fn from(code: Code) -> u32 {
        code as u32
    }
}

impl Code {
    // How many places at the bottom of a word are parity.
    pub fn parity(self) -> usize
        ensures { result ≡ parity self }
    {
        match self {
            Code::Two => 16,
            Code::Three => 24,
        }
    }

    // The generator polynomial, bit i the coefficient of x^i.
    pub fn generator(self) -> u32
        ensures value { result ≡ generator self }
        ensures generates { Generates self result }
        ensures checks { Checks self result }
        ensures places { places ≡ nonzeros bytes }
    {
        match self {
            Code::Two => 0x16F63,
            Code::Three => 0x1BBA1B5,
        }
    }
}
