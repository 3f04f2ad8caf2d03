// A class and a level as a strength.
ghost use Rattle.std.specs.Prelude.{◌≡◌};
ghost use Rattle.std.specs.Option.{ok_or};
ghost use Rattle.readings.specs.GradedBytes.{class_of, graded_class, graded_place, graded_strength};
ghost use Rattle.readings.specs.Places.{where_sound};
ghost use Rattle.readings.specs.Strengths.{class_number, grade_at_most};
ghost use Rattle.std.proofs.Common.{rules};

use crate::strength::Strength;
use order::Ordered;

// How well a place was received, the weakest first.
#[derive(Clone, Copy, Debug, PartialEq, Eq, PartialOrd, Ord)]
pub enum Class {
    Lost = 0,
    Faded = 1,
    Clear = 2,
}

// A number that no class has.
#[derive(Clone, Copy, Debug, PartialEq, Eq)]
pub struct UnknownClass(pub u8);

impl TryFrom<u8> for Class {
    type Error = UnknownClass;

    ghost try_from_gives = { λ number r. r ≡ ok_or (class_of number) (record { 0 = number }) };

    fn try_from(number: u8) -> Result<Class, UnknownClass> {
        match number {
            0 => Ok(Class::Lost),
            1 => Ok(Class::Faded),
            2 => Ok(Class::Clear),
            _ => Err(UnknownClass(number)),
        }
    }
}

impl From<Class> for u8 {
    ghost from_gives = { λ class number. number ≡ class_number class };

    fn from(class: Class) -> u8 {
        class as u8
    }
}

impl Class {
    // The class of a graded byte. By name, as `Magnitude::of`: a class has numbers of its own, 0 to 2.
    pub fn of_byte(byte: u8) -> Option<Class>
        ensures { result ≡ graded_class byte }
    {
        Class::try_from((byte >> 5) % 4).ok()
    }
}

// A class with a level in it. `==` compares both; `is_at_most` calls all lost grades equal.
#[derive(Clone, Copy, Debug, PartialEq, Eq)]
pub struct Grade {
    pub class: Class,
    pub level: u8,
}

impl Grade {
    // The grade of a byte, if it has a class. By name, as `Magnitude::of`: a byte holds a bit as well.
    pub fn of(byte: u8) -> Option<Grade>
        ensures { result ≡ where_sound (graded_place byte) (graded_strength byte) }
    {
        let class = Class::of_byte(byte)?;
        Some(Grade {
            class,
            level: byte % 32,
        })
    }
}

impl Ordered for Grade {
    ghost at_most = { grade_at_most };

    ghost total = { Prim.search rules };

    ghost transitive = { Prim.search rules };

    // By hand: a derived order would tell lost places apart by their levels, and they are all equal in strength.
    // The classes by their numbers: with their derived `cmp` a weak list takes half as many instructions again.
    fn is_at_most(&self, other: &Grade) -> bool {
        let mine = u8::from(self.class);
        let its = u8::from(other.class);
        mine < its || (mine == its && (self.class == Class::Lost || self.level <= other.level))
    }
}

impl Strength for Grade {}
