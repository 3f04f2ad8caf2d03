// A reading as a script gives it.
ghost use Rattle.std.specs.Prelude.{◌≡◌};
ghost use Rattle.std.specs.Option.{ok_or};
ghost use Rattle.line_fields.specs.declared.unread.Unread.TheVariants.{NotUnderstood};
ghost use Rattle.line_fields.specs.Left.{left};
ghost use Rattle.line_fields.specs.Reads.{Reads};
ghost use Rattle.script.specs.Given.{kind_text, given_as, reading_fields};

use line_fields::{Fields, Unread};
use numerals::{code_number, hex_bytes};
use std::alloc::Global;

// How the bytes of a reading are to be read.
#[derive(Clone, Copy, Debug, PartialEq, Eq)]
pub enum Kind {
    Signed,
    Graded,
}

// The bytes of a reading with their kind, and a code number.
#[derive(Debug, Drop)]
pub struct Given {
    pub kind: Kind,
    // A number and no Code: one that no code has is refused when the call is made, not when the line is read.
    pub code: u32,
    pub bytes: Vec<u8>,
}

// A field that is a KIND.
impl<'a> TryFrom<&'a [u8]> for Kind {
    type Error = Unread;

    ghost try_from_gives = { λ field r. r ≡ ok_or (kind_text field.now) NotUnderstood };

    #[tactic(auto, unfolding(crate::specs::Given::kind_text))]
    fn try_from(field: &'a [u8]) -> Result<Kind, Unread> {
        match field {
            b"signed" => Ok(Kind::Signed),
            b"graded" => Ok(Kind::Graded),
            _ => Err(Unread::NotUnderstood),
        }
    }
}

// KIND CODE BYTES, and no field more.
#[tactic(auto, unfolding(crate::specs::Given::reading_fields))]
pub(crate) fn reading_fields(heap: Global, fields: Fields) -> Result<Given, Unread>
    ensures { Reads given_as (reading_fields (left fields.entry)) result }
{
    let (kind, code, bytes) = fields.three().ok_or(Unread::NotUnderstood)?;
    let kind = Kind::try_from(kind)?;
    let code = code_number(code).ok_or(Unread::NotUnderstood)?;
    let bytes = hex_bytes(heap, bytes)?;
    Ok(Given { kind, code, bytes })
}
