// A line without its carriage return, the first field of a text, and whether a field is a given text.
ghost use Rattle.std.specs.Prelude.{◌≡◌, ◌∷◌, ◌++◌};
ghost use Rattle.std.specs.Str.{bytes_eq};
ghost use Rattle.line_fields.specs.Fields.{Solid, fields, fields_left, spaced, without_return};

const SPACE: u8 = b' ';

// A line without the carriage return at its end, if it has one.
// One expression; `stocktake` has it for the newline, with a clause of another form.
#[tactic(auto, using(crate::proofs::Ending::stripped))]
pub fn without_return(line: &[u8]) -> &[u8]
    ensures { result.now ≡ without_return line.now }
{
    line.strip_suffix(b"\r").unwrap_or(line)
}

// The first field of a text, and what follows its space, if it has one.
#[tactic(auto, using(crate::proofs::Splitting::splits), unfolding(crate::specs::Fields::fields_left, crate::specs::Fields::spaced))]
pub fn split_field(text: &[u8]) -> (&[u8], Option<&[u8]>)
    ensures parts { text.now ≡ result.0.now ++ spaced result.1 }
    ensures solid { Solid result.0.now }
    ensures fields { fields text.now ≡ result.0.now ∷ fields_left result.1 }
{
    match text.iter().position(|b| *b == SPACE) {
        Some(i) => (&text[..i], Some(&text[i + 1..])),
        None => (text, None),
    }
}

// Whether a field is this text. A name for ==, so that a caller's proof has the definition bytes_eq.
pub fn field_is(field: &[u8], this: &[u8]) -> bool
    ensures { result ≡ bytes_eq field.now this.now }
{
    field == this
}
