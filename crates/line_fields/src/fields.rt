// The fields of a text, one after the other.
ghost use Rattle.std.specs.Prelude.{◌≡◌};
ghost use Rattle.std.specs.Iterator.{YieldsFirstRef, item_count};
ghost use Rattle.std.specs.Option.{option_map};
ghost use Rattle.line_fields.specs.Fields.{fields, one_field, two_fields, three_fields};
ghost use Rattle.line_fields.specs.Left.{left};

use crate::split::split_field;

// What is left of a text: its fields to come, or None after the last.
// Not slice::split: its type holds a closure, and `call_fields` of script_text could not give that type back.
#[derive(Clone, Copy)]
pub struct Fields<'a> {
    rest: Option<&'a [u8]>,
}

impl<'a> Fields<'a> {
    // All fields of a text.
    #[tactic(auto, unfolding(crate::specs::Fields::fields_left))]
    pub fn new(text: &'a [u8]) -> Fields<'a>
        ensures { left result ≡ fields text.now }
    {
        Fields { rest: Some(text) }
    }

    // One, two and three stay three: the borrow checker does not cover an array of references whose length is a const parameter.
    // Tried for two: collect_tuple of the kit's itertools, whose clauses speak of a run; search finds no step to the fields that are left.

    // The field that is left, if it is exactly one.
    #[tactic(auto, unfolding(crate::specs::Fields::one_field))]
    pub fn one(mut self) -> Option<&'a [u8]>
        ensures { option_map (λ f. f.now) result ≡ one_field (left self.entry) }
    {
        let field = self.next()?;
        match self.next() {
            Some(_) => None,
            None => Some(field),
        }
    }

    // The two fields that are left, if they are exactly two.
    #[tactic(auto, unfolding(crate::specs::Fields::two_fields))]
    pub fn two(mut self) -> Option<(&'a [u8], &'a [u8])>
        ensures { option_map (λ p. (p.0.now, p.1.now)) result ≡ two_fields (left self.entry) }
    {
        let first = self.next()?;
        let second = self.one()?;
        Some((first, second))
    }

    // The three fields that are left, if they are exactly three.
    #[tactic(auto, unfolding(crate::specs::Fields::three_fields))]
    pub fn three(mut self) -> Option<(&'a [u8], &'a [u8], &'a [u8])>
        ensures { option_map (λ t. (t.0.now, t.1.now, t.2.now)) result ≡ three_fields (left self.entry) }
    {
        let first = self.next()?;
        let (second, third) = self.two()?;
        Some((first, second, third))
    }
}

impl<'a> Iterator for Fields<'a> {
    type Item = &'a [u8];

    ghost next_gives = { YieldsFirstRef left };

    ghost remaining = { item_count left };

    #[tactic(auto, unfolding(crate::specs::Fields::fields_left))]
    fn next(&mut self) -> Option<&'a [u8]> {
        let (field, rest) = split_field(self.rest?);
        self.rest = rest;
        Some(field)
    }
}
