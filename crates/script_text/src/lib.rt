// The lines of a script, as values.
#![tactic(auto)]

mod lines;

pub use lines::{Call, call_fields, named_call, parse, read_call};
