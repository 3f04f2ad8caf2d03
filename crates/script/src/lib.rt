// What a line of a script says, the codeword lines too.
#![tactic(auto)]

mod given;
mod lines;

pub use given::{Given, Kind};
pub use lines::{Call, parse};
