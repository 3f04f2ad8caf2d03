// What the programs print.
#![tactic(auto)]

mod answer;
mod line;
mod packing;

pub use answer::Answer;
pub use line::put_line;
pub use packing::packed;
