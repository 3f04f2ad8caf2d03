// Numbers, words and bytes as text: how a script writes them, and how they are printed.
#![tactic(auto)]

mod input;
mod output;

pub use input::{code_number, hex_bytes, hex_word};
pub use output::{HexBytes, HexWord, as_text, hex_text};
