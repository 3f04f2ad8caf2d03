// The two codes, BCH (255,239) and (255,231): what a codeword is, what a message is, and where a message stands in a word.
// The rules and their theory are in specs/ and proofs/; the code here names the two codes and their numbers.
#![tactic(auto)]

mod bits;
mod code;
mod numbers;
mod sizes;

pub use bits::{lay_number, number_of};
pub use code::Code;
pub use sizes::{MESSAGE_BITS, MESSAGE_WORDS, PLACES, WORD_BITS};
