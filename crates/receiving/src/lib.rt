// The received word: the bits of a reading, or why there are none; and whether they are a codeword.
#![tactic(auto)]

mod received;
mod sums;
mod testing;

pub use received::Received;
pub use sums::Sums;
pub use testing::is_codeword;
