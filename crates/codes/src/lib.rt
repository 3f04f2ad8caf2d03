// Corrected words, and messages put into them and taken out.
#![tactic(auto)]

mod division;
mod encoding;
mod message;
mod taking;
mod word;

pub use encoding::encode;
pub use taking::take_message;
pub use word::Word;
