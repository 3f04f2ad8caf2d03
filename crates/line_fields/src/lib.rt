// The fields of a line, and what comes of reading them.
#![tactic(auto)]

mod fields;
mod split;
mod unread;

pub use fields::Fields;
pub use split::{field_is, split_field, without_return};
pub use unread::Unread;
