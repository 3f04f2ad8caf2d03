// The weak list of a soft reading: its places of least strength, weakest first.
#![tactic(auto)]

mod keeping;
mod list;
mod listing;
mod place;

pub use keeping::weakest;
pub use list::WeakList;
pub use listing::weak_list;
