// Orders with laws, and keeping the least few elements in order.
#![tactic(auto)]

mod carrying;
mod kept;
mod ordered;

pub use kept::{KEPT, Kept};
pub use ordered::Ordered;
