// What `stocktake` does with a script, line by line.
#![tactic(auto)]

mod session;

pub use session::Session;
