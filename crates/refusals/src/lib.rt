// Why a call may be refused. One enum for every call of the receiver, in the order of the table of refusals.
#![tactic(auto)]

mod numbers;
mod refusal;

pub use numbers::outcome_number;
pub use refusal::Refusal;
