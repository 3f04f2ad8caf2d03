// A burst as a reading: bits by place, and how strong each is.
#![tactic(auto)]

mod bytes;
mod grade;
mod graded;
mod hard;
mod magnitude;
mod sample;
mod signed;
mod soft;
mod strength;

pub use bytes::Bytes;
pub use grade::{Class, Grade, UnknownClass};
pub use graded::Graded;
pub use hard::Hard;
pub use magnitude::Magnitude;
pub use sample::Sample;
pub use signed::Signed;
pub use soft::Soft;
pub use strength::Strength;
