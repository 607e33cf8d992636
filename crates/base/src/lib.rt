// What every crate shares: the three kinds of number, the shape, refusals, numbers in bytes.
#![tactic(auto)]

pub mod bytes;
pub mod kinds;
pub mod refusal;
pub mod shape;
