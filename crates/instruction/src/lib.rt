// What one instruction does to the bytes of a storage, and the value of an expression on it.
#![tactic(auto)]

pub mod eval;
pub mod perform;
