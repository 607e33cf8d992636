// Which rows of a table the heads reach, and the numbers that these get in the set's own numbering (R33, R36).
#![tactic(auto)]

pub mod mark;
pub mod number;
