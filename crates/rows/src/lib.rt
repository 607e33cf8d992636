// The row table in a lent slice, and the rule that adds to it (R26 to R30, R53).
#![tactic(auto)]

pub mod adding;
pub mod node;
pub mod rule;
