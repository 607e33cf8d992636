// Adds the rows of an expression to a table (R11, R37).
#![tactic(auto)]

pub mod expression;
