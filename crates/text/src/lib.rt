// The lines that are printed, and the words and numbers that they are made of, written into an output (R60 to R63).
#![tactic(auto)]

pub mod line;
pub mod word;
