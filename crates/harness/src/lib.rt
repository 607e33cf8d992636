// What a program that runs case files is made of: it reads fields, runs operations on what it lends and tests that, and writes answers.
#![tactic(auto)]

pub mod lent;
pub mod read;
pub mod run;
pub mod show;
