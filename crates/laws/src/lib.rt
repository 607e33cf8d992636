// Theorems about the definitions of crate rules: see specs/. There is no code here.
#![tactic(auto)]
