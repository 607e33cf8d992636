// What is promised, demand by demand: see specs/. There is no code here.
#![tactic(auto)]
