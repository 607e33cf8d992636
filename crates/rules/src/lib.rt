// The rules of docs/RULES.md as definitions: see specs/. There is no code here.
#![tactic(auto)]
