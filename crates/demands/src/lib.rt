// The three demands as theorems only: see specs/Demands.antt.
#![tactic(auto)]
