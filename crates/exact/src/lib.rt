// Definitions and laws only: see specs/.
#![tactic(auto)]
