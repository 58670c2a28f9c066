// No code: what every run from a fresh lock has (demand 3) is stated in specs/Demands.antt and proved in proofs/Theorems.antt.
#![tactic(auto)]
