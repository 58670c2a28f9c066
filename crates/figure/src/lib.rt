// No code: Figure 1 of source document 000 is stated in specs/Figure.antt.
#![tactic(auto)]
