// No code: one event of the lock as a definition, what its answer stands for (Stepped), the conditions of
// document 01 and the theorems are in specs/ (those that a change of what a line does can refute in proofs/).
// The code that meets them stands above (crates `event` and `step`). Rests on `lock`, `lines` and `figure`.
#![tactic(auto)]
