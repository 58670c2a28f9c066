// No code: document 01's cases, and the useless tools that its promises shut out, are theorems of specs/ and proofs/.
#![tactic(auto)]
