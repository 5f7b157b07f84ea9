// Document 01 as definitions (specs/) and what follows from them (proofs/). There is no code here.
#![tactic(auto)]
