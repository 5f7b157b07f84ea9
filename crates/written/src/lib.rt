// No code: what the reader and the writer of records are together, in proofs/.
#![tactic(auto)]
