// No code: document 01's worked examples marked •, as one table in specs/ and one law over it in proofs/.
#![tactic(auto)]
