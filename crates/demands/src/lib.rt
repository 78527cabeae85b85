// No code: the three demands as records in specs/, and their laws in proofs/, over the definitions that the calls' promises cite.
#![tactic(auto)]
