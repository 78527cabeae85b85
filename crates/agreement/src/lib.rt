// No code: definitions in specs/ and laws in proofs/, which tie the fault calls on coefficients to the circuit call.
#![tactic(auto)]
