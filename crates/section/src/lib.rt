// The lines of the cross-section by typical design 503-0-45: definitions in specs/ and laws in proofs/, no code.
#![tactic(auto)]
