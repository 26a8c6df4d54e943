// The lines of the cross-section by the method of the Minsk handbook: definitions in specs/ and laws in proofs/, no code.
#![tactic(auto)]
