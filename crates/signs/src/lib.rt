// The signs of float operations, and the mirror law of the side test: definitions in specs/, laws in proofs/. No code.
#![tactic(auto)]
