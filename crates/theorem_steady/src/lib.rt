// The direction of a steady loop is the sign of the exact sum of its turns' exact angles: the statement in specs/, the theorem in proofs/. No code.
#![tactic(auto)]
