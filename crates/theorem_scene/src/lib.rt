// What a scene ends in, and when each of the refusals 20 to 28 is given: the statements in specs/, the theorems in proofs/. No code.
#![tactic(auto)]
