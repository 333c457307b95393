// A loop that `build` answered is refused by no question for what it is: the statement in specs/, the theorem in proofs/. No code.
#![tactic(auto)]
