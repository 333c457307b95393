// What `desk_build` wrote, handed back as bytes, is refused by no function of the byte interface for what it is: the statement in specs/, the theorem in proofs/. No code.
#![tactic(auto)]
