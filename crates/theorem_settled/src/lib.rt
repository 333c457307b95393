// The worked examples of SCOPE 37: the statement in specs/, the theorem in proofs/. No code: what the other crates' contracts cite is computed.
#![tactic(auto)]
