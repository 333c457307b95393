// Rings of numbers, the lists of triples that cut one corner by corner, and the theorem of demand 3: definitions in specs/, and their laws in proofs/.
#![tactic(auto)]
