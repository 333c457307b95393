// That each public function has one answer and one final state of what it is lent: the statement in specs/, the theorem in proofs/. No code.
#![tactic(auto)]
