// Positions whose foot on an arc's great circle is surely off the arc: the tests ahead of any root in specs/, the law in proofs/. No code.
#![tactic(auto)]
