// That a contract leaves one outcome: what that says of any function, and the laws by which it is shown. No code.
#![tactic(auto)]
