// How good the angles are: the exact angle and the exact sum of a list's angles over whole numbers in specs/, and in proofs/ that the arctangent is within 2^-45
// of the exact angle, and that a float sum that is not weak has the exact sum's sign. No code.
#![tactic(auto)]
