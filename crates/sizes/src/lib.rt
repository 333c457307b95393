// How large the components of vectors come out: of positions that are not refused, of normals and of vectors brought to unit length. Laws in proofs/. No code.
#![tactic(auto)]
