// C-style exports over numbers and slices, as a library for the crates above. Hosts link libdesk.a (exports/library), in which the static library `exports_c`
// exports them, beside those of `exports_scene` and `exports_far`. Everything is little-endian; a refusal is 65,536 plus its number.
#![tactic(auto)]

pub mod floats;
pub mod loops;
pub mod minor_arcs;
