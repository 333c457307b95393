// The exports on loops and arcs for C: a static library over `exports`, whose functions it calls, with the same clauses. `exports/library` joins it in libdesk.a
// with those of `exports_scene_c` and `exports_far_c`.
#![tactic(auto)]

pub mod floats;
pub mod loops;
pub mod minor_arcs;
