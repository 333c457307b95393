// The icosahedron that stands for the full loop: 12 positions, recorded bit for bit from the Rust (docs/CONSTANTS.md), and 20 triples over them.
#![tactic(auto)]

ghost use Rattle.std.specs.Prelude.{◌≡◌, ◌++◌, ◌≤◌, length, drop};
ghost use Rattle.icosahedron.specs.Table as T;

const POSITIONS: [f64; 36] = [
    0.0,
    0.0,
    1.0,
    0.8944271909999159,
    0.0,
    0.4472135954999579,
    0.27639320225002106,
    0.8506508083520399,
    0.4472135954999579,
    -0.7236067977499788,
    0.5257311121191337,
    0.4472135954999579,
    -0.7236067977499788,
    -0.5257311121191337,
    0.4472135954999579,
    0.27639320225002106,
    -0.8506508083520399,
    0.4472135954999579,
    0.7236067977499789,
    0.5257311121191336,
    -0.4472135954999579,
    -0.27639320225002095,
    0.85065080835204,
    -0.4472135954999579,
    -0.8944271909999159,
    0.00000000000000010953573965284052,
    -0.4472135954999579,
    -0.27639320225002095,
    -0.85065080835204,
    -0.4472135954999579,
    0.7236067977499789,
    -0.5257311121191336,
    -0.4472135954999579,
    0.0,
    0.0,
    -1.0,
];

const TRIPLES: [u16; 60] = [
    0, 1, 2, 0, 2, 3, 0, 3, 4, 0, 4, 5, 0, 5, 1, 1, 2, 6, 2, 3, 7, 3, 4, 8, 4, 5, 9, 5, 1, 10, 6,
    7, 2, 7, 8, 3, 8, 9, 4, 9, 10, 5, 10, 6, 1, 6, 7, 11, 7, 8, 11, 8, 9, 11, 9, 10, 11, 10, 6, 11,
];

// The positions, into the front of a lent list.
#[tactic(auto, unfolding(crate::specs::Table::positions))]
pub fn write_positions(out: &mut [f64])
    requires { 36 ≤ length out.old }
    ensures { out.new ≡ T.positions ++ drop 36 out.old }
{
    copies::copy_front(&POSITIONS, out);
}

// The triples, into the front of a lent list.
#[tactic(auto, unfolding(crate::specs::Table::triples))]
pub fn write_triples(out: &mut [u16])
    requires { 60 ≤ length out.old }
    ensures { out.new ≡ T.triples ++ drop 60 out.old }
{
    copies::copy_front(&TRIPLES, out);
}
