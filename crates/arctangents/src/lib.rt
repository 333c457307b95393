// The arctangent in three goes, for many angles at once: the number that the series takes, the series, and the angle out of its value.
// Together they are `Angle::between` (proofs/Between). Total on every float; `requires` for indexes and lengths alone.
#![tactic(auto)]

ghost use Rattle.std.specs.Prelude.{◌≡◌, cond, ◌≤◌, length};
ghost use Rattle.std.specs.Float.Ieee.{lt};
ghost use Rattle.arctangents.specs.Arctangents as Atn;

use angle::Angle;

fn lesser(a: f64, b: f64) -> f64
    ensures { result ≡ cond (lt a b) a b }
{
    if a < b { a } else { b }
}

fn greater(a: f64, b: f64) -> f64
    ensures { result ≡ cond (lt a b) b a }
{
    if a < b { b } else { a }
}

// The number from 0 to 1 whose arctangent the angle of (x, y) is made of.
#[tactic(auto, unfolding(crate::specs::Arctangents::proportion))]
pub fn proportion(y: f64, x: f64) -> f64
    ensures { result ≡ Atn.proportion y x }
{
    let a = angle::size(y);
    let b = angle::size(x);
    lesser(a, b) / greater(a, b)
}

// The arctangents of k numbers from 0 to 1. The series stands in a loop with no tests, so that several are summed at once.
pub fn write_acutes(ts: &[f64], k: usize, out: &mut [f64])
    requires { (k ≤ 512) × (length ts.now ≡ k) × (length out.old ≡ k) }
    ensures { out.new ≡ Atn.acutes ts.now k }
{
    for (j, u) in out.iter_mut().enumerate() {
        *u = angle::acute(ts[j]);
    }
}

// The angle of (b, a) in the first quadrant, with the arctangent of its proportion at hand. Beside `angle::quadrant`, which has none at hand and sums the series
// only where it takes one.
#[tactic(auto, unfolding(crate::specs::Arctangents::quadrant_by))]
fn quadrant_by(a: f64, b: f64, u: f64) -> f64
    ensures { result ≡ Atn.quadrant_by a b u }
{
    if a < b {
        u
    } else if b < a {
        angle::FRAC_PI_2 - u
    } else if a == 0.0 {
        0.0
    } else if a == b {
        angle::FRAC_PI_4
    } else {
        a + b
    }
}

// The angle of (x, y), with the arctangent of its proportion at hand.
pub fn angle_by(y: f64, x: f64, u: f64) -> Angle
    ensures { result ≡ Atn.angle_by y x u }
{
    let r = quadrant_by(angle::size(y), angle::size(x), u);
    Angle(angle::signed(angle::minus(y), angle::turned(angle::minus(x), r)))
}
