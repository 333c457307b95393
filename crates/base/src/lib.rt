// The side of a position against a great circle, and the turning angle, as spherical/base.rs has them. Total on every float.
#![tactic(auto)]

ghost use Rattle.std.specs.Prelude.{◌≡◌};
ghost use Rattle.base.specs.Sides.{sign_of, retest_of, side_of, settles_right, settles_left, surely_right};
ghost use Rattle.base.specs.Turns.{sine_of, turning_angle};

use angle::Angle;
use vec3::Vec3;

// Up to this size a triple product is not trusted.
const TRIAGE_SIDE_EPS: f64 = 10.0 * numbers::EPSILON;

#[derive(Clone, Copy, Debug, PartialEq, Eq)]
pub enum Side {
    Left,
    Right,
    Collinear,
}

#[tactic(auto, unfolding(crate::specs::Sides::sign_of))]
fn by_sign(t: f64) -> Side
    ensures { result ≡ sign_of t }
{
    if t > 0.0 { Side::Left } else { Side::Right }
}

// The side by the stable normal. It is rare, and so a function of its own.
#[tactic(auto, unfolding(crate::specs::Sides::retest_of))]
fn retest(v0: Vec3, v1: Vec3, v2: Vec3) -> Side
    ensures { result ≡ retest_of v0 v1 v2 }
{
    let s = v0.dot_prod(v1.orthogonal_to(v2));
    if numbers::eq_zero(s) {
        Side::Collinear
    } else {
        by_sign(s)
    }
}

// Whether v0 is left of, right of or on the great circle from v1 to v2.
#[tactic(auto, unfolding(crate::specs::Sides::side_of))]
pub fn side_of(v0: Vec3, v1: Vec3, v2: Vec3) -> Side
    ensures { result ≡ side_of v0 v1 v2 }
{
    let t = v0.dot_prod(v1.cross_prod(v2));
    if numbers::abs(t) <= TRIAGE_SIDE_EPS {
        retest(v0, v1, v2)
    } else {
        by_sign(t)
    }
}

// Whether a triple product settles its side alone, and that is right.
pub fn settles_right(t: f64) -> bool
    ensures { result ≡ settles_right t }
{
    !(numbers::abs(t) <= TRIAGE_SIDE_EPS) & !(t > 0.0)
}

// Whether it does, and that is left.
pub fn settles_left(t: f64) -> bool
    ensures { result ≡ settles_left t }
{
    !(numbers::abs(t) <= TRIAGE_SIDE_EPS) & (t > 0.0)
}

// Whether v0 is right of the great circle with this normal by the first test of `side_of` alone. A normal is worked out once for many positions.
#[tactic(auto, unfolding(crate::specs::Sides::surely_right))]
pub fn is_surely_right(v0: Vec3, normal: Vec3) -> bool
    ensures { result ≡ surely_right v0 normal }
{
    settles_right(v0.dot_prod(normal))
}

// The sine of the angle from v1 to v2 times their lengths: the length of their cross product, negative where that points away from vn.
#[tactic(auto, unfolding(crate::specs::Turns::sine_of))]
pub fn sine(v1: Vec3, v2: Vec3, vn: Vec3) -> f64
    ensures { result ≡ sine_of v1 v2 vn }
{
    let k = v1.cross_prod(v2);
    let norm = k.norm();
    if k.dot_prod(vn) >= 0.0 { norm } else { -norm }
}

// The signed angle from v1 to v2, looking along vn.
pub fn turning_angle(v1: Vec3, v2: Vec3, vn: Vec3) -> Angle
    ensures { result ≡ turning_angle v1 v2 vn }
{
    Angle::between(sine(v1, v2, vn), v1.dot_prod(v2))
}
