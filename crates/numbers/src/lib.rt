// Comparisons of floats within 2^-52, inclusive, as numbers.rs has them. Total on every float: a NaN fails each test.
#![tactic(auto)]

ghost use Rattle.std.specs.Prelude.{◌≡◌};
ghost use Rattle.numbers.specs.Near as N;
ghost use Rattle.numbers.specs.F64.{zero};
ghost use Rattle.numbers.specs.Finite.{finite};

// The difference between 1.0 and the next float: 2^-52.
pub const EPSILON: f64 = 0.0000000000000002220446049250313080847263336181640625;

// The size of x. A -0.0 stays as it is, which no comparison sees.
#[tactic(auto, unfolding(crate::specs::Near::abs))]
pub fn abs(x: f64) -> f64
    ensures { result ≡ N.abs x }
{
    if x < 0.0 { -x } else { x }
}

// Whether the two are effectively equal: the difference is at most 2^-52 in size.
pub fn eq(left: f64, right: f64) -> bool
    ensures { result ≡ N.near left right }
{
    abs(right - left) <= EPSILON
}

// Whether x is effectively 0.0.
pub fn eq_zero(x: f64) -> bool
    ensures { result ≡ N.near x zero }
{
    eq(x, 0.0)
}

// At most, effectively equal ones included.
pub fn lte(left: f64, right: f64) -> bool
    ensures { result ≡ N.at_most left right }
{
    left <= right || eq(left, right)
}

// At least, effectively equal ones included.
pub fn gte(left: f64, right: f64) -> bool
    ensures { result ≡ N.at_least left right }
{
    left >= right || eq(left, right)
}

// Whether x is neither NaN nor infinite: the difference from itself is then 0.0, and only then.
#[tactic(auto, using(crate::proofs::Rounds::itself))]
pub fn is_finite(x: f64) -> bool
    ensures { result ≡ finite x }
{
    x - x == 0.0
}
