// The one judge of what is handed in: positions and vectors, alone and in lists; and what anything handed in is refused for.
#![tactic(auto)]

ghost use Rattle.std.specs.Prelude.{◌≡◌, ◌*◌, ◌≤◌, length};
ghost use Rattle.judge.specs.Refusals.{number, number_of};
ghost use Rattle.judge.specs.Judge.{finite_vec, fault_of, vector_fault, first_refused, positions_fault, vectors_fault};

use vec3::Vec3;

// The ends of the range of a squared norm, 1 - 2^-40 and 1 + 2^-40, both included.
const LOW: f64 = 0.9999999999990905052982270717620849609375;

const HIGH: f64 = 1.0000000000009094947017729282379150390625;

// What anything handed in is refused for, by the rows of docs/REFUSALS.md.
#[derive(Clone, Copy, Debug, PartialEq, Eq)]
pub enum Refusal {
    Shape,
    TooMany,
    NotFinite,
    OffRange,
    NoRoom,
    UnknownClass,
    EachInside,
    NoEar,
    NoRing,
    TwoModes,
}

impl Refusal {
    // The number that a caller is told.
    pub fn number(self) -> u8
        ensures { result ≡ number self }
    {
        match self {
            Refusal::Shape => 1,
            Refusal::TooMany => 2,
            Refusal::NotFinite => 3,
            Refusal::OffRange => 4,
            Refusal::NoRoom => 5,
            Refusal::UnknownClass => 6,
            Refusal::EachInside => 7,
            Refusal::NoEar => 8,
            Refusal::NoRing => 9,
            Refusal::TwoModes => 11,
        }
    }
}

// Whether no component is NaN or infinite.
pub fn is_finite(v: Vec3) -> bool
    ensures { result ≡ finite_vec v }
{
    numbers::is_finite(v.x) & numbers::is_finite(v.y) & numbers::is_finite(v.z)
}

// What a position that is not in range is refused for. It is rare, and so a function of its own.
#[tactic(auto, unfolding(crate::specs::Judge::vector_fault))]
fn off_range(p: Vec3) -> Refusal
    ensures { number result ≡ vector_fault p (4) }
{
    if is_finite(p) {
        Refusal::OffRange
    } else {
        Refusal::NotFinite
    }
}

// The refusal that a position gives. A squared norm in range has finite components alone, so one test settles most positions.
#[tactic(auto, using(crate::proofs::Ranges::within_fault, crate::proofs::Ranges::off_fault))]
pub fn fault(p: Vec3) -> Result<(), Refusal>
    ensures { number_of result ≡ fault_of p }
{
    let d = p.squared_norm();
    if (LOW <= d) & (d <= HIGH) {
        Ok(())
    } else {
        Err(off_range(p))
    }
}

// The refusal that a normal, a cap's centre or an inside gives.
#[tactic(auto, unfolding(crate::specs::Judge::vector_fault))]
pub fn vector_fault(v: Vec3) -> Result<(), Refusal>
    ensures { number_of result ≡ vector_fault v 0 }
{
    if is_finite(v) {
        Ok(())
    } else {
        Err(Refusal::NotFinite)
    }
}

// The index of the first of n positions that is refused, n where none is.
pub fn first_refused(ps: &[f64], n: usize) -> usize
    requires { 3 * n ≤ length ps.now }
    ensures value { result ≡ first_refused ps.now n }
    ensures upper_bound { result ≤ n }
{
    (0..n)
        .find(|i| fault(vec3::at(ps, *i)).is_err())
        .unwrap_or(n)
}

// The refusal of that one, if there is one.
pub fn positions_fault(ps: &[f64], n: usize) -> Result<(), Refusal>
    requires { 3 * n ≤ length ps.now }
    ensures { number_of result ≡ positions_fault ps.now n }
{
    let i = first_refused(ps, n);
    if i < n {
        fault(vec3::at(ps, i))
    } else {
        Ok(())
    }
}

// The first refusal that one of n normals gives. By its index: three floats are one normal.
pub fn vectors_fault(ns: &[f64], n: usize) -> Result<(), Refusal>
    requires { 3 * n ≤ length ns.now }
    ensures { number_of result ≡ vectors_fault ns.now n }
{
    for i in 0..n {
        vector_fault(vec3::at(ns, i))?;
    }
    Ok(())
}
