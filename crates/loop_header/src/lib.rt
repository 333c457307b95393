// A loop's header, and the one judge of a loop that is handed back.
#![tactic(auto)]

ghost use Rattle.std.specs.Prelude.{◌≡◌, ◌*◌, ◌≤◌, length};
ghost use Rattle.judge.specs.Refusals.{number_of};
ghost use Rattle.loop_header.specs.Loops as L;

use cap::Cap;
use judge::Refusal;
use minor_arc::Mode;
use vec3::Vec3;

#[derive(Clone, Copy, Debug, PartialEq, Eq)]
pub enum State {
    Empty,
    Full,
    Ring,
}

// What a loop is beside its slices. Mute is not stored: it is a ring above three corners whose insides are absent, so nothing can contradict it. The mode is
// the one that the loop was built in: its arcs meet others by it. The four small fields stand together: a header so takes fewer moves to copy.
#[derive(Clone, Copy)]
pub struct Header {
    pub count: usize,
    pub cap: Cap,
    pub insides: Option<(Vec3, Vec3)>,
    pub state: State,
    pub reversed: bool,
    pub weak: bool,
    pub mode: Mode,
}

// The header of a loop without corners: kept.
fn bare(mode: Mode, state: State, cap: Cap, weak: bool) -> Header
    ensures { result ≡ L.bare_header mode state cap weak }
{
    Header {
        count: 0,
        state,
        cap,
        insides: None,
        reversed: false,
        weak,
        mode,
    }
}

// The header of the empty loop: kept and steady.
pub fn empty(mode: Mode) -> Header
    ensures { result ≡ L.empty_header mode }
{
    bare(mode, State::Empty, Cap::EMPTY, false)
}

// The header of the full loop: kept; `weak` follows its turn sum.
pub fn full(mode: Mode, weak: bool) -> Header
    ensures { result ≡ L.full_header mode weak }
{
    bare(mode, State::Full, Cap::FULL, weak)
}

// Whether the count fits the state: 0 for empty and full, at least 3 for a ring.
fn count_fits(state: State, count: usize) -> bool
    ensures { result ≡ L.count_fits state count }
{
    match state {
        State::Empty | State::Full => count == 0,
        State::Ring => 3 <= count,
    }
}

// Whether a slice holds three floats for each of count. The product could wrap where the quotient cannot.
#[tactic(auto, using(crate::proofs::Shapes::in_threes))]
fn threes(size: usize, count: usize) -> bool
    ensures { result ≡ L.threes_of size count }
{
    (size % 3 == 0) & (size / 3 == count)
}

// Refusal 1 of a loop without its normals.
#[tactic(auto, unfolding(crate::specs::Loops::shape_fault))]
fn shape_fault(h: Header, positions: &[f64], classes: &[u8]) -> Result<(), Refusal>
    ensures { number_of result ≡ L.shape_fault h positions.now classes.now }
{
    let state = h.state;
    if count_fits(state, h.count) & threes(positions.len(), h.count) & (classes.len() == h.count) {
        Ok(())
    } else {
        Err(Refusal::Shape)
    }
}

// Refusal 6: the first class code above 2.
fn classes_fault(classes: &[u8]) -> Result<(), Refusal>
    ensures { number_of result ≡ L.classes_fault classes.now }
{
    for class in classes {
        if *class > 2 {
            return Err(Refusal::UnknownClass);
        }
    }
    Ok(())
}

// Refusals 2, 6, 3 and 4 of a loop that has the right shape, without its normals, cap and insides.
#[tactic(auto, unfolding(crate::specs::Loops::ring_fault))]
fn ring_fault(h: Header, positions: &[f64], classes: &[u8]) -> Result<(), Refusal>
    requires { 3 * h.count ≤ length positions.now }
    ensures { number_of result ≡ L.ring_fault h positions.now classes.now }
{
    if h.count > 512 {
        return Err(Refusal::TooMany);
    }
    classes_fault(classes)?;
    judge::positions_fault(positions, h.count)
}

// What cutting and the checker refuse: they read a loop's count, state, positions and classes alone.
#[tactic(auto, using(crate::proofs::Shapes::shaped), unfolding(crate::specs::Loops::cut_fault))]
pub fn cut_fault(h: Header, positions: &[f64], classes: &[u8]) -> Result<(), Refusal>
    ensures { number_of result ≡ L.cut_fault h positions.now classes.now }
{
    shape_fault(h, positions, classes)?;
    ring_fault(h, positions, classes)
}

// Refusal 9: the checker is given an empty or full loop.
fn ring_only(state: State) -> Result<(), Refusal>
    ensures { number_of result ≡ L.ring_only state }
{
    match state {
        State::Empty | State::Full => Err(Refusal::NoRing),
        State::Ring => Ok(()),
    }
}

// What the checker refuses, of a loop and a triangle slice of a size: that it is not in threes comes with the loop's own 1.
#[tactic(auto, using(crate::proofs::Shapes::shaped), unfolding(crate::specs::Loops::check_fault))]
pub fn check_fault(h: Header, positions: &[f64], classes: &[u8], size: usize) -> Result<(), Refusal>
    ensures { number_of result ≡ L.check_fault h positions.now classes.now size }
{
    shape_fault(h, positions, classes)?;
    if size % 3 != 0 {
        return Err(Refusal::Shape);
    }
    ring_fault(h, positions, classes)?;
    let state = h.state;
    ring_only(state)
}

// Refusal 3 of a cap.
#[tactic(auto, unfolding(crate::specs::Loops::cap_fault))]
fn cap_fault(c: Cap) -> Result<(), Refusal>
    ensures { number_of result ≡ L.cap_fault c }
{
    if judge::is_finite(c.centre) & numbers::is_finite(c.radius.0) {
        Ok(())
    } else {
        Err(Refusal::NotFinite)
    }
}

// Refusal 3 of insides; absent ones hold no number.
fn insides_fault(i: Option<(Vec3, Vec3)>) -> Result<(), Refusal>
    ensures { number_of result ≡ L.insides_fault i }
{
    match i {
        None => Ok(()),
        Some((a, b)) => judge::vector_fault(a).and(judge::vector_fault(b)),
    }
}

// Refusal 3 of normals, cap and insides.
#[tactic(auto, unfolding(crate::specs::Loops::vectors_fault))]
fn vectors_fault(h: Header, normals: &[f64]) -> Result<(), Refusal>
    requires { 3 * h.count ≤ length normals.now }
    ensures { number_of result ≡ L.vectors_fault h normals.now }
{
    judge::vectors_fault(normals, h.count)?;
    cap_fault(h.cap)?;
    let insides = h.insides;
    insides_fault(insides)
}

// What every question refuses of a loop, whether it reads the whole of it or less.
#[tactic(auto, using(crate::proofs::Shapes::shaped, crate::proofs::Shapes::threes_length), unfolding(crate::specs::Loops::loop_fault))]
pub fn loop_fault(
    h: Header,
    positions: &[f64],
    normals: &[f64],
    classes: &[u8],
) -> Result<(), Refusal>
    ensures { number_of result ≡ L.loop_fault h positions.now normals.now classes.now }
{
    shape_fault(h, positions, classes)?;
    if !threes(normals.len(), h.count) {
        return Err(Refusal::Shape);
    }
    ring_fault(h, positions, classes)?;
    vectors_fault(h, normals)
}
