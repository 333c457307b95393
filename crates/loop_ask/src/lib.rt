// Asking a loop: whether a place lies in it, at a corner or on an edge, whether it is convex or simple, and whether another is the same. Each judges what it is
// handed, then answers.
#![tactic(auto)]

ghost use Rattle.std.specs.Prelude.{◌≡◌, ◌*◌, ◌≤◌, length};
ghost use Rattle.judge.specs.Refusals.{number_of};
ghost use Rattle.loop_ask.specs.Answers as An;
ghost use Rattle.loop_ask.specs.Places as P;
ghost use Rattle.loop_ask.specs.Questions as Q;

use cap::Cap;
use judge::Refusal;
use loop_header::{Header, State};
use ring_edges::Border;
use vec3::Vec3;

// Where a position lies. A mute loop has no insides to tell it by.
#[derive(Clone, Copy, Debug, PartialEq, Eq)]
pub enum Place {
    Outside,
    Inside,
    Mute,
}

// A cap as it is read: its centre free of -0.0.
pub fn cleared_cap(c: Cap) -> Cap
    ensures { result ≡ P.cleared_cap c }
{
    let centre = c.centre;
    let radius = c.radius;
    Cap {
        centre: centre.clear(),
        radius,
    }
}

fn inside_or_outside(inside: bool) -> Place
    ensures { An.place_code result ≡ P.inside_code inside }
{
    if inside {
        Place::Inside
    } else {
        Place::Outside
    }
}

// Without insides: three corners by their sides, more are mute, and none lie in the full loop alone.
#[tactic(auto, unfolding(crate::specs::Places::place_without))]
fn place_without(h: Header, border: &Border, p: Vec3) -> Place
    requires { border.now.n ≡ h.count }
    ensures { An.place_code result ≡ P.place_without h border.now.positions.now border.now.normals.now p }
{
    if h.count == 3 {
        return inside_or_outside(ring_place::in_triangle(border.positions, border.normals, p));
    }
    if h.count > 3 {
        return Place::Mute;
    }
    let state = h.state;
    match state {
        State::Empty => Place::Outside,
        State::Full => Place::Inside,
        State::Ring => Place::Outside,
    }
}

// With insides: by the cap, which long mode does not ask, and the crossings, whatever the count and state.
fn inside_with(h: Header, a: Vec3, b: Vec3, border: &Border, p: Vec3) -> bool
    requires { border.now.n ≡ h.count }
    ensures { result ≡ P.inside_with h a b border.now.positions.now border.now.normals.now p }
{
    let mode = h.mode;
    let cap = h.cap;
    ring_place::inside_by(mode, cleared_cap(cap), a.clear(), b.clear(), border, p)
}

// The place of a position against a loop that was judged.
pub fn locate(h: Header, positions: &[f64], normals: &[f64], p: Vec3) -> Place
    requires { (h.count ≤ 512) × (3 * h.count ≤ length positions.now) × (3 * h.count ≤ length normals.now) }
    ensures { An.place_code result ≡ P.place_of h positions.now normals.now p }
{
    let border = Border::new(positions, normals, h.count);
    match h.insides {
        None => place_without(h, &border, p),
        Some((a, b)) => inside_or_outside(inside_with(h, a, b, &border, p)),
    }
}

// The loop's refusals, and then the query's.
#[tactic(auto, unfolding(crate::specs::Questions::query_fault))]
pub fn query_fault(
    h: Header,
    positions: &[f64],
    normals: &[f64],
    classes: &[u8],
    p: Vec3,
) -> Result<(), Refusal>
    ensures { number_of result ≡ Q.query_fault h positions.now normals.now classes.now p }
{
    loop_header::loop_fault(h, positions, normals, classes)?;
    judge::fault(p)
}

// Whether a position lies in a loop's interior.
#[tactic(auto, using(crate::proofs::Judged::query_most, crate::proofs::Judged::query_positions, crate::proofs::Judged::query_normals), unfolding(crate::specs::Questions::place_answer))]
pub fn contains_position(
    h: Header,
    positions: &[f64],
    normals: &[f64],
    classes: &[u8],
    p: Vec3,
) -> Result<Place, Refusal>
    ensures { An.told_placed result ≡ Q.place_answer h positions.now normals.now classes.now p }
{
    let q = p.clear();
    query_fault(h, positions, normals, classes, q)?;
    Ok(locate(h, positions, normals, q))
}

// Whether a position is a corner of a loop.
#[tactic(auto, using(crate::proofs::Judged::query_most, crate::proofs::Judged::query_positions, crate::proofs::Judged::query_normals), unfolding(crate::specs::Questions::vertex_answer))]
pub fn has_vertex(
    h: Header,
    positions: &[f64],
    normals: &[f64],
    classes: &[u8],
    p: Vec3,
) -> Result<bool, Refusal>
    ensures { An.told_answered result ≡ Q.vertex_answer h positions.now normals.now classes.now p }
{
    let q = p.clear();
    query_fault(h, positions, normals, classes, q)?;
    Ok(Border::new(positions, normals, h.count).has_vertex(q))
}

// Whether a position lies on an edge of a loop.
#[tactic(auto, using(crate::proofs::Judged::query_most, crate::proofs::Judged::query_positions, crate::proofs::Judged::query_normals), unfolding(crate::specs::Questions::on_edge_answer))]
pub fn any_edge_contains_position(
    h: Header,
    positions: &[f64],
    normals: &[f64],
    classes: &[u8],
    p: Vec3,
) -> Result<bool, Refusal>
    ensures { An.told_answered result ≡ Q.on_edge_answer h positions.now normals.now classes.now p }
{
    let q = p.clear();
    query_fault(h, positions, normals, classes, q)?;
    Ok(Border::new(positions, normals, h.count).any_edge_contains_position(q))
}

// Whether a loop is convex.
#[tactic(auto, using(crate::proofs::Judged::loop_most, crate::proofs::Judged::loop_positions, crate::proofs::Judged::loop_normals), unfolding(crate::specs::Questions::convex_answer))]
pub fn is_convex(
    h: Header,
    positions: &[f64],
    normals: &[f64],
    classes: &[u8],
) -> Result<bool, Refusal>
    ensures { An.told_answered result ≡ Q.convex_answer h positions.now normals.now classes.now }
{
    loop_header::loop_fault(h, positions, normals, classes)?;
    Ok(ring_shape::is_convex(&Border::new(positions, normals, h.count)))
}

// Whether a loop is simple.
#[tactic(auto, using(crate::proofs::Judged::loop_most, crate::proofs::Judged::loop_positions, crate::proofs::Judged::loop_normals), unfolding(crate::specs::Questions::simple_answer))]
pub fn is_simple(
    h: Header,
    positions: &[f64],
    normals: &[f64],
    classes: &[u8],
) -> Result<bool, Refusal>
    ensures { An.told_answered result ≡ Q.simple_answer h positions.now normals.now classes.now }
{
    loop_header::loop_fault(h, positions, normals, classes)?;
    let mode = h.mode;
    Ok(ring_shape::is_simple(mode, &Border::new(positions, normals, h.count)))
}

// The refusals of a first loop, and then those of a second.
#[tactic(auto, unfolding(crate::specs::Questions::pair_fault))]
pub fn pair_fault(
    h: Header,
    positions: &[f64],
    normals: &[f64],
    classes: &[u8],
    o: Header,
    others: &[f64],
    theirs: &[f64],
    codes: &[u8],
) -> Result<(), Refusal>
    ensures { number_of result ≡ Q.pair_fault h positions.now normals.now classes.now o others.now theirs.now codes.now }
{
    loop_header::loop_fault(h, positions, normals, classes)?;
    loop_header::loop_fault(o, others, theirs, codes)
}

pub fn is_full(state: State) -> bool
    ensures { result ≡ Q.full_state state }
{
    match state {
        State::Empty => false,
        State::Full => true,
        State::Ring => false,
    }
}

// Whether two loops that were judged have the same corners and classes, from any corner on and in either direction.
#[tactic(auto, unfolding(crate::specs::Questions::equivalent_loops))]
pub fn equivalent(
    h: Header,
    positions: &[f64],
    classes: &[u8],
    o: Header,
    others: &[f64],
    codes: &[u8],
) -> bool
    requires { Q.Comparable h positions.now classes.now o others.now codes.now }
    ensures { result ≡ Q.equivalent_loops h positions.now classes.now o others.now codes.now }
{
    if h.count != o.count {
        return false;
    }
    if h.count == 0 {
        let one = h.state;
        let other = o.state;
        return is_full(one) == is_full(other);
    }
    ring_shape::same_rings(positions, classes, others, codes, h.count)
}

// Whether two loops have the same corners, from any corner on and in either direction.
#[tactic(auto, using(crate::proofs::Judged::comparable), unfolding(crate::specs::Questions::equivalent_answer))]
pub fn is_equivalent(
    h: Header,
    positions: &[f64],
    normals: &[f64],
    classes: &[u8],
    o: Header,
    others: &[f64],
    theirs: &[f64],
    codes: &[u8],
) -> Result<bool, Refusal>
    ensures { An.told_answered result ≡ Q.equivalent_answer h positions.now normals.now classes.now o others.now theirs.now codes.now }
{
    pair_fault(h, positions, normals, classes, o, others, theirs, codes)?;
    Ok(equivalent(h, positions, classes, o, others, codes))
}
