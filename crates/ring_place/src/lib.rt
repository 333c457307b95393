// Whether a place is inside a ring, by its border.
// Total on every float; `requires` for indexes and lengths alone.
#![tactic(auto)]

ghost use Rattle.std.specs.Prelude.{◌≡◌, ◌+◌, ◌-◌, ◌*◌, ◌≤◌, ◌<◌, length};
ghost use Rattle.laws.specs.Loop.{iterate};
ghost use Rattle.minor_arc.specs.Arcs.{meeting_of, meeting_point};
ghost use Rattle.ring_edges.specs.Blocks as B;
ghost use Rattle.ring_edges.specs.Edges as E;
ghost use Rattle.ring_place.specs.Places as P;

use cap::Cap;
use minor_arc::{MinorArc, Mode};
use ring_edges::Border;
use vec3::Vec3;

// An arc's crossings so far: whether their number is even, where it met the first edge, and where it met the edge before.
#[derive(Clone, Copy)]
pub struct Crossings {
    pub even: bool,
    pub first: Vec3,
    pub previous: Vec3,
}

impl Crossings {
    fn new(even: bool, first: Vec3, previous: Vec3) -> Crossings
        ensures { result ≡ P.tally even first previous }
    {
        Crossings {
            even,
            first,
            previous,
        }
    }
}

// Whether two points are one: each component within 2^-52.
fn near_by(a: Vec3, b: Vec3) -> bool
    ensures { result ≡ P.near_by a b }
{
    numbers::eq(a.x, b.x) & numbers::eq(a.y, b.y) & numbers::eq(a.z, b.z)
}

// One crossing more, unless it repeats one that is counted: an arc through a corner meets both its edges.
fn counted(repeated: bool, even: bool) -> bool
    ensures { result ≡ P.counted repeated even }
{
    if repeated { even } else { !even }
}

// Edge i is met in p.
#[tactic(auto, unfolding(crate::specs::Places::met_at))]
fn met(n: usize, i: usize, p: Vec3, s: Crossings) -> Crossings
    requires { i < n }
    ensures { result ≡ P.met_at n i p s }
{
    let first = s.first;
    let previous = s.previous;
    if i == 0 {
        return Crossings::new(!s.even, p, previous);
    }
    let again = near_by(previous, p);
    if i == n - 1 {
        return Crossings::new(counted(near_by(first, p) | again, s.even), first, previous);
    }
    Crossings::new(counted(again, s.even), first, p)
}

// Edge i is met, or is not: then the previous point is forgotten.
fn passed(n: usize, i: usize, at: Option<Vec3>, s: Crossings) -> Crossings
    requires { i < n }
    ensures { result ≡ P.passed n i at s }
{
    match at {
        None => Crossings::new(s.even, s.first, Vec3::ZERO),
        Some(p) => met(n, i, p, s),
    }
}

// Where the arc meets edge i, with its candidate c at hand: an edge whose candidate misses the arc is not read.
#[tactic(auto, using(minor_arc::proofs::Missing::missed_none, minor_arc::proofs::Missing::missed_other_none), unfolding(ring_edges::specs::Edges::edge_at, ring_edges::specs::Blocks::candidate_at))]
fn point_at(mode: Mode, arc: MinorArc, border: &Border, i: usize, c: Vec3) -> Option<Vec3>
    requires { (i < border.now.n) × (c ≡ B.candidate_at arc.normal border.now.normals.now i) }
    ensures { result ≡ meeting_point (meeting_of mode arc (E.edge_at border.now.positions.now border.now.normals.now border.now.n i)) }
{
    if arc.misses(mode, c) {
        return None;
    }
    let edge = border.edge(i);
    if arc.misses_other(mode, edge, c) {
        return None;
    }
    arc.intersection_at(mode, edge, c)
}

// The edges from `from` up to `to`, with their candidates at hand.
fn pass_edges(
    mode: Mode,
    arc: MinorArc,
    border: &Border,
    from: usize,
    to: usize,
    candidates: &[f64],
    before: Crossings,
) -> Crossings
    requires { (from ≤ to) × (to ≤ border.now.n) × (candidates.now ≡ B.candidates arc.normal border.now.normals.now from (to - from)) }
    ensures { result ≡ iterate (P.pass mode arc border.now.positions.now border.now.normals.now border.now.n) (to - from) from before }
{
    let mut s = before;
    for i in from..to {
        let c = ring_edges::candidate(arc.normal, border.normals, candidates, from, to, i);
        s = passed(border.n, i, point_at(mode, arc, border, i, c), s);
    }
    s
}

// The same, with room for the candidates.
fn pass_with(
    mode: Mode,
    arc: MinorArc,
    border: &Border,
    from: usize,
    to: usize,
    work: &mut [f64],
    candidates: &mut [f64],
    before: Crossings,
) -> Crossings
    requires { (from ≤ to) × (to ≤ border.now.n) × (length work.old ≡ 3 * (to - from)) × (length candidates.old ≡ 3 * (to - from)) }
    ensures { result ≡ iterate (P.pass mode arc border.now.positions.now border.now.normals.now border.now.n) (to - from) from before }
{
    ring_edges::write_candidates(
        arc.normal,
        border.normals,
        from,
        to - from,
        work,
        candidates,
    );
    pass_edges(mode, arc, border, from, to, candidates, before)
}

// A block of edges: candidates first, so that no test waits for a root.
fn pass_block(
    mode: Mode,
    arc: MinorArc,
    border: &Border,
    from: usize,
    to: usize,
    before: Crossings,
) -> Crossings
    requires { (from ≤ to) × (to ≤ from + 16) × (to ≤ border.now.n) }
    ensures { result ≡ iterate (P.pass mode arc border.now.positions.now border.now.normals.now border.now.n) (to - from) from before }
{
    let size = 3 * (to - from);
    let mut work = [0.0f64; 48];
    let mut candidates = [0.0f64; 48];
    pass_with(
        mode,
        arc,
        border,
        from,
        to,
        &mut work[..size],
        &mut candidates[..size],
        before,
    )
}

// Whether the arc crosses the edges an even number of times: block by block.
pub fn crossed_evenly(mode: Mode, arc: MinorArc, border: &Border) -> bool
    ensures { result ≡ P.crossed_evenly mode arc border.now.positions.now border.now.normals.now border.now.n }
{
    let mut s = Crossings::new(true, Vec3::ZERO, Vec3::ZERO);
    let mut from = 0usize;
    while from < border.n {
        let to = ring_index::block_end(from, border.n);
        s = pass_block(mode, arc, border, from, to, s);
        from = to;
    }
    s.even
}

// The inside from which an arc goes to p: there is no one arc between antipodes.
#[tactic(auto, unfolding(crate::specs::Places::from))]
fn from(a: Vec3, b: Vec3, p: Vec3) -> Vec3
    ensures { result ≡ P.from a b p }
{
    if a.is_antipode_of(p) { b } else { a }
}

// Whether the cap lets p be inside: in plain mode alone it is asked, as a long side may leave it.
fn admits(mode: Mode, cap: Cap, p: Vec3) -> bool
    ensures { result ≡ P.admits mode cap p }
{
    let inside = cap.contains_position(p);
    match mode {
        Mode::Plain => inside,
        Mode::Long => true,
    }
}

// Whether p is inside a ring with a cap and the insides a and b.
#[tactic(auto, unfolding(crate::specs::Places::inside_by))]
pub fn inside_by(mode: Mode, cap: Cap, a: Vec3, b: Vec3, border: &Border, p: Vec3) -> bool
    ensures { result ≡ P.inside_by mode cap a b border.now.positions.now border.now.normals.now border.now.n p }
{
    if !admits(mode, cap, p) {
        return false;
    }
    p.equals(a) || p.equals(b) || crossed_evenly(mode, MinorArc::new(from(a, b, p), p), border)
}

// Whether p is right of edge i by more than 2^-52.
fn is_within(border: &Border, i: usize, p: Vec3) -> bool
    requires { i < border.now.n }
    ensures { result ≡ P.within border.now.normals.now i p }
{
    -p.dot_prod(vec3::at(border.normals, i)) > numbers::EPSILON
}

// Whether p is inside a ring of three corners: no corner, and right of each edge.
#[tactic(auto, unfolding(crate::specs::Places::in_triangle))]
pub fn in_triangle(positions: &[f64], normals: &[f64], p: Vec3) -> bool
    requires { (9 ≤ length positions.now) × (9 ≤ length normals.now) }
    ensures { result ≡ P.in_triangle positions.now normals.now p }
{
    let border = Border::new(positions, normals, 3);
    let corner = border.has_vertex(p);
    !corner & is_within(&border, 0, p) & is_within(&border, 1, p) & is_within(&border, 2, p)
}
