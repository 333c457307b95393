// Two rings beside each other: how their edges stand, and a point of one that is on no edge of the other. Over their borders.
// Total on every float; `requires` for indexes and lengths alone.
#![tactic(auto)]

ghost use Rattle.std.specs.Prelude.{◌≡◌, false, ◌+◌, ◌-◌, ◌*◌, ◌≤◌, ◌<◌, length};
ghost use Rattle.arc_relations.specs.Relations.{relation_of};
ghost use Rattle.ring_edges.specs.Blocks as B;
ghost use Rattle.ring_edges.specs.Edges.{edge_at};
ghost use Rattle.ring_pair.specs.Contacts as C;
ghost use Rattle.ring_pair.specs.Probes as P;

use arc_relations::MinorArcRelation;
use minor_arc::{MinorArc, Mode};
use ring_edges::Border;
use vec3::Vec3;

// How the edges of two rings stand.
#[derive(Clone, Copy, Debug, PartialEq, Eq)]
pub enum Contact {
    Apart,
    Touched,
    Crossed,
}

// A point of a ring that is on no edge of another, if there is one. It is no Option: loop_relate/specs/Silence tells corners and midpoints apart.
#[derive(Clone, Copy)]
pub enum Probe {
    Nowhere,
    Corner(Vec3),
    Middle(Vec3),
}

// How two edges stand.
fn grade(r: MinorArcRelation) -> Contact
    ensures { result ≡ C.graded (C.is_crossing r) (C.is_touch r) }
{
    match r {
        MinorArcRelation::Disjoint => Contact::Apart,
        MinorArcRelation::Intersecting(_) => Contact::Crossed,
        MinorArcRelation::Touching(_) | MinorArcRelation::Overlapping(_) => Contact::Touched,
    }
}

pub fn is_crossed(k: Contact) -> bool
    ensures { result ≡ C.is_crossed k }
{
    k == Contact::Crossed
}

pub fn is_touched(k: Contact) -> bool
    ensures { result ≡ C.is_touched k }
{
    k == Contact::Touched
}

// How edges stand of which none cross.
fn uncrossed(touched: bool) -> Contact
    ensures { result ≡ C.graded false touched }
{
    if touched {
        Contact::Touched
    } else {
        Contact::Apart
    }
}

// How an arc relates to edge j of a ring, with its candidate c at hand: an edge whose candidate misses the arc is not read.
#[tactic(auto, using(arc_relations::proofs::Missing::missed_disjoint), unfolding(ring_edges::specs::Edges::edge_at, ring_edges::specs::Blocks::candidate_at))]
fn relation_at(mode: Mode, a: MinorArc, other: &Border, j: usize, c: Vec3) -> MinorArcRelation
    requires { (j < other.now.n) × (c ≡ B.candidate_at a.normal other.now.normals.now j) }
    ensures { result ≡ relation_of mode a (edge_at other.now.positions.now other.now.normals.now other.now.n j) }
{
    if a.misses(mode, c) && !c.equals(Vec3::ZERO) {
        return MinorArcRelation::Disjoint;
    }
    arc_relations::relate_at(mode, a, other.edge(j), c)
}

// How an arc stands to the edges from `from` up to `to`, with their candidates at hand: the first crossing ends it, a touch is remembered.
fn edges_contact(
    mode: Mode,
    a: MinorArc,
    other: &Border,
    from: usize,
    to: usize,
    candidates: &[f64],
) -> Contact
    requires { (from ≤ to) × (to ≤ other.now.n) × (candidates.now ≡ B.candidates a.normal other.now.normals.now from (to - from)) }
    ensures { result ≡ C.part_contact mode a other.now.positions.now other.now.normals.now other.now.n from to }
{
    let mut touched = false;
    for j in from..to {
        let c = ring_edges::candidate(a.normal, other.normals, candidates, from, to, j);
        let k = grade(relation_at(mode, a, other, j, c));
        if is_crossed(k) {
            return Contact::Crossed;
        }
        touched = touched | is_touched(k);
    }
    uncrossed(touched)
}

// The same, with room for the candidates.
fn contact_with(
    mode: Mode,
    a: MinorArc,
    other: &Border,
    from: usize,
    to: usize,
    work: &mut [f64],
    candidates: &mut [f64],
) -> Contact
    requires { (from ≤ to) × (to ≤ other.now.n) × (length work.old ≡ 3 * (to - from)) × (length candidates.old ≡ 3 * (to - from)) }
    ensures { result ≡ C.part_contact mode a other.now.positions.now other.now.normals.now other.now.n from to }
{
    ring_edges::write_candidates(a.normal, other.normals, from, to - from, work, candidates);
    edges_contact(mode, a, other, from, to, candidates)
}

// How an arc stands to a block of edges: candidates first, so that no test waits for a root.
fn block_contact(mode: Mode, a: MinorArc, other: &Border, from: usize, to: usize) -> Contact
    requires { (from ≤ to) × (to ≤ from + 16) × (to ≤ other.now.n) }
    ensures { result ≡ C.part_contact mode a other.now.positions.now other.now.normals.now other.now.n from to }
{
    let size = 3 * (to - from);
    let mut work = [0.0f64; 48];
    let mut candidates = [0.0f64; 48];
    contact_with(
        mode,
        a,
        other,
        from,
        to,
        &mut work[..size],
        &mut candidates[..size],
    )
}

// How an arc stands to the edges of a ring, block by block.
fn arc_contact(mode: Mode, a: MinorArc, other: &Border) -> Contact
    ensures { result ≡ C.arc_contact mode a other.now.positions.now other.now.normals.now other.now.n }
{
    let mut touched = false;
    let mut from = 0usize;
    while from < other.n {
        let to = ring_index::block_end(from, other.n);
        let k = block_contact(mode, a, other, from, to);
        if is_crossed(k) {
            return Contact::Crossed;
        }
        touched = touched | is_touched(k);
        from = to;
    }
    uncrossed(touched)
}

// How the edges of two rings stand.
pub fn contact_of(mode: Mode, one: &Border, other: &Border) -> Contact
    ensures { result ≡ C.contact_of mode one.now.positions.now one.now.normals.now one.now.n other.now.positions.now other.now.normals.now other.now.n }
{
    let mut touched = false;
    for i in 0..one.n {
        let k = arc_contact(mode, one.edge(i), other);
        if is_crossed(k) {
            return Contact::Crossed;
        }
        touched = touched | is_touched(k);
    }
    uncrossed(touched)
}

// Whether corner i of the probe is on no edge of the reference.
#[tactic(auto, unfolding(crate::specs::Probes::free_corner))]
fn free_corner(probe: &Border, reference: &Border, i: usize) -> bool
    requires { i < probe.now.n }
    ensures { result ≡ P.free_corner probe.now.positions.now reference.now.positions.now reference.now.normals.now reference.now.n i }
{
    !reference.any_edge_contains_position(probe.corner(i))
}

// The first free corner, or n.
fn first_corner(probe: &Border, reference: &Border) -> usize
    ensures { result ≡ P.first_corner probe.now.positions.now probe.now.n reference.now.positions.now reference.now.normals.now reference.now.n }
{
    for i in 0..probe.n {
        if free_corner(probe, reference, i) {
            return i;
        }
    }
    probe.n
}

// The midpoint of the probe's edge i.
#[tactic(auto, unfolding(crate::specs::Probes::middle_at))]
fn middle(probe: &Border, i: usize) -> Option<Vec3>
    requires { i < probe.now.n }
    ensures { result ≡ P.middle_at probe.now.positions.now probe.now.n i }
{
    probe.corner(i).midpoint(probe.corner_after(i))
}

// Whether there is a point, and it is on no edge of the reference.
fn free_point(at: Option<Vec3>, reference: &Border) -> bool
    ensures { result ≡ P.free_point reference.now.positions.now reference.now.normals.now reference.now.n at }
{
    match at {
        None => false,
        Some(p) => !reference.any_edge_contains_position(p),
    }
}

// The first edge whose midpoint is free, or n.
fn first_middle(probe: &Border, reference: &Border) -> usize
    ensures { result ≡ P.first_middle probe.now.positions.now probe.now.n reference.now.positions.now reference.now.normals.now reference.now.n }
{
    for i in 0..probe.n {
        if free_point(middle(probe, i), reference) {
            return i;
        }
    }
    probe.n
}

fn as_middle(at: Option<Vec3>) -> Probe
    ensures { result ≡ P.as_middle at }
{
    match at {
        None => Probe::Nowhere,
        Some(p) => Probe::Middle(p),
    }
}

// The first free midpoint. It is rare, and so a function of its own.
#[tactic(auto, unfolding(crate::specs::Probes::middle_probe))]
fn middle_probe(probe: &Border, reference: &Border) -> Probe
    ensures { result ≡ P.middle_probe probe.now.positions.now probe.now.n reference.now.positions.now reference.now.normals.now reference.now.n }
{
    let i = first_middle(probe, reference);
    if i < probe.n {
        return as_middle(middle(probe, i));
    }
    Probe::Nowhere
}

// A point of the probe that is on no edge of the reference: its first free corner, or where there is none its first free midpoint.
#[tactic(auto, using(crate::proofs::Firsts::asked_is), unfolding(crate::specs::Probes::unambiguous_point))]
pub fn unambiguous_point(probe: &Border, reference: &Border) -> Probe
    ensures { result ≡ P.unambiguous_point probe.now.positions.now probe.now.n reference.now.positions.now reference.now.normals.now reference.now.n }
{
    let i = first_corner(probe, reference);
    if i < probe.n {
        return Probe::Corner(probe.corner(i));
    }
    middle_probe(probe, reference)
}
