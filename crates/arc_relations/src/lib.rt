// How two arcs relate, as spherical/minor_arc.rs has it: by where they meet, and of collinear ones by what they share. Total on every float.
#![tactic(auto)]

ghost use Rattle.std.specs.Prelude.{◌≡◌};
ghost use Rattle.vec3.specs.Vec.{stable_unit};
ghost use Rattle.arc_relations.specs.Relations as Relations;

use minor_arc::{Meeting, MinorArc, Mode};
use vec3::Vec3;

// How two arcs relate.
#[derive(Clone, Copy)]
pub enum MinorArcRelation {
    Disjoint,
    Intersecting(Vec3),
    Touching(Vec3),
    Overlapping(MinorArc),
}

// At most two different points.
#[derive(Clone, Copy)]
pub enum Found {
    None,
    One(Vec3),
    Two(Vec3, Vec3),
}

// One candidate more: the first two that differ are kept.
#[tactic(auto, unfolding(crate::specs::Relations::pushed))]
fn push(f: Found, v: Vec3) -> Found
    ensures { result ≡ Relations.pushed f v }
{
    match f {
        Found::None => Found::One(v),
        Found::One(p) => if p.equals(v) {
            Found::One(p)
        } else {
            Found::Two(p, v)
        },
        Found::Two(p, q) => Found::Two(p, q),
    }
}

// The candidate v, if it is on the arc a.
#[tactic(auto, unfolding(crate::specs::Relations::considered))]
fn consider(a: MinorArc, f: Found, v: Vec3) -> Found
    ensures { result ≡ Relations.considered f a v }
{
    if minor_arc::is_within(a.location(v)) {
        push(f, v)
    } else {
        f
    }
}

// The arc between p and q in the direction of a, with a's normal.
#[tactic(auto, unfolding(crate::specs::Relations::span_of))]
fn span(a: MinorArc, p: Vec3, q: Vec3) -> MinorArc
    ensures { result ≡ Relations.span_of a p q }
{
    let n = a.normal;
    if p.dot_prod(a.start) >= q.dot_prod(a.start) {
        MinorArc {
            start: p,
            end: q,
            normal: n,
        }
    } else {
        MinorArc {
            start: q,
            end: p,
            normal: n,
        }
    }
}

fn shared(a: MinorArc, f: Found) -> MinorArcRelation
    ensures { result ≡ Relations.shared a f }
{
    match f {
        Found::None => MinorArcRelation::Disjoint,
        Found::One(p) => MinorArcRelation::Touching(p),
        Found::Two(p, q) => MinorArcRelation::Overlapping(span(a, p, q)),
    }
}

// Each end of what two arcs of one great circle share is one of their four ends.
#[tactic(auto, unfolding(crate::specs::Relations::collinear_of))]
fn relate_collinear(a: MinorArc, o: MinorArc) -> MinorArcRelation
    ensures { result ≡ Relations.collinear_of a o }
{
    let f = consider(a, Found::None, o.start);
    let g = consider(a, f, o.end);
    let h = consider(o, g, a.start);
    shared(a, consider(o, h, a.end))
}

// `relate` with the unit vector of the normals' product at hand.
#[tactic(auto, unfolding(crate::specs::Relations::relation_of))]
pub fn relate_at(mode: Mode, a: MinorArc, o: MinorArc, i: Vec3) -> MinorArcRelation
    requires { i ≡ stable_unit a.normal o.normal }
    ensures { result ≡ Relations.relation_of mode a o }
{
    match a.meeting_at(mode, o, i) {
        Meeting::Apart => MinorArcRelation::Disjoint,
        Meeting::Collinear => relate_collinear(a, o),
        Meeting::Crossing(p) => MinorArcRelation::Intersecting(p),
        Meeting::Touching(p) => MinorArcRelation::Touching(p),
    }
}

pub fn relate(mode: Mode, a: MinorArc, o: MinorArc) -> MinorArcRelation
    ensures { result ≡ Relations.relation_of mode a o }
{
    relate_at(mode, a, o, a.normal.stable_cross_prod_unit(o.normal))
}
