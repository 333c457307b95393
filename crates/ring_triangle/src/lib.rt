// Whether a position is inside a triangle or on an edge of it, as sloop.rs has it. Total on every float.
#![tactic(auto)]

ghost use Rattle.std.specs.Prelude.{◌≡◌, ◌≤◌};
ghost use Rattle.ring_triangle.specs.Inside.{is_right, collinears, fits, edge_side, fits_edges, is_corner, inside_or_edge};

use base::Side;
use vec3::Vec3;

pub fn is_right(s: Side) -> bool
    ensures { result ≡ is_right s }
{
    match s {
        Side::Left => false,
        Side::Right => true,
        Side::Collinear => false,
    }
}

// 1 for collinear, else 0.
fn collinear(s: Side) -> u8
    ensures { (result ≡ collinears s) × (result ≤ 1) }
{
    match s {
        Side::Left => 0,
        Side::Right => 0,
        Side::Collinear => 1,
    }
}

// Whether none of the three is right and at most one is collinear.
#[tactic(auto, unfolding(crate::specs::Inside::fits))]
fn sides_fit(a: Side, b: Side, c: Side) -> bool
    ensures { result ≡ fits a b c }
{
    if is_right(a) | is_right(b) | is_right(c) {
        return false;
    }
    collinear(a) + collinear(b) + collinear(c) < 2
}

// The side of p against the edge from u to v, whose ends are exchanged where the triangle is clockwise.
#[tactic(auto, unfolding(crate::specs::Inside::edge_side))]
fn clockwise_side(clockwise: bool, p: Vec3, u: Vec3, v: Vec3) -> Side
    ensures { result ≡ edge_side clockwise p u v }
{
    if clockwise {
        base::side_of(p, v, u)
    } else {
        base::side_of(p, u, v)
    }
}

#[tactic(auto, unfolding(crate::specs::Inside::fits_edges))]
fn edges_fit(clockwise: bool, p: Vec3, a: Vec3, b: Vec3, c: Vec3) -> bool
    ensures { result ≡ fits_edges clockwise p a b c }
{
    let side1 = clockwise_side(clockwise, p, a, b);
    let side2 = clockwise_side(clockwise, p, b, c);
    let side3 = clockwise_side(clockwise, p, c, a);
    sides_fit(side1, side2, side3)
}

#[tactic(auto, unfolding(crate::specs::Inside::is_corner))]
fn is_corner(p: Vec3, a: Vec3, b: Vec3, c: Vec3) -> bool
    ensures { result ≡ is_corner p a b c }
{
    p.equals(a) | p.equals(b) | p.equals(c)
}

// Whether p is inside the triangle (a, b, c) or on an edge of it; a corner is not.
#[tactic(auto, unfolding(crate::specs::Inside::inside_or_edge))]
pub fn inside_or_edge(p: Vec3, a: Vec3, b: Vec3, c: Vec3) -> bool
    ensures { result ≡ inside_or_edge p a b c }
{
    if is_corner(p, a, b, c) {
        return false;
    }
    let clockwise = is_right(base::side_of(a, b, c));
    edges_fit(clockwise, p, a, b, c)
}
