// Ears of a ring: eligible ears and one cut, as sloop.rs has them. A ring is lent as its positions and classes (0 convex, 1 reflex, 2 both);
// what is left of it is a list of ring numbers, and the classes by ring number. Total on every float.
#![tactic(auto)]

ghost use Rattle.std.specs.Prelude.{◌≡◌, ◌++◌, ◌+◌, ◌-◌, ◌*◌, ◌≤◌, ◌<◌, length, get_or, drop};
ghost use Rattle.ring_theory.specs.Ring.{without};
ghost use Rattle.ring_ears.specs.Ears.{Lent, corner, convex, triangle_at, Indexed, blocks, blocked, ear, class_of, turn_of, reclassify, reclassify_both, cut_in};
ghost use Rattle.ring_ears.specs.Changes.{differ, changed, one_changed};

use base::Side;
use vec3::Vec3;

// The corners of the triangle at an index: the one before, its own, the one after.
#[derive(Clone, Copy)]
pub struct Triangle {
    pub previous: Vec3,
    pub this: Vec3,
    pub next: Vec3,
}

// The position of the corner at index i.
pub fn corner_at(ps: &[f64], ids: &[u16], i: usize) -> Vec3
    requires { (i < length ids.now) × (3 * get_or ids.now i 0 + 2 < length ps.now) }
    ensures { result ≡ corner ps.now ids.now i }
{
    vec3::at(ps, ids[i] as usize)
}

pub fn is_convex(ids: &[u16], classes: &[u8], i: usize) -> bool
    requires { (i < length ids.now) × (get_or ids.now i 0 < length classes.now) }
    ensures { result ≡ convex ids.now classes.now i }
{
    classes[ids[i] as usize] == 0
}

pub fn triangle_at(ps: &[f64], ids: &[u16], i: usize) -> Triangle
    requires { Indexed ps.now ids.now × (i < length ids.now) × (length ids.now ≤ 512) }
    ensures { result ≡ triangle_at ps.now ids.now i }
{
    let previous = corner_at(ps, ids, ring_index::previous(i, ids.len()));
    let this = corner_at(ps, ids, i);
    let next = corner_at(ps, ids, ring_index::next(i, ids.len()));
    Triangle {
        previous: previous,
        this: this,
        next: next,
    }
}

// Whether the corner at index j is of another class than convex, and inside or on an edge of the triangle.
#[tactic(auto, unfolding(crate::specs::Ears::blocks))]
fn is_block(ps: &[f64], ids: &[u16], classes: &[u8], t: Triangle, j: usize) -> bool
    requires { (j < length ids.now) × (get_or ids.now j 0 < length classes.now) × (length ps.now ≡ 3 * length classes.now) }
    ensures { result ≡ blocks ps.now ids.now classes.now t j }
{
    if is_convex(ids, classes, j) {
        return false;
    }
    ring_triangle::inside_or_edge(corner_at(ps, ids, j), t.previous, t.this, t.next)
}

// Whether one corner of the ring left is.
fn is_blocked(ps: &[f64], ids: &[u16], classes: &[u8], t: Triangle) -> bool
    requires { Lent ps.now ids.now classes.now }
    ensures { result ≡ blocked ps.now ids.now classes.now t }
{
    (0..ids.len()).any(|j| is_block(ps, ids, classes, t, j))
}

// Whether index i is an eligible ear.
#[tactic(auto, using(crate::proofs::Indexes::indexed), unfolding(crate::specs::Ears::ear))]
pub fn is_ear(ps: &[f64], ids: &[u16], classes: &[u8], i: usize) -> bool
    requires { Lent ps.now ids.now classes.now × (i < length ids.now) }
    ensures { result ≡ ear ps.now ids.now classes.now i }
{
    if is_convex(ids, classes, i) {
        return !is_blocked(ps, ids, classes, triangle_at(ps, ids, i));
    }
    false
}

// Takes the number at index i out; the last index keeps its own. Element by element: each is read at one index and written at another.
fn remove_at(ids: &mut [u16], i: usize)
    requires { (i < length ids.old) × (length ids.old ≤ 512) }
    ensures { ids.new ≡ without i ids.old ++ drop (length ids.old - 1) ids.old }
{
    for j in i..ids.len() - 1 {
        ids[j] = ids[j + 1];
    }
}

// The class of a corner, by the side of the previous one against the edge from it to the next.
fn class_of(s: Side) -> u8
    ensures { result ≡ class_of s }
{
    match s {
        Side::Left => 1,
        Side::Right => 0,
        Side::Collinear => 2,
    }
}

// The class of the corner at index i. Most are convex by one product.
#[tactic(auto, using(base::proofs::Surely::surely_right_lem))]
fn class_at(ps: &[f64], ids: &[u16], i: usize) -> u8
    requires { Indexed ps.now ids.now × (i < length ids.now) × (length ids.now ≤ 512) }
    ensures { result ≡ class_of (turn_of (triangle_at ps.now ids.now i)) }
{
    let t = triangle_at(ps, ids, i);
    if base::is_surely_right(t.previous, t.this.cross_prod(t.next)) {
        return 0;
    }
    class_of(base::side_of(t.previous, t.this, t.next))
}

fn differ(a: bool, b: bool) -> bool
    ensures { result ≡ differ a b }
{
    if a { !b } else { b }
}

// Classes the corner at index i afresh; whether it was convex and is not, or the other way round.
#[tactic(auto, using(crate::proofs::Indexes::indexed), unfolding(crate::specs::Ears::reclassify, crate::specs::Changes::changed))]
fn reclassify(ps: &[f64], ids: &[u16], classes: &mut [u8], i: usize) -> bool
    requires { Lent ps.now ids.now classes.old × (i < length ids.now) }
    ensures { (classes.new ≡ reclassify ps.now ids.now i classes.old) × (result ≡ changed ps.now ids.now i classes.old) }
{
    let c = class_at(ps, ids, i);
    let was = is_convex(ids, classes, i);
    let k = ids[i] as usize;
    classes[k] = c;
    differ(was, c == 0)
}

// Classes the two neighbours of a corner that was cut off at index i afresh, if more than three are left: the one at the cut and then the one before it,
// counted round the ring. Whether one of them was convex and is not, or the other way round.
fn reclassify_both(ps: &[f64], ids: &[u16], classes: &mut [u8], i: usize) -> bool
    requires { Lent ps.now ids.now classes.old × (i ≤ length ids.now) }
    ensures { (classes.new ≡ reclassify_both ps.now ids.now i classes.old) × (result ≡ one_changed ps.now ids.now i classes.old) }
{
    let m = ids.len();
    if 3 < m {
        let at_cut = ring_index::wrapped(i, m);
        let before_cut = ring_index::previous(at_cut, m);
        let a = reclassify(ps, ids, classes, at_cut);
        let b = reclassify(ps, ids, classes, before_cut);
        return a | b;
    }
    false
}

// Cuts the corner at index i off: its number goes, and the last index keeps its own. Whether a neighbour was convex and is not, or the other way round.
#[tactic(auto, using(ring_theory::proofs::Withouts::taken, crate::proofs::Indexes::lent_without))]
pub fn cut_told(ps: &[f64], ids: &mut [u16], classes: &mut [u8], i: usize) -> bool
    requires { Lent ps.now ids.old classes.old × (i < length ids.old) }
    ensures { (record { ids = ids.exit.now; classes = classes.new } ≡ cut_in ps.now (record { ids = ids.entry.now; classes = classes.old }) i)
        × (result ≡ one_changed ps.now (without i ids.entry.now) i classes.old) }
{
    remove_at(ids, i);
    let m = ids.len() - 1;
    reclassify_both(ps, &ids[..m], classes, i)
}

// Cuts the corner at index i off.
pub fn cut_one(ps: &[f64], ids: &mut [u16], classes: &mut [u8], i: usize)
    requires { Lent ps.now ids.old classes.old × (i < length ids.old) }
    ensures { record { ids = ids.exit.now; classes = classes.new } ≡ cut_in ps.now (record { ids = ids.entry.now; classes = classes.old }) i }
{
    let told = cut_told(ps, ids, classes, i);
}
