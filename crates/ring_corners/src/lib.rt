// What a ring is made of, from an opened list of positions and its edges (crate `ring_turns`): the corners, normals and classes in clockwise order.
// Total on every float; `requires` for indexes and lengths alone.
#![tactic(auto)]

ghost use Rattle.std.specs.Prelude.{◌≡◌, ◌++◌, ◌-◌, ◌*◌, ◌%◌, ◌≤◌, ◌<◌, length, drop};
ghost use Rattle.ring_turns.specs.Turns.{edge_normals};
ghost use Rattle.ring_corners.specs.Corners as R;

use vec3::Vec3;

// How many of m positions are left when the closing one, equal to the first, is taken off.
pub fn opened(list: &[f64], m: usize) -> usize
    requires { 3 * m ≤ length list.now }
    ensures { result ≡ R.opened list.now m }
{
    if m == 0 {
        return 0;
    }
    if vec3::at(list, 0).equals(vec3::at(list, m - 1)) {
        m - 1
    } else {
        m
    }
}

// The index in the list of the ring's corner k: the list is kept, or exactly reversed.
fn corner_source(n: usize, reversed: bool, k: usize) -> usize
    requires { (k < n) × (n ≤ 512) }
    ensures { (result ≡ R.corner_source n reversed k) × (result < n) }
{
    if reversed { n - 1 - k } else { k }
}

// The ring's corner k.
fn corner(list: &[f64], n: usize, reversed: bool, k: usize) -> Vec3
    requires { (k < n) × (n ≤ 512) × (3 * n ≤ length list.now) }
    ensures { result ≡ R.corner_at list.now n reversed k }
{
    vec3::at(list, corner_source(n, reversed, k))
}

// The index in the list of the edge that, walked the other way, goes from corner k of the reversed list on.
#[tactic(auto, using(ring_index::proofs::Rounds::under, ring_index::proofs::Rounds::over))]
fn opposite_source(n: usize, k: usize) -> usize
    requires { (k < n) × (n ≤ 512) }
    ensures { (result ≡ (2 * n - 2 - k) % n) × (result < n) }
{
    if k + 1 < n { n - 2 - k } else { n - 1 }
}

// The normal of the edge from corner k on: the edge's own, or of the edge walked the other way its negation.
#[tactic(auto, unfolding(crate::specs::Corners::normal_at))]
fn ring_normal(list: &[f64], edges: &[f64], n: usize, reversed: bool, k: usize) -> Vec3
    requires { (k < n) × (n ≤ 512) × (edges.now ≡ edge_normals list.now n) }
    ensures { result ≡ R.normal_at list.now n reversed k }
{
    if reversed {
        ring_turns::edge(list, edges, n, opposite_source(n, k)).neg()
    } else {
        ring_turns::edge(list, edges, n, k)
    }
}

// The class code for the product of the previous corner with an edge's normal: 0 convex, 1 reflex, 2 both.
#[tactic(auto, unfolding(crate::specs::Corners::class_by))]
fn class_by(product: f64) -> u8
    ensures { result ≡ R.class_by product }
{
    if numbers::eq_zero(product) {
        return 2;
    }
    if product < 0.0 { 0 } else { 1 }
}

// The class of corner k, by the side of the previous edge's start against the edge from here.
#[tactic(auto, unfolding(crate::specs::Corners::class_at))]
fn class(list: &[f64], edges: &[f64], n: usize, reversed: bool, k: usize) -> u8
    requires { (k < n) × (n ≤ 512) × (3 * n ≤ length list.now) × (edges.now ≡ edge_normals list.now n) }
    ensures { result ≡ R.class_at list.now n reversed k }
{
    let before = corner(list, n, reversed, ring_index::previous(k, n));
    class_by(before.dot_prod(ring_normal(list, edges, n, reversed, k)))
}

// The ring's classes, into a work array.
pub fn write_classes(list: &[f64], edges: &[f64], n: usize, reversed: bool, out: &mut [u8])
    requires { (n ≤ 512) × (3 * n ≤ length list.now) × (edges.now ≡ edge_normals list.now n) × (length out.old ≡ n) }
    ensures { out.new ≡ R.classes_of list.now n reversed }
{
    for (k, c) in out.iter_mut().enumerate() {
        *c = class(list, edges, n, reversed, k);
    }
}

// Whether every class is both.
pub fn all_both(classes: &[u8]) -> bool
    ensures { result ≡ R.all_both classes.now }
{
    classes.iter().all(|c| *c == 2)
}

// The ring's corners, into the front of a lent list.
pub fn write_corners(list: &[f64], n: usize, reversed: bool, out: &mut [f64])
    requires { (n ≤ 512) × (3 * n ≤ length list.now) × (3 * n ≤ length out.old) }
    ensures { out.new ≡ R.ring_of list.now n reversed ++ drop (3 * n) out.old }
{
    vec3::put_each(out, n, |k| corner(list, n, reversed, k));
}

// The ring's normals, into the front of a lent list.
pub fn write_normals(list: &[f64], edges: &[f64], n: usize, reversed: bool, out: &mut [f64])
    requires { (n ≤ 512) × (edges.now ≡ edge_normals list.now n) × (3 * n ≤ length out.old) }
    ensures { out.new ≡ R.normals_of list.now n reversed ++ drop (3 * n) out.old }
{
    vec3::put_each(out, n, |k| ring_normal(list, edges, n, reversed, k));
}
