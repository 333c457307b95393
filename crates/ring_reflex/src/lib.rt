// The corners of what is left of a ring that are not convex, as a list: no other can block an ear. The lowest eligible ear by that list, and a cut that
// keeps it. Total on every float.
#![tactic(auto)]

ghost use Rattle.std.specs.Prelude.{◌≡◌, ◌+◌, ◌*◌, ◌≤◌, ◌<◌, true, length, get_or, take};
ghost use Rattle.laws.specs.Loop.{found};
ghost use Rattle.ring_theory.specs.Ring.{Below, without};
ghost use Rattle.ring_ears.specs.Ears.{Lent, Indexed, convex, ear, cut_in};
ghost use Rattle.ring_reflex.specs.Lowest.{lowest};
ghost use Rattle.ring_reflex.specs.Apart.{past_if, apart_of, holds, held, far_normal};

use ring_ears::Triangle;
use vec3::Vec3;

// The normal of the triangle's edge from its last corner to its first, turned as the triangle's sides are read.
#[tactic(auto, unfolding(crate::specs::Apart::far_normal))]
fn far_normal(t: Triangle) -> Vec3
    ensures { result ≡ far_normal t }
{
    if ring_triangle::is_right(base::side_of(t.previous, t.this, t.next)) {
        t.previous.cross_prod(t.next)
    } else {
        t.next.cross_prod(t.previous)
    }
}

// Whether the corner at index j is inside the triangle or on an edge of it. Most are beyond its far edge, which one product tells.
#[tactic(auto, using(crate::proofs::Fars::beyond), unfolding(crate::specs::Apart::holds))]
fn is_held(ps: &[f64], apart: &[u16], t: Triangle, normal: Vec3, j: usize) -> bool
    requires { (normal ≡ far_normal t) × (j < length apart.now) × (3 * get_or apart.now j 0 + 2 < length ps.now) }
    ensures { result ≡ holds ps.now apart.now t j }
{
    let p = ring_ears::corner_at(ps, apart, j);
    if base::is_surely_right(p, normal) {
        return false;
    }
    ring_triangle::inside_or_edge(p, t.previous, t.this, t.next)
}

// Whether one of those listed is.
fn is_one_held(ps: &[f64], apart: &[u16], t: Triangle) -> bool
    requires { Indexed ps.now apart.now × (length apart.now ≤ 512) }
    ensures { result ≡ held ps.now apart.now t }
{
    let normal = far_normal(t);
    (0..apart.len()).any(|j| is_held(ps, apart, t, normal, j))
}

// Whether index i is an eligible ear, where `apart` lists the corners that are not convex.
#[tactic(auto, using(ring_ears::proofs::Indexes::indexed, crate::proofs::Aparts::apart_indexed, crate::proofs::Aparts::apart_few, crate::proofs::Aparts::free, crate::proofs::Aparts::free_none), unfolding(ring_ears::specs::Ears::ear))]
fn is_free(ps: &[f64], ids: &[u16], classes: &[u8], apart: &[u16], i: usize) -> bool
    requires { Lent ps.now ids.now classes.now × (apart.now ≡ apart_of ids.now classes.now) × (i < length ids.now) }
    ensures { result ≡ ear ps.now ids.now classes.now i }
{
    if ring_ears::is_convex(ids, classes, i) {
        if apart.len() == 0 {
            return true;
        }
        return !is_one_held(ps, apart, ring_ears::triangle_at(ps, ids, i));
    }
    false
}

// The lowest eligible ear, if there is one, where `apart` lists the corners that are not convex.
pub fn lowest_ear(ps: &[f64], ids: &[u16], classes: &[u8], apart: &[u16]) -> Option<usize>
    requires { Lent ps.now ids.now classes.now × (apart.now ≡ apart_of ids.now classes.now) }
    ensures { result ≡ found (lowest ps.now ids.now classes.now) (length ids.now) }
{
    (0..ids.len()).find(|i| is_free(ps, ids, classes, apart, *i))
}

// How many are listed with one more, unless that is convex.
fn past(k: usize, passed: bool) -> usize
    requires { k ≤ 512 }
    ensures { result ≡ past_if passed k }
{
    if passed { k } else { k + 1 }
}

// Lists the corners that are not convex, by number, from the front of `apart` on; how many they are.
pub fn list_apart(ids: &[u16], classes: &[u8], apart: &mut [u16]) -> usize
    requires { Below (length classes.now) ids.now × (length ids.now ≤ length apart.old) × (length ids.now ≤ 512) }
    ensures { (take result apart.new ≡ apart_of ids.now classes.now) × (result ≤ length ids.now) }
{
    let mut k = 0;
    for (j, id) in ids.iter().enumerate() {
        apart[k] = *id;
        k = past(k, ring_ears::is_convex(ids, classes, j));
    }
    k
}

// Cuts a convex corner off and keeps the list of those that are not convex, the first k of `apart`; how many these then are.
pub fn cut_apart(
    ps: &[f64],
    ids: &mut [u16],
    classes: &mut [u8],
    apart: &mut [u16],
    k: usize,
    i: usize,
) -> usize
    requires { Lent ps.now ids.old classes.old × (i < length ids.old) × (convex ids.old classes.old i ≡ true) × (take k apart.old ≡ apart_of ids.old classes.old) × (k ≤ length apart.old) × (length ids.old ≤ length apart.old) }
    ensures { (record { ids = ids.exit.now; classes = classes.new } ≡ cut_in ps.now (record { ids = ids.entry.now; classes = classes.old }) i) × (take result apart.new ≡ apart_of (without i ids.entry.now) classes.new) × (result ≤ length apart.old) }
{
    let m = ids.len() - 1;
    if ring_ears::cut_told(ps, ids, classes, i) {
        return list_apart(&ids[..m], classes, apart);
    }
    k
}
