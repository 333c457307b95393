// The checker of triangle lists: the ring is cut along the list, ear by ear. Total on every float, and on any list of numbers.
#![tactic(auto)]

ghost use Rattle.std.specs.Prelude.{◌≡◌, ◌+◌, ◌-◌, ◌*◌, ◌≤◌, ◌<◌, length, get_or, drop};
ghost use Rattle.laws.specs.Loop.{found};
ghost use Rattle.ring_ears.specs.Ears.{Lent};
ghost use Rattle.ring_cut.specs.Cut.{Ring, Work, whole_ring};
ghost use Rattle.ring_check.specs.Accepted.{index_of, between, fits_at, same_numbers, accepts_from, accepted};

// The index of the number b, if it is there.
fn index_of(ids: &[u16], b: u16) -> Option<usize>
    requires { length ids.now ≤ 512 }
    ensures { result ≡ found (index_of ids.now b) (length ids.now) }
{
    ids.iter().position(|x| *x == b)
}

// Whether a stands before index i, and c after it.
fn is_between(ids: &[u16], i: usize, a: u16, c: u16) -> bool
    requires { (i < length ids.now) × (length ids.now ≤ 512) }
    ensures { result ≡ between ids.now i a c }
{
    let p = ring_index::previous(i, ids.len());
    let n = ring_index::next(i, ids.len());
    (ids[p] == a) & (ids[n] == c)
}

// Whether index i is one of the ring left, between a and c, and an eligible ear.
#[tactic(auto, unfolding(crate::specs::Accepted::fits_at))]
fn fits_at(ps: &[f64], ids: &[u16], classes: &[u8], i: usize, a: u16, c: u16) -> bool
    requires { Lent ps.now ids.now classes.now × (i ≤ length ids.now) }
    ensures { result ≡ fits_at ps.now (record { ids = ids.entry.now; classes = classes.now }) i a c }
{
    if i < ids.len() {
        if is_between(ids, i, a, c) {
            return ring_ears::is_ear(ps, ids, classes, i);
        }
    }
    false
}

// The index of the middle number of the triple numbered t, if that is on the ring left.
fn index_at(ids: &[u16], triangles: &[u16], t: usize) -> Option<usize>
    requires { (length ids.now ≤ 512) × (3 * t + 2 < length triangles.now) }
    ensures { result ≡ found (index_of ids.now (get_or triangles.now (3 * t + 1) 0)) (length ids.now) }
{
    index_of(ids, triangles[3 * t + 1])
}

// Whether the triple numbered t, whose middle number has index i, is that of an eligible ear.
fn is_named(ps: &[f64], ids: &[u16], classes: &[u8], i: usize, triangles: &[u16], t: usize) -> bool
    requires { Lent ps.now ids.now classes.now × (i ≤ length ids.now) × (3 * t + 2 < length triangles.now) }
    ensures { result ≡ fits_at ps.now (record { ids = ids.entry.now; classes = classes.now }) i (get_or triangles.now (3 * t) 0) (get_or triangles.now (3 * t + 2) 0) }
{
    fits_at(ps, ids, classes, i, triangles[3 * t], triangles[3 * t + 2])
}

// Whether the triple numbered t is the ring of three that is left, from its first.
#[tactic(auto, using(crate::proofs::Lists::same_last))]
fn is_last(ids: &[u16], triangles: &[u16], t: usize) -> bool
    requires { (length ids.now ≡ 3) × (length triangles.now ≡ 3 * (t + 1)) }
    ensures { result ≡ same_numbers ids.now (drop (3 * t) triangles.now) }
{
    let k = 3 * t;
    (ids[0] == triangles[k]) & (ids[1] == triangles[k + 1]) & (ids[2] == triangles[k + 2])
}

// Cuts the ring along the list: each triple but the last has to be that of an eligible ear of the ring then left, the last that ring's three. By how
// many are left, of which each cut takes one.
fn follow(ps: &[f64], ids: &mut [u16], classes: &mut [u8], triangles: &[u16]) -> bool
    requires { Lent ps.now ids.old classes.old × (3 ≤ length ids.old) × (length triangles.now ≡ 3 * (length ids.old - 2)) }
    ensures { result ≡ accepts_from ps.now (record { ids = ids.entry.now; classes = classes.old }) triangles.now }
{
    let mut m = ids.len();
    let mut t = 0;
    while 3 < m {
        let Some(i) = index_at(&ids[..m], triangles, t) else {
            return false;
        };
        if !is_named(ps, &ids[..m], classes, i, triangles, t) {
            return false;
        }
        ring_ears::cut_one(ps, &mut ids[..m], classes, i);
        m -= 1;
        t += 1;
    }
    is_last(&ids[..m], triangles, t)
}

// `check_list` for a list of the right size, with its work arrays.
fn check_in(ps: &[f64], classes: &[u8], triangles: &[u16], ids: &mut [u16], work: &mut [u8]) -> bool
    requires { Work ps.now classes.now ids.old work.old × (length triangles.now ≡ 3 * (length classes.now - 2)) }
    ensures { result ≡ accepts_from ps.now (whole_ring classes.now) triangles.now }
{
    ring_cut::whole_ring(classes, ids, work);
    follow(ps, ids, work, triangles)
}

// Whether the list cuts the ring: n - 2 triples, each but the last an eligible ear of the ring then left, the last that ring's three. No for any other list.
#[tactic(auto, using(laws::proofs::Copies::first_of_lem), unfolding(crate::specs::Accepted::accepted))]
pub fn check_list(positions: &[f64], classes: &[u8], triangles: &[u16]) -> bool
    requires { Ring positions.now classes.now }
    ensures { result ≡ accepted positions.now classes.now triangles.now }
{
    let n = classes.len();
    if triangles.len() != 3 * (n - 2) {
        return false;
    }
    let mut ids = [0u16; 512];
    let mut work = [0u8; 512];
    check_in(positions, classes, triangles, &mut ids[..n], &mut work[..n])
}
