// Cutting a ring ear by ear into triangles of ring numbers, as sloop.rs has it. Work arrays of 512 entries, of 16 for a small ring, hold the ring numbers
// and the classes of the ring left, and the numbers of the corners that are not convex. Total on every float.
#![tactic(auto)]

ghost use Rattle.std.specs.Prelude.{◌≡◌, ◌+◌, ◌-◌, ◌*◌, ◌≤◌, ◌<◌, length};
ghost use Rattle.std.proofs.lemmas.List.Edits.{sets};
ghost use Rattle.ring_theory.specs.Ring.{numbers, ear_of};
ghost use Rattle.ring_ears.specs.Ears.{Lent};
ghost use Rattle.ring_cut.specs.Cut.{Ring, Work, whole_ring, cutting_from, laid, cut_ring_outcome};

// 0, 1, 2 and so on.
fn number(ids: &mut [u16])
    requires { length ids.old ≤ 512 }
    ensures { ids.new ≡ numbers (length ids.old) }
{
    for (i, id) in ids.iter_mut().enumerate() {
        *id = i as u16;
    }
}

// Writes the triangle at index i as the one numbered t: previous, this, next.
fn put_ear(ids: &[u16], i: usize, triangles: &mut [u16], t: usize)
    requires { (i < length ids.now) × (length ids.now ≤ 512) × (3 * t + 2 < length triangles.old) }
    ensures { triangles.new ≡ sets triangles.old (3 * t) (ear_of ids.now i) }
{
    let m = ids.len();
    let a = ring_index::previous(i, m);
    let b = ring_index::next(i, m);
    triangles[3 * t] = ids[a];
    triangles[3 * t + 1] = ids[i];
    triangles[3 * t + 2] = ids[b];
}

// Cuts the lowest ear each time until three are left, and lays the triangles one after the other. False where a ring above three has no ear. By how
// many are left, of which each cut takes one.
fn cut_all(
    ps: &[f64],
    ids: &mut [u16],
    classes: &mut [u8],
    apart: &mut [u16],
    triangles: &mut [u16],
) -> bool
    requires { Lent ps.now ids.old classes.old × (3 ≤ length ids.old) × (length ids.old ≤ length apart.old) × (3 * (length ids.old - 2) ≤ length triangles.old) }
    ensures { record { answer = result; out = triangles.new } ≡ laid (cutting_from ps.now (record { ids = ids.entry.now; classes = classes.old })) triangles.old }
{
    let mut k = ring_reflex::list_apart(ids, classes, apart);
    let mut m = ids.len();
    let mut t = 0;
    while 3 < m {
        let Some(i) = ring_reflex::lowest_ear(ps, &ids[..m], classes, &apart[..k]) else {
            return false;
        };
        put_ear(&ids[..m], i, triangles, t);
        k = ring_reflex::cut_apart(ps, &mut ids[..m], classes, apart, k, i);
        m -= 1;
        t += 1;
    }
    put_ear(&ids[..m], 1, triangles, t);
    true
}

// The ring before any cut, in work arrays: its numbers, and a copy of its classes.
pub fn whole_ring(classes: &[u8], ids: &mut [u16], work: &mut [u8])
    requires { (length ids.old ≡ length classes.now) × (length work.old ≡ length classes.now) × (length classes.now ≤ 512) }
    ensures { record { ids = ids.exit.now; classes = work.new } ≡ whole_ring classes.now }
{
    number(ids);
    copies::copy_front(classes, work);
}

// `cut_ring` with its work arrays, and room for the triangles until all are cut.
fn cut_ring_in(
    ps: &[f64],
    classes: &[u8],
    ids: &mut [u16],
    work: &mut [u8],
    apart: &mut [u16],
    triangles: &mut [u16],
    out: &mut [u16],
) -> bool
    requires { Work ps.now classes.now ids.old work.old × (length apart.old ≡ length classes.now) × (length triangles.old ≡ 3 * (length classes.now - 2)) × (3 * (length classes.now - 2) ≤ length out.old) }
    ensures { record { answer = result; out = out.new } ≡ cut_ring_outcome ps.now classes.now out.old }
{
    whole_ring(classes, ids, work);
    if cut_all(ps, ids, work, apart, triangles) {
        copies::copy_front(triangles, out);
        return true;
    }
    false
}

// `cut_ring` with work arrays for a ring of at most N corners.
fn cut_within<const N: usize, const TRIANGLES: usize>(
    positions: &[f64],
    classes: &[u8],
    out: &mut [u16],
) -> bool
    requires { Ring positions.now classes.now × (3 * (length classes.now - 2) ≤ length out.old) × (length classes.now ≤ N) × (N ≤ 512) × (TRIANGLES ≡ 3 * (N - 2)) }
    ensures { record { answer = result; out = out.new } ≡ cut_ring_outcome positions.now classes.now out.old }
{
    let n = classes.len();
    let size = 3 * (n - 2);
    let mut ids = [0u16; N];
    let mut work = [0u8; N];
    let mut apart = [0u16; N];
    let mut triangles = [0u16; TRIANGLES];
    cut_ring_in(
        positions,
        classes,
        &mut ids[..n],
        &mut work[..n],
        &mut apart[..n],
        &mut triangles[..size],
        out,
    )
}

// Cuts a ring into triangles, the lowest ear each time. True: they stand first in `out`, and the rest of it is kept. False: a ring above three has no
// ear, and `out` is untouched.
pub fn cut_ring(positions: &[f64], classes: &[u8], out: &mut [u16]) -> bool
    requires { Ring positions.now classes.now × (3 * (length classes.now - 2) ≤ length out.old) }
    ensures { record { answer = result; out = out.new } ≡ cut_ring_outcome positions.now classes.now out.old }
{
    // Clearing large work arrays would cost a small ring more than its cuts.
    if classes.len() <= 16 {
        return cut_within::<16, 42>(positions, classes, out);
    }
    cut_within::<512, 1530>(positions, classes, out)
}
