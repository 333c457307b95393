// Two positions inside a ring, found while it is cut, as sloop.rs has it. Work arrays as in `ring_cut`. Total on every float.
#![tactic(auto)]

ghost use Rattle.std.specs.Prelude.{◌≡◌, Some, ◌≤◌, ◌<◌, length};
ghost use Rattle.ring_ears.specs.Ears.{Lent, Indexed, triangle_at};
ghost use Rattle.ring_cut.specs.Cut.{Ring, Work};
ghost use Rattle.ring_insides.specs.Insides.{with_mean, is_both, mean_of, means_from, insides_from, insides_of};

use vec3::Vec3;

// The means found so far.
#[derive(Clone, Copy)]
enum Found {
    Nothing,
    One(Vec3),
    Both(Vec3, Vec3),
}

fn with_position(f: Found, p: Vec3) -> Found
    ensures { result ≡ with_mean f (Some p) }
{
    match f {
        Found::Nothing => Found::One(p),
        Found::One(a) => Found::Both(a, p),
        Found::Both(a, b) => Found::Both(a, b),
    }
}

// The means found so far, with one more where there is one.
fn with_mean(f: Found, p: Option<Vec3>) -> Found
    ensures { result ≡ with_mean f p }
{
    match p {
        None => f,
        Some(v) => with_position(f, v),
    }
}

fn is_both(f: Found) -> bool
    ensures { result ≡ is_both f }
{
    matches!(f, Found::Both(..))
}

fn insides_from(f: Found) -> Option<(Vec3, Vec3)>
    ensures { result ≡ insides_from f }
{
    match f {
        Found::Nothing | Found::One(_) => None,
        Found::Both(a, b) => Some((a, b)),
    }
}

// The mean of the triangle at index i.
fn mean_at(ps: &[f64], ids: &[u16], i: usize) -> Option<Vec3>
    requires { Indexed ps.now ids.now × (i < length ids.now) × (length ids.now ≤ 512) }
    ensures { result ≡ mean_of (triangle_at ps.now ids.now i) }
{
    let t = ring_ears::triangle_at(ps, ids, i);
    t.previous.triangle_mean(t.this, t.next)
}

// Cuts the lowest ear each time until two means are found, three are left, or there is no ear.
fn find_means(ps: &[f64], ids: &mut [u16], classes: &mut [u8], apart: &mut [u16]) -> Found
    requires { Lent ps.now ids.old classes.old × (3 ≤ length ids.old) × (length ids.old ≤ length apart.old) }
    ensures { result ≡ means_from ps.now (record { ids = ids.entry.now; classes = classes.old }) }
{
    let mut count = ring_reflex::list_apart(ids, classes, apart);
    let mut m = ids.len();
    let mut f = Found::Nothing;
    while 3 < m {
        let Some(i) = ring_reflex::lowest_ear(ps, &ids[..m], classes, &apart[..count]) else {
            return f;
        };
        f = with_mean(f, mean_at(ps, &ids[..m], i));
        if is_both(f) {
            return f;
        }
        count = ring_reflex::cut_apart(ps, &mut ids[..m], classes, apart, count, i);
        m -= 1;
    }
    with_mean(f, mean_at(ps, &ids[..m], 1))
}

// `find_insides` with its work arrays.
fn find_insides_in(
    ps: &[f64],
    classes: &[u8],
    ids: &mut [u16],
    work: &mut [u8],
    apart: &mut [u16],
) -> Option<(Vec3, Vec3)>
    requires { Work ps.now classes.now ids.old work.old × (length apart.old ≡ length classes.now) }
    ensures { result ≡ insides_of ps.now classes.now }
{
    ring_cut::whole_ring(classes, ids, work);
    insides_from(find_means(ps, ids, work, apart))
}

// `find_insides` with work arrays for a ring of at most N corners.
fn find_within<const N: usize>(positions: &[f64], classes: &[u8]) -> Option<(Vec3, Vec3)>
    requires { Ring positions.now classes.now × (length classes.now ≤ N) × (N ≤ 512) }
    ensures { result ≡ insides_of positions.now classes.now }
{
    let n = classes.len();
    let mut ids = [0u16; N];
    let mut work = [0u8; N];
    let mut apart = [0u16; N];
    find_insides_in(
        positions,
        classes,
        &mut ids[..n],
        &mut work[..n],
        &mut apart[..n],
    )
}

// The means of the first two cuts of a ring that have one, the last triangle included; without two, none.
pub fn find_insides(positions: &[f64], classes: &[u8]) -> Option<(Vec3, Vec3)>
    requires { Ring positions.now classes.now }
    ensures { result ≡ insides_of positions.now classes.now }
{
    if classes.len() <= 16 {
        return find_within::<16>(positions, classes);
    }
    find_within::<512>(positions, classes)
}
