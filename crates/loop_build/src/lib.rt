// Building a loop: from a lent list of positions to a header by value and a ring in lent slices, or a refusal that changes nothing.
#![tactic(auto)]

ghost use Rattle.std.specs.Prelude.{◌≡◌, ◌*◌, ◌≤◌, length};
ghost use Rattle.judge.specs.Refusals.{number_of};
ghost use Rattle.ring_cut.specs.Cut as C;
ghost use Rattle.loop_build.specs.Build as B;

use angle::Angle;
use judge::Refusal;
use loop_header::{Header, State};
use minor_arc::Mode;
use vec3::Vec3;

// Refusals 1 to 4 of a list.
#[tactic(auto, unfolding(crate::specs::Build::list_fault))]
pub fn list_fault(list: &[f64]) -> Result<(), Refusal>
    ensures { number_of result ≡ B.list_fault list.now }
{
    if list.len() % 3 != 0 {
        return Err(Refusal::Shape);
    }
    let m = list.len() / 3;
    if m > 512 {
        return Err(Refusal::TooMany);
    }
    judge::positions_fault(list, m)
}

// Refusal 5, by the opened count.
#[tactic(auto, unfolding(crate::specs::Build::room_fault))]
fn room_fault(n: usize, positions: &[f64], normals: &[f64], classes: &[u8]) -> Result<(), Refusal>
    requires { n ≤ 512 }
    ensures { number_of result ≡ B.room_fault n (length positions.now) (length normals.now) (length classes.now) }
{
    let short = (positions.len() < 3 * n) | (normals.len() < 3 * n) | (classes.len() < n);
    if (3 <= n) & short {
        Err(Refusal::NoRoom)
    } else {
        Ok(())
    }
}

// The refusal of a list with the room that is lent for its ring.
#[tactic(auto, using(crate::proofs::Rooms::opened_small), unfolding(crate::specs::Build::refusal))]
fn refusal_of(
    list: &[f64],
    positions: &[f64],
    normals: &[f64],
    classes: &[u8],
) -> Result<(), Refusal>
    ensures { number_of result ≡ B.refusal list.now positions.now normals.now classes.now }
{
    list_fault(list)?;
    room_fault(
        ring_corners::opened(list, list.len() / 3),
        positions,
        normals,
        classes,
    )
}

// The edges' normals and the ring's classes into work arrays, and the turn sum.
#[tactic(auto, unfolding(ring_corners::specs::Corners::reversal))]
fn prepare(list: &[f64], n: usize, edges: &mut [f64], codes: &mut [u8]) -> Angle
    requires { (n ≤ 512) × (3 * n ≤ length list.now) × (length edges.old ≡ 3 * n) × (length codes.old ≡ n) }
    ensures { record { sum = result; edges = edges.new; classes = codes.new } ≡ B.prepared list.now n }
{
    ring_turns::write_edge_normals(list, n, edges);
    let sum = ring_turns::turn_sum(list, edges, n);
    ring_corners::write_classes(list, edges, n, !sum.is_clockwise(), codes);
    sum
}

// The insides of a ring: a triangle has none.
#[tactic(auto, unfolding(crate::specs::Build::insides_for))]
fn insides_of(positions: &[f64], classes: &[u8]) -> Option<(Vec3, Vec3)>
    requires { C.Ring positions.now classes.now }
    ensures { result ≡ B.insides_for positions.now classes.now }
{
    if classes.len() > 3 {
        ring_insides::find_insides(positions, classes)
    } else {
        None
    }
}

// The ring into the lent slices; answers its insides.
fn write_ring(
    list: &[f64],
    edges: &[f64],
    codes: &[u8],
    n: usize,
    reversed: bool,
    positions: &mut [f64],
    normals: &mut [f64],
    classes: &mut [u8],
) -> Option<(Vec3, Vec3)>
    requires { B.Ready list.now n reversed edges.now codes.now (length positions.old) (length normals.old) (length classes.old) }
    ensures { record { insides = result; positions = positions.new; normals = normals.new; classes = classes.new }
        ≡ B.written list.now n reversed positions.old normals.old classes.old }
{
    ring_corners::write_corners(list, n, reversed, positions);
    ring_corners::write_normals(list, edges, n, reversed, normals);
    copies::copy_front(codes, classes);
    insides_of(&positions[..3 * n], codes)
}

// The loop of an opened list of three or more, with lent work arrays: nothing is written before FULL is ruled out.
fn make(
    mode: Mode,
    list: &[f64],
    n: usize,
    edges: &mut [f64],
    codes: &mut [u8],
    positions: &mut [f64],
    normals: &mut [f64],
    classes: &mut [u8],
) -> Header
    requires { B.Lent list.now n (length edges.old) (length codes.old) (length positions.old) (length normals.old) (length classes.old) }
    ensures { record { header = result; positions = positions.new; normals = normals.new; classes = classes.new }
        ≡ B.made mode list.now n positions.old normals.old classes.old }
{
    let sum = prepare(list, n, edges, codes);
    if ring_corners::all_both(codes) {
        return loop_header::full(mode, sum.is_weak());
    }
    let reversed = !sum.is_clockwise();
    let insides = write_ring(list, edges, codes, n, reversed, positions, normals, classes);
    Header {
        count: n,
        state: State::Ring,
        cap: cap::bounding_cap(list, n),
        insides,
        reversed,
        weak: sum.is_weak(),
        mode,
    }
}

// `make` with work arrays for a ring of at most N corners: they hold what must not be written before FULL is ruled out.
fn make_within<const N: usize, const FLOATS: usize>(
    mode: Mode,
    list: &[f64],
    n: usize,
    positions: &mut [f64],
    normals: &mut [f64],
    classes: &mut [u8],
) -> Header
    requires { B.Lent list.now n (3 * n) n (length positions.old) (length normals.old) (length classes.old) × (n ≤ N) × (N ≤ 512) × (FLOATS ≡ 3 * N) }
    ensures { record { header = result; positions = positions.new; normals = normals.new; classes = classes.new }
        ≡ B.made mode list.now n positions.old normals.old classes.old }
{
    let size = 3 * n;
    let mut edges = [0.0f64; FLOATS];
    let mut codes = [0u8; N];
    make(
        mode,
        list,
        n,
        &mut edges[..size],
        &mut codes[..n],
        positions,
        normals,
        classes,
    )
}

// `make` with work arrays of its own.
fn make_with(
    mode: Mode,
    list: &[f64],
    n: usize,
    positions: &mut [f64],
    normals: &mut [f64],
    classes: &mut [u8],
) -> Header
    requires { B.Lent list.now n (3 * n) n (length positions.old) (length normals.old) (length classes.old) }
    ensures { record { header = result; positions = positions.new; normals = normals.new; classes = classes.new }
        ≡ B.made mode list.now n positions.old normals.old classes.old }
{
    // Clearing large work arrays would cost a small ring more than its edges.
    if n <= 16 {
        return make_within::<16, 48>(mode, list, n, positions, normals, classes);
    }
    make_within::<512, 1536>(mode, list, n, positions, normals, classes)
}

// Builds a loop: the mode is stored in its header, and nothing else of building goes by it.
pub fn build(
    mode: Mode,
    list: &[f64],
    positions: &mut [f64],
    normals: &mut [f64],
    classes: &mut [u8],
) -> Result<Header, Refusal>
    ensures { record { answer = B.told result; positions = positions.new; normals = normals.new; classes = classes.new }
        ≡ B.build_outcome mode list.now positions.old normals.old classes.old }
{
    refusal_of(list, positions, normals, classes)?;
    let n = ring_corners::opened(list, list.len() / 3);
    if n < 3 {
        return Ok(loop_header::empty(mode));
    }
    Ok(make_with(mode, list, n, positions, normals, classes))
}
