// How far a position is from an arc and from a loop's border, as a squared chord. The two public functions judge what they are handed, then answer. Those below
// them are total on every float; `requires` for sizes, and of a ring that its corners and the query are positions that the judge lets pass.
#![tactic(auto)]

ghost use Rattle.std.specs.Prelude.{◌≡◌, ◌+◌, ◌*◌, ◌≤◌, ◌<◌, length};
ghost use Rattle.sure_sides.specs.Sure as S;
ghost use Rattle.loop_distances.specs.Blocks as B;
ghost use Rattle.loop_distances.specs.Distances as D;

use chord_length::ChordLength;
use judge::Refusal;
use loop_header::Header;
use minor_arc::MinorArc;
use ring_edges::Border;
use vec3::Vec3;

// 2^-36 and 2^-23: docs/SCOPE.md knows nothing of them, for they decide no answer (crate sure_sides).
const SLACK: f64 = 0.000000000014551915228366851806640625;

const WIDE: f64 = 0.00000011920928955078125;

// The squared chord to the nearer end.
fn nearer_end(a: MinorArc, p: Vec3) -> ChordLength
    ensures { result ≡ D.nearer_end a p }
{
    ChordLength::new(p, a.start).least(ChordLength::new(p, a.end))
}

// The distance by the foot of p on the arc's great circle, where that is on the arc; else that of the nearer end.
fn by_foot(a: MinorArc, p: Vec3, foot: Vec3) -> ChordLength
    ensures { result ≡ D.by_foot a p foot }
{
    if minor_arc::is_within(a.location(foot)) {
        ChordLength::new(p, foot)
    } else {
        nearer_end(a, p)
    }
}

// How far p is from an arc: the source's `distance_to`.
fn far_arc(a: MinorArc, p: Vec3) -> ChordLength
    ensures { result ≡ D.far_arc a p }
{
    let start = ChordLength::new(p, a.start);
    let end = ChordLength::new(p, a.end);
    let side = ChordLength::new(a.start, a.end);
    if start.0 - end.0 >= side.0 + numbers::EPSILON {
        return start.least(end);
    }
    let across = p.stable_cross_prod_unit(a.normal);
    if across.equals(Vec3::ZERO) {
        return start;
    }
    by_foot(a, p, a.normal.orthogonal_to(across))
}

// Whether no component is above 2 in size.
fn is_tame(v: Vec3) -> bool
    ensures { result ≡ S.tame v }
{
    (numbers::abs(v.x) <= 2.0) & (numbers::abs(v.y) <= 2.0) & (numbers::abs(v.z) <= 2.0)
}

// Whether the normal is across both ends, up to 2^-36, and not too short.
fn is_upright(a: MinorArc) -> bool
    ensures { result ≡ S.upright a }
{
    let start = numbers::abs(a.normal.dot_prod(a.start)) <= SLACK;
    let end = numbers::abs(a.normal.dot_prod(a.end)) <= SLACK;
    (a.normal.squared_norm() > 0.5) & (start & end)
}

// Whether p is before the start or after the end, by the product of p and the normal as it comes, ahead of any root.
fn is_beyond(a: MinorArc, p: Vec3) -> bool
    ensures { result ≡ S.beyond a p }
{
    let r = p.stable_cross_prod(a.normal);
    (r.dot_prod(a.start) < -WIDE) | (r.dot_prod(a.end) > WIDE)
}

// Whether the foot is surely off the arc. Most edges that are not beyond need no more tests.
fn is_surely_off(a: MinorArc, p: Vec3) -> bool
    ensures { result ≡ S.surely a p }
{
    if is_beyond(a, p) {
        return is_tame(a.normal) & is_upright(a);
    }
    false
}

// Whether the distance is surely the nearer end's, with the squared chords to the ends at hand: by the foot, which is then off the arc, or as the source has it.
fn is_settled(a: MinorArc, p: Vec3, start: ChordLength, end: ChordLength) -> bool
    ensures { result ≡ B.settled_by a p start end }
{
    if is_surely_off(a, p) {
        return true;
    }
    let side = ChordLength::new(a.start, a.end);
    start.0 - end.0 >= side.0 + numbers::EPSILON
}

// The least so far with one more, if that is settled.
fn taken(settled: bool, r: ChordLength, c: ChordLength) -> ChordLength
    ensures { result ≡ B.taken_if settled r c }
{
    if settled { r.least(c) } else { r }
}

// How many edges are open with one more, unless that is settled.
fn counted(settled: bool, k: usize) -> usize
    requires { k ≤ 512 }
    ensures { result ≡ B.counted_if settled k }
{
    if settled { k } else { k + 1 }
}

// What a pass over a block leaves: the least over the settled edges, and how many are listed.
#[derive(Clone, Copy)]
pub struct Settled {
    pub least: ChordLength,
    pub count: usize,
}

// Takes in the edges of a block that are settled, and lists the others from the front of `listed` on. The squared chord to a corner serves both its edges.
fn settle(
    border: &Border,
    from: usize,
    to: usize,
    p: Vec3,
    known: ChordLength,
    listed: &mut [usize],
) -> Settled
    requires { (from < to) × (to ≤ from + length listed.old) × (to ≤ border.now.n) }
    ensures { B.Passed border.now.positions.now border.now.normals.now border.now.n from to p known listed.new result }
{
    let mut r = known;
    let mut k = 0usize;
    let mut start = border.corner(from);
    let mut chord = ChordLength::new(p, start);
    for i in from..to {
        let end = border.corner_after(i);
        let normal = vec3::at(border.normals, i);
        let next = ChordLength::new(p, end);
        let settled = is_settled(MinorArc { start, end, normal }, p, chord, next);
        r = taken(settled, r, chord.least(next));
        listed[k] = i;
        k = counted(settled, k);
        start = end;
        chord = next;
    }
    Settled { least: r, count: k }
}

// The products of p with the normals of the edges listed, into a work array.
fn write_across(p: Vec3, normals: &[f64], listed: &[usize], out: &mut [f64])
    requires { B.Indexed normals.now listed.now × (length out.old ≡ 3 * length listed.now) }
    ensures { out.new ≡ B.across_products p normals.now listed.now }
{
    for j in 0..listed.len() {
        vec3::put(out, j, p.stable_cross_prod(vec3::at(normals, listed[j])));
    }
}

// The products of the normals of the edges listed with the unit vectors of those.
fn write_feet(normals: &[f64], listed: &[usize], across: &[f64], out: &mut [f64])
    requires { B.Indexed normals.now listed.now × (length across.now ≡ 3 * length listed.now) × (length out.old ≡ 3 * length listed.now) }
    ensures { out.new ≡ B.foot_products normals.now listed.now across.now }
{
    for j in 0..listed.len() {
        vec3::put(
            out,
            j,
            vec3::at(normals, listed[j]).stable_cross_prod(vec3::raw(across, j)),
        );
    }
}

// The foot, by the unit vector of the product of the normal and what is across.
fn foot_by(normal: Vec3, unit: Vec3) -> Vec3
    ensures { result ≡ B.foot_by normal unit }
{
    if unit.equals(Vec3::ZERO) {
        normal.orthogonal()
    } else {
        unit
    }
}

// How far p is from an arc that is not settled, with both unit vectors at hand.
fn far_with(a: MinorArc, p: Vec3, across: Vec3, unit: Vec3) -> ChordLength
    ensures { result ≡ B.far_with a p across unit }
{
    if across.equals(Vec3::ZERO) {
        return ChordLength::new(p, a.start);
    }
    by_foot(a, p, foot_by(a.normal, unit))
}

// The least with the edges listed, their unit vectors at hand.
fn far_each(
    border: &Border,
    p: Vec3,
    listed: &[usize],
    across: &[f64],
    units: &[f64],
    known: ChordLength,
) -> ChordLength
    requires { B.Below border.now.n listed.now × (length listed.now ≤ 16) × (length across.now ≡ 3 * length listed.now) × (length units.now ≡ 3 * length listed.now) }
    ensures { result ≡ B.each_least border.now.positions.now border.now.normals.now border.now.n p listed.now across.now units.now known }
{
    let mut r = known;
    for j in 0..listed.len() {
        let a = border.edge(listed[j]);
        r = r.least(far_with(a, p, vec3::raw(across, j), vec3::raw(units, j)));
    }
    r
}

// The same, with room for the products and the unit vectors. Products and roots each have a loop of their own: the processor then has many roots under way at once.
fn far_in(
    border: &Border,
    p: Vec3,
    listed: &[usize],
    work: &mut [f64],
    across: &mut [f64],
    units: &mut [f64],
    known: ChordLength,
) -> ChordLength
    requires { B.Below border.now.n listed.now × (length listed.now ≤ 16) × B.Lent (length listed.now) (length work.old) (length across.old) (length units.old) }
    ensures { result ≡ B.listed_least border.now.positions.now border.now.normals.now border.now.n p listed.now known }
{
    write_across(p, border.normals, listed, work);
    ring_edges::write_units(work, listed.len(), across);
    write_feet(border.normals, listed, across, work);
    ring_edges::write_units(work, listed.len(), units);
    far_each(border, p, listed, across, units, known)
}

// The same of at most N edges, in work arrays of three floats for each.
fn far_within<const N: usize, const FLOATS: usize>(
    border: &Border,
    p: Vec3,
    listed: &[usize],
    known: ChordLength,
) -> ChordLength
    requires { B.Below border.now.n listed.now × (length listed.now ≤ N) × (N ≤ 16) × (FLOATS ≡ 3 * N) }
    ensures { result ≡ B.listed_least border.now.positions.now border.now.normals.now border.now.n p listed.now known }
{
    let size = 3 * listed.len();
    let mut work = [0.0f64; FLOATS];
    let mut across = [0.0f64; FLOATS];
    let mut units = [0.0f64; FLOATS];
    far_in(
        border,
        p,
        listed,
        &mut work[..size],
        &mut across[..size],
        &mut units[..size],
        known,
    )
}

// The same, by how many they are.
fn far_listed(border: &Border, p: Vec3, listed: &[usize], known: ChordLength) -> ChordLength
    requires { B.Below border.now.n listed.now × (length listed.now ≤ 16) }
    ensures { result ≡ B.listed_least border.now.positions.now border.now.normals.now border.now.n p listed.now known }
{
    // Mostly there are no more than four, and filling large arrays costs as much as the rest.
    if listed.len() <= 4 {
        return far_within::<4, 12>(border, p, listed, known);
    }
    far_within::<16, 48>(border, p, listed, known)
}

// A block of edges: first those that are settled, for which no root is taken, and then the others.
fn far_block(border: &Border, from: usize, to: usize, p: Vec3, known: ChordLength) -> ChordLength
    requires { (from < to) × (to ≤ from + 16) × (to ≤ border.now.n) × B.Fine border.now.positions.now border.now.n p × (known ≡ B.least_of border.now.positions.now border.now.normals.now border.now.n p from) }
    ensures { result ≡ B.least_of border.now.positions.now border.now.normals.now border.now.n p to }
{
    let mut listed = [0usize; 16];
    let s = settle(border, from, to, p, known, &mut listed);
    let k = s.count;
    far_listed(border, p, &listed[..k], s.least)
}

// How far p is from a ring: the least over its edges.
fn far_ring(border: &Border, p: Vec3) -> ChordLength
    requires { B.Fine border.now.positions.now border.now.n p }
    ensures { result ≡ D.far_ring border.now.positions.now border.now.normals.now border.now.n p }
{
    let mut r = ChordLength::MAX;
    let mut from = 0usize;
    while from < border.n {
        let to = ring_index::block_end(from, border.n);
        r = far_block(border, from, to, p, r);
        from = to;
    }
    r
}

// How far p is from a loop's border, which may be bare of corners.
#[tactic(auto, unfolding(crate::specs::Distances::far))]
fn far(border: &Border, p: Vec3) -> ChordLength
    requires { B.Fine border.now.positions.now border.now.n p }
    ensures { result ≡ D.far border.now.positions.now border.now.normals.now border.now.n p }
{
    if border.n == 0 {
        return ChordLength::ZERO;
    }
    far_ring(border, p)
}

// How far a position is from an arc.
#[tactic(auto, unfolding(crate::specs::Distances::arc_told))]
pub fn distance_to(a: MinorArc, p: Vec3) -> Result<ChordLength, Refusal>
    ensures { D.told_distance result ≡ D.arc_answer a p }
{
    let arc = arcs::clear_arc(a);
    let q = p.clear();
    arcs::query_fault(arc, q)?;
    Ok(far_arc(arc, q))
}

// How far a position is from a loop's border, inside it or outside: 0 where the loop has none.
#[tactic(auto, using(loop_ask::proofs::Judged::query_most, loop_ask::proofs::Judged::query_positions, loop_ask::proofs::Judged::query_normals, crate::proofs::Judged::query_fine), unfolding(crate::specs::Distances::boundary_told))]
pub fn distance_to_boundary(
    h: Header,
    positions: &[f64],
    normals: &[f64],
    classes: &[u8],
    p: Vec3,
) -> Result<ChordLength, Refusal>
    ensures { D.told_distance result ≡ D.boundary_answer h positions.now normals.now classes.now p }
{
    let q = p.clear();
    loop_ask::query_fault(h, positions, normals, classes, q)?;
    Ok(far(&Border::new(positions, normals, h.count), q))
}
