// The edges of an opened list of positions: their normals, and the sum of the turns from each to the next, block by block.
// Total on every float; `requires` for indexes and lengths alone.
#![tactic(auto)]

ghost use Rattle.std.specs.Prelude.{◌≡◌, ◌+◌, ◌-◌, ◌*◌, ◌≤◌, ◌<◌, length};
ghost use Rattle.vec3.specs.Vec.{raw_at};
ghost use Rattle.laws.specs.Loop.{iterate};
ghost use Rattle.ring_turns.specs.Blocks as B;
ghost use Rattle.ring_turns.specs.Turns as T;

use angle::Angle;
use vec3::Vec3;

// The product of which the normal of the edge from position i to the next is the unit vector.
#[tactic(auto, unfolding(crate::specs::Blocks::product_at))]
fn product(list: &[f64], n: usize, i: usize) -> Vec3
    requires { (i < n) × (n ≤ 512) × (3 * n ≤ length list.now) }
    ensures { result ≡ B.product_at list.now n i }
{
    vec3::at(list, i).stable_cross_prod(vec3::at(list, ring_index::next(i, n)))
}

// The products of all edges, into a work array. A loop of its own: by `vec3::put_each` it took 11 instructions an edge more (callgrind).
fn write_products(list: &[f64], n: usize, work: &mut [f64])
    requires { (n ≤ 512) × (3 * n ≤ length list.now) × (length work.old ≡ 3 * n) }
    ensures { work.new ≡ B.products list.now n }
{
    for i in 0..n {
        vec3::put(work, i, product(list, n, i));
    }
}

// The normal out of the product of an edge from u: its unit vector, or `orthogonal` where that is exactly zero.
#[tactic(auto, unfolding(crate::specs::Blocks::normal_of))]
fn normal_of(u: Vec3, p: Vec3) -> Vec3
    ensures { result ≡ B.normal_of u p }
{
    let r = Vec3::new_unit(p.x, p.y, p.z);
    if r.equals(Vec3::ZERO) {
        u.orthogonal()
    } else {
        r
    }
}

// The normal of edge i, out of the product that the work array still holds there.
#[tactic(auto, using(crate::proofs::Edges::normal_of_product))]
fn edge_normal(list: &[f64], work: &[f64], n: usize, i: usize) -> Vec3
    requires { (i < n) × (n ≤ 512) × (3 * n ≤ length list.now) × (length work.now ≡ 3 * n) × (raw_at work.now i ≡ B.product_at list.now n i) }
    ensures { result ≡ T.edge_normal list.now n i }
{
    normal_of(vec3::at(list, i), vec3::raw(work, i))
}

// The normals of all edges, each in the place of its product. By its index: an edge reads its start in the list too, and three floats stand for one vector.
fn turn_to_normals(list: &[f64], n: usize, work: &mut [f64])
    requires { (n ≤ 512) × (3 * n ≤ length list.now) × (work.old ≡ B.products list.now n) }
    ensures { work.new ≡ T.edge_normals list.now n }
{
    for i in 0..n {
        let normal = edge_normal(list, work, n, i);
        vec3::put(work, i, normal);
    }
}

// The normals of all edges, in the order given, into a work array. Products and roots each have a loop of their own: the processor then has many roots under way at once.
pub fn write_edge_normals(list: &[f64], n: usize, work: &mut [f64])
    requires { (n ≤ 512) × (3 * n ≤ length list.now) × (length work.old ≡ 3 * n) }
    ensures { work.new ≡ T.edge_normals list.now n }
{
    write_products(list, n, work);
    turn_to_normals(list, n, work);
}

// The normal of edge i, out of the work array. The list stands here for what the array holds.
#[tactic(auto, using(crate::proofs::Edges::edges_size, crate::proofs::Edges::edge_at_lem))]
pub fn edge(list: &[f64], edges: &[f64], n: usize, i: usize) -> Vec3
    requires { (i < n) × (n ≤ 512) × (edges.now ≡ T.edge_normals list.now n) }
    ensures { result ≡ T.edge_normal list.now n i }
{
    vec3::raw(edges, i)
}

// The sine of the turn from edge i to the next edge.
#[tactic(auto, unfolding(crate::specs::Blocks::sine_at))]
fn sine(list: &[f64], edges: &[f64], n: usize, i: usize) -> f64
    requires { (i < n) × (n ≤ 512) × (3 * n ≤ length list.now) × (edges.now ≡ T.edge_normals list.now n) }
    ensures { result ≡ B.sine_at list.now n i }
{
    let j = ring_index::next(i, n);
    base::sine(
        edge(list, edges, n, i),
        edge(list, edges, n, j),
        vec3::at(list, j),
    )
}

// The sines of the turns of k edges from `from` on, into a work array.
fn write_sines(list: &[f64], edges: &[f64], n: usize, from: usize, k: usize, out: &mut [f64])
    requires { (from + k ≤ n) × (n ≤ 512) × (3 * n ≤ length list.now) × (edges.now ≡ T.edge_normals list.now n) × (length out.old ≡ k) }
    ensures { out.new ≡ B.sines list.now n from k }
{
    for (j, s) in out.iter_mut().enumerate() {
        *s = sine(list, edges, n, from + j);
    }
}

// The cosine of the turn from edge i to the next edge.
#[tactic(auto, unfolding(crate::specs::Blocks::cosine_at))]
fn cosine(list: &[f64], edges: &[f64], n: usize, i: usize) -> f64
    requires { (i < n) × (n ≤ 512) × (edges.now ≡ T.edge_normals list.now n) }
    ensures { result ≡ B.cosine_at list.now n i }
{
    let after = edge(list, edges, n, ring_index::next(i, n));
    edge(list, edges, n, i).dot_prod(after)
}

// The proportions of k edges from `from` on, whose sines are at hand, into a work array.
fn write_proportions(
    list: &[f64],
    edges: &[f64],
    n: usize,
    from: usize,
    k: usize,
    sines: &[f64],
    out: &mut [f64],
)
    requires { (from + k ≤ n) × (n ≤ 512) × (edges.now ≡ T.edge_normals list.now n) × (sines.now ≡ B.sines list.now n from k) × (length sines.now ≡ k) × (length out.old ≡ k) }
    ensures { out.new ≡ B.row (B.proportion_at list.now n) from k }
{
    for (j, t) in out.iter_mut().enumerate() {
        *t = arctangents::proportion(sines[j], cosine(list, edges, n, from + j));
    }
}

// The arctangents that the turns of k edges from `from` on are made of, with room for the proportions.
#[tactic(auto, using(crate::proofs::Edges::acutes_of))]
fn write_parts(
    list: &[f64],
    edges: &[f64],
    n: usize,
    from: usize,
    k: usize,
    sines: &[f64],
    work: &mut [f64],
    out: &mut [f64],
)
    requires { (from + k ≤ n) × (n ≤ 512) × (edges.now ≡ T.edge_normals list.now n) × (sines.now ≡ B.sines list.now n from k) × (length sines.now ≡ k) × (length work.old ≡ k) × (length out.old ≡ k) }
    ensures { out.new ≡ B.row (B.acute_at list.now n) from k }
{
    write_proportions(list, edges, n, from, k, sines, work);
    arctangents::write_acutes(work, k, out);
}

// The turn from edge i to the next edge, out of the work arrays of those from `from` up to `to`.
#[tactic(auto, using(crate::proofs::Edges::row_size, crate::proofs::Edges::row_held, crate::proofs::Edges::turn_by))]
fn turn(
    list: &[f64],
    edges: &[f64],
    n: usize,
    sines: &[f64],
    parts: &[f64],
    from: usize,
    to: usize,
    i: usize,
) -> Angle
    requires { (from ≤ i) × (i < to) × (to ≤ n) × (n ≤ 512) × (edges.now ≡ T.edge_normals list.now n) × (sines.now ≡ B.sines list.now n from (to - from)) × (parts.now ≡ B.row (B.acute_at list.now n) from (to - from)) }
    ensures { result ≡ T.turn_at list.now n i }
{
    let x = cosine(list, edges, n, i);
    let j = i - from;
    arctangents::angle_by(sines[j], x, parts[j])
}

// The turns of the edges from `from` up to `to`, with their sines and arctangents at hand, added to those before. By the edge's index, which the normals, the
// sines and the arctangents are all read by.
fn add_turns(
    list: &[f64],
    edges: &[f64],
    n: usize,
    sines: &[f64],
    parts: &[f64],
    from: usize,
    to: usize,
    before: Angle,
) -> Angle
    requires { (from ≤ to) × (to ≤ n) × (n ≤ 512) × (edges.now ≡ T.edge_normals list.now n) × (sines.now ≡ B.sines list.now n from (to - from)) × (parts.now ≡ B.row (B.acute_at list.now n) from (to - from)) }
    ensures { result ≡ iterate (T.plus_turn list.now n) (to - from) from before }
{
    let mut sum = before;
    for i in from..to {
        sum = sum.add(turn(list, edges, n, sines, parts, from, to, i));
    }
    sum
}

// The same, with room for the sines, the proportions and the arctangents.
fn add_with(
    list: &[f64],
    edges: &[f64],
    n: usize,
    from: usize,
    to: usize,
    sines: &mut [f64],
    work: &mut [f64],
    parts: &mut [f64],
    before: Angle,
) -> Angle
    requires { (from ≤ to) × (to ≤ n) × (n ≤ 512) × (3 * n ≤ length list.now) × (edges.now ≡ T.edge_normals list.now n) × (length sines.old ≡ to - from) × (length work.old ≡ to - from) × (length parts.old ≡ to - from) }
    ensures { result ≡ iterate (T.plus_turn list.now n) (to - from) from before }
{
    let k = to - from;
    write_sines(list, edges, n, from, k, sines);
    write_parts(list, edges, n, from, k, sines, work, parts);
    add_turns(list, edges, n, sines, parts, from, to, before)
}

// A block of turns: roots, arctangents and the sum each have a loop of their own, so that the processor has many under way at once.
#[tactic(auto, using(laws::proofs::Copies::first_of_lem))]
fn add_block(list: &[f64], edges: &[f64], n: usize, from: usize, to: usize, before: Angle) -> Angle
    requires { (from ≤ to) × (to ≤ from + 16) × (to ≤ n) × (n ≤ 512) × (3 * n ≤ length list.now) × (edges.now ≡ T.edge_normals list.now n) }
    ensures { result ≡ iterate (T.plus_turn list.now n) (to - from) from before }
{
    let size = to - from;
    let mut sines = [0.0f64; 16];
    let mut work = [0.0f64; 16];
    let mut parts = [0.0f64; 16];
    add_with(
        list,
        edges,
        n,
        from,
        to,
        &mut sines[..size],
        &mut work[..size],
        &mut parts[..size],
        before,
    )
}

// The sum of all turns, from the second edge on, the last turn last: block by block, each from where the one before ended.
pub fn turn_sum(list: &[f64], edges: &[f64], n: usize) -> Angle
    requires { (n ≤ 512) × (3 * n ≤ length list.now) × (edges.now ≡ T.edge_normals list.now n) }
    ensures { result ≡ T.turn_sum list.now n }
{
    let mut sum = Angle::ZERO;
    let mut from = 0usize;
    while from < n {
        let to = ring_index::block_end(from, n);
        sum = add_block(list, edges, n, from, to, sum);
        from = to;
    }
    sum
}
