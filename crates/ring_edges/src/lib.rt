// The edges of one ring, over lent lists of n corners: positions and normals in threes. And the candidates of an arc's crossings with a block of them.
// Total on every float; `requires` for indexes and lengths alone.
#![tactic(auto)]

ghost use Rattle.std.specs.Prelude.{◌≡◌, ◌+◌, ◌-◌, ◌*◌, ◌%◌, ◌≤◌, ◌<◌, length};
ghost use Rattle.vec3.specs.Vec.{pos_at};
ghost use Rattle.ring_edges.specs.Blocks as B;
ghost use Rattle.ring_edges.specs.Edges as E;

use minor_arc::MinorArc;
use vec3::Vec3;

// The products of a normal with those of k edges from `from` on, into a work array.
fn write_products(normal: Vec3, normals: &[f64], from: usize, k: usize, out: &mut [f64])
    requires { (from + k ≤ 512) × (3 * (from + k) ≤ length normals.now) × (length out.old ≡ 3 * k) }
    ensures { out.new ≡ B.products normal normals.now from k }
{
    vec3::put_each(
        out,
        k,
        |j| normal.stable_cross_prod(vec3::at(normals, from + j)),
    );
}

// The unit vector of the vector numbered j of a work array.
fn unit(vs: &[f64], j: usize) -> Vec3
    requires { 3 * j + 2 < length vs.now }
    ensures { result ≡ B.unit_at vs.now j }
{
    let v = vec3::raw(vs, j);
    Vec3::new_unit(v.x, v.y, v.z)
}

// The unit vectors of k vectors of a work array, into another.
pub fn write_units(vs: &[f64], k: usize, out: &mut [f64])
    requires { (k ≤ 512) × (length vs.now ≡ 3 * k) × (length out.old ≡ 3 * k) }
    ensures { out.new ≡ B.units vs.now k }
{
    vec3::put_each(out, k, |j| unit(vs, j));
}

// The candidates of k edges from `from` on; `work` is left with the products. Products and roots each have a loop of their own: the processor then has many roots under way at once.
pub fn write_candidates(
    normal: Vec3,
    normals: &[f64],
    from: usize,
    k: usize,
    work: &mut [f64],
    out: &mut [f64],
)
    requires { (from + k ≤ 512) × (3 * (from + k) ≤ length normals.now) × (length work.old ≡ 3 * k) × (length out.old ≡ 3 * k) }
    ensures { (work.new ≡ B.products normal normals.now from k) × (out.new ≡ B.candidates normal normals.now from k) }
{
    write_products(normal, normals, from, k, work);
    write_units(work, k, out);
}

// The candidate of edge i, out of the work array of those from `from` up to `to`. Normal and normals stand here for what the array holds.
pub fn candidate(
    normal: Vec3,
    normals: &[f64],
    candidates: &[f64],
    from: usize,
    to: usize,
    i: usize,
) -> Vec3
    requires { (from ≤ i) × (i < to) × (to ≤ 512) × (candidates.now ≡ B.candidates normal normals.now from (to - from)) }
    ensures { result ≡ B.candidate_at normal normals.now i }
{
    vec3::raw(candidates, i - from)
}

// The border of a ring: its n corners and the edges between them, out of lent lists.
#[derive(Clone, Copy)]
pub struct Border<'a> {
    pub positions: &'a [f64],
    pub normals: &'a [f64],
    pub n: usize,
    ghost few: { n ≤ 512 },
    ghost corners: { 3 * n ≤ length positions.now },
    ghost edges: { 3 * n ≤ length normals.now },
}

impl<'a> Border<'a> {
    pub fn new(positions: &'a [f64], normals: &'a [f64], n: usize) -> Border<'a>
        requires { (n ≤ 512) × (3 * n ≤ length positions.now) × (3 * n ≤ length normals.now) }
        ensures { (result.positions.now ≡ positions.now) × (result.normals.now ≡ normals.now) × (result.n ≡ n) }
    {
        Border {
            positions,
            normals,
            n,
        }
    }

    pub fn corner(&self, i: usize) -> Vec3
        requires { i < self.now.n }
        ensures { result ≡ pos_at self.now.positions.now i }
    {
        vec3::at(self.positions, i)
    }

    pub fn corner_after(&self, i: usize) -> Vec3
        requires { i < self.now.n }
        ensures { result ≡ pos_at self.now.positions.now ((i + 1) % self.now.n) }
    {
        self.corner(ring_index::next(i, self.n))
    }

    // The edge from corner i to the next.
    #[tactic(auto, unfolding(crate::specs::Edges::edge_at))]
    pub fn edge(&self, i: usize) -> MinorArc
        requires { i < self.now.n }
        ensures { result ≡ E.edge_at self.now.positions.now self.now.normals.now self.now.n i }
    {
        let start = self.corner(i);
        let end = self.corner_after(i);
        let normal = vec3::at(self.normals, i);
        MinorArc { start, end, normal }
    }

    // Whether some edge has p on it.
    pub fn any_edge_contains_position(&self, p: Vec3) -> bool
        ensures { result ≡ E.on_edge self.now.positions.now self.now.normals.now self.now.n p }
    {
        (0..self.n).any(|i| self.edge(i).contains_position(p))
    }

    // Whether p is one of the corners.
    pub fn has_vertex(&self, p: Vec3) -> bool
        ensures { result ≡ E.has_vertex self.now.positions.now self.now.n p }
    {
        (0..self.n).any(|i| self.corner(i).equals(p))
    }
}
