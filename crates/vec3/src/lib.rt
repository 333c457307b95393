// Vectors of three floats by value, as vec3.rs has them: sums run left to right, every operation rounds once, and each component is stored as 0.0 + v.
// Positions (n-vectors) are such vectors. Every function is total on every float.
#![tactic(auto)]

ghost use Rattle.std.specs.Prelude.{ℕ, ◌≡◌, ◌++◌, ◌+◌, ◌*◌, ◌≤◌, ◌<◌, length, drop};
ghost use Rattle.std.proofs.lemmas.List.Edits.{sets};
ghost use Rattle.laws.specs.Loop.{flat};
ghost use Rattle.vec3.specs.Vec.{vec, cleared, same, dot, product, cross, plus, minus, opposite, times, unit_vec, unit, cross_unit, stable_cross, stable_unit, axis_for, orthogonal, orthogonal_to, antipodes, mean3, pos_at, raw_at, coords};
ghost use Rattle.vec3.specs.Points.{triangle_mean, midpoint};
ghost use Rattle.root.specs.Root.{root_of};

#[derive(Clone, Copy)]
pub struct Vec3 {
    pub x: f64,
    pub y: f64,
    pub z: f64,
}

// The axis that `orthogonal` crosses with, by the sizes of the components: one that is away from the largest.
#[tactic(auto, unfolding(crate::specs::Vec::axis_for))]
fn axis(x: f64, y: f64, z: f64) -> Vec3
    ensures { result ≡ axis_for x y z }
{
    if x > y {
        if x > z { Vec3::UNIT_Z } else { Vec3::UNIT_Y }
    } else {
        if y > z { Vec3::UNIT_X } else { Vec3::UNIT_Y }
    }
}

// The cross product as it comes, before any component is stored.
fn crossed(a: Vec3, b: Vec3) -> Vec3
    ensures { result ≡ product a b }
{
    Vec3 {
        x: a.y * b.z - a.z * b.y,
        y: a.z * b.x - a.x * b.z,
        z: a.x * b.y - a.y * b.x,
    }
}

impl Vec3 {
    pub const ZERO: Vec3 = Vec3 {
        x: 0.0,
        y: 0.0,
        z: 0.0,
    };

    pub const UNIT_X: Vec3 = Vec3 {
        x: 1.0,
        y: 0.0,
        z: 0.0,
    };

    pub const UNIT_Y: Vec3 = Vec3 {
        x: 0.0,
        y: 1.0,
        z: 0.0,
    };

    pub const UNIT_Z: Vec3 = Vec3 {
        x: 0.0,
        y: 0.0,
        z: 1.0,
    };

    // -0.0 becomes 0.0 here, and nowhere else.
    pub fn new(vx: f64, vy: f64, vz: f64) -> Vec3
        ensures { result ≡ vec vx vy vz }
    {
        Vec3 {
            x: 0.0 + vx,
            y: 0.0 + vy,
            z: 0.0 + vz,
        }
    }

    pub fn dot_prod(self, o: Vec3) -> f64
        ensures { result ≡ dot self o }
    {
        self.x * o.x + self.y * o.y + self.z * o.z
    }

    // A vector as it is read: free of -0.0.
    pub fn clear(self) -> Vec3
        ensures { result ≡ cleared self }
    {
        Vec3::new(self.x, self.y, self.z)
    }

    pub fn cross_prod(self, o: Vec3) -> Vec3
        ensures { result ≡ cross self o }
    {
        crossed(self, o).clear()
    }

    pub fn squared_norm(self) -> f64
        ensures { result ≡ dot self self }
    {
        self.dot_prod(self)
    }

    pub fn add(self, o: Vec3) -> Vec3
        ensures { result ≡ plus self o }
    {
        Vec3::new(self.x + o.x, self.y + o.y, self.z + o.z)
    }

    pub fn sub(self, o: Vec3) -> Vec3
        ensures { result ≡ minus self o }
    {
        Vec3::new(self.x - o.x, self.y - o.y, self.z - o.z)
    }

    pub fn neg(self) -> Vec3
        ensures { result ≡ opposite self }
    {
        Vec3::new(-self.x, -self.y, -self.z)
    }

    pub fn scale(self, k: f64) -> Vec3
        ensures { result ≡ times self k }
    {
        Vec3::new(self.x * k, self.y * k, self.z * k)
    }

    // Equality of positions: float by float, so a NaN equals nothing.
    pub fn equals(self, o: Vec3) -> bool
        ensures { result ≡ same self o }
    {
        (self.x == o.x) & (self.y == o.y) & (self.z == o.z)
    }

    // At unit length; the zero vector where the norm rounds to 0.
    #[tactic(auto, unfolding(crate::specs::Vec::unit_vec))]
    pub fn new_unit(vx: f64, vy: f64, vz: f64) -> Vec3
        ensures { result ≡ unit_vec vx vy vz }
    {
        let n = root::root(vx * vx + vy * vy + vz * vz);
        if n == 0.0 {
            Vec3::ZERO
        } else {
            let s = 1.0 / n;
            Vec3::new(s * vx, s * vy, s * vz)
        }
    }

    pub fn norm(self) -> f64
        ensures { result ≡ root_of (dot self self) }
    {
        root::root(self.squared_norm())
    }

    #[tactic(auto, unfolding(crate::specs::Vec::unit))]
    pub fn unit(self) -> Vec3
        ensures { result ≡ unit self }
    {
        let n = self.norm();
        if n == 0.0 {
            Vec3::ZERO
        } else {
            let s = 1.0 / n;
            self.scale(s)
        }
    }

    pub fn cross_prod_unit(self, o: Vec3) -> Vec3
        ensures { result ≡ cross_unit self o }
    {
        let p = crossed(self, o);
        Vec3::new_unit(p.x, p.y, p.z)
    }

    // (o + self) x (o - self) as it comes: the cross product that stays steady for nearly parallel vectors, twice as long.
    pub fn stable_cross_prod(self, o: Vec3) -> Vec3
        ensures { result ≡ stable_cross self o }
    {
        let summed = Vec3 {
            x: o.x + self.x,
            y: o.y + self.y,
            z: o.z + self.z,
        };
        let parted = Vec3 {
            x: o.x - self.x,
            y: o.y - self.y,
            z: o.z - self.z,
        };
        crossed(summed, parted)
    }

    // The same at unit length.
    pub fn stable_cross_prod_unit(self, o: Vec3) -> Vec3
        ensures { result ≡ stable_unit self o }
    {
        let p = self.stable_cross_prod(o);
        Vec3::new_unit(p.x, p.y, p.z)
    }

    // Some unit vector that is orthogonal to this one.
    pub fn orthogonal(self) -> Vec3
        ensures { result ≡ orthogonal self }
    {
        self.cross_prod_unit(axis(
            numbers::abs(self.x),
            numbers::abs(self.y),
            numbers::abs(self.z),
        ))
    }

    // The stable cross product, or `orthogonal` where that is exactly zero.
    #[tactic(auto, unfolding(crate::specs::Vec::orthogonal_to))]
    pub fn orthogonal_to(self, o: Vec3) -> Vec3
        ensures { result ≡ orthogonal_to self o }
    {
        let r = self.stable_cross_prod_unit(o);
        if r.equals(Vec3::ZERO) {
            self.orthogonal()
        } else {
            r
        }
    }

    // Whether the two add to exactly zero.
    pub fn is_antipode_of(self, o: Vec3) -> bool
        ensures { result ≡ antipodes self o }
    {
        self.add(o).equals(Vec3::ZERO)
    }

    // The unit vector of the sum of three, summed from zero as the source sums its slice.
    pub fn mean(self, b: Vec3, c: Vec3) -> Vec3
        ensures { result ≡ mean3 self b c }
    {
        Vec3::new_unit(
            0.0 + self.x + b.x + c.x,
            0.0 + self.y + b.y + c.y,
            0.0 + self.z + b.z + c.z,
        )
    }

    // The mean of a triangle's corners, unless two of them are antipodes.
    #[tactic(auto, unfolding(crate::specs::Points::triangle_mean))]
    pub fn triangle_mean(self, b: Vec3, c: Vec3) -> Option<Vec3>
        ensures { result ≡ triangle_mean self b c }
    {
        if self.is_antipode_of(b) | self.is_antipode_of(c) | b.is_antipode_of(c) {
            None
        } else {
            Some(self.mean(b, c))
        }
    }

    // The midpoint that stands in for the source's, which needs a sine: the unit vector of the sum, unless the two are antipodes or it is zero.
    #[tactic(auto, unfolding(crate::specs::Points::midpoint, crate::specs::Vec::unit_vec))]
    pub fn midpoint(self, o: Vec3) -> Option<Vec3>
        ensures { result ≡ midpoint self o }
    {
        let m = Vec3::new_unit(self.x + o.x, self.y + o.y, self.z + o.z);
        if self.is_antipode_of(o) | m.equals(Vec3::ZERO) {
            None
        } else {
            Some(m)
        }
    }
}

// The position numbered i of a lent list, free of -0.0.
pub fn at(ps: &[f64], i: usize) -> Vec3
    requires { 3 * i + 2 < length ps.now }
    ensures { result ≡ pos_at ps.now i }
{
    raw(ps, i).clear()
}

// The vector numbered i of a work array of our own, as it stands.
pub fn raw(vs: &[f64], i: usize) -> Vec3
    requires { 3 * i + 2 < length vs.now }
    ensures { result ≡ raw_at vs.now i }
{
    Vec3 {
        x: vs[3 * i],
        y: vs[3 * i + 1],
        z: vs[3 * i + 2],
    }
}

// Writes v as the position numbered i of a lent list.
pub fn put(ps: &mut [f64], i: usize, v: Vec3)
    requires { 3 * i + 2 < length ps.old }
    ensures { ps.new ≡ sets ps.old (3 * i) (coords v) }
{
    ps[3 * i] = v.x;
    ps[3 * i + 1] = v.y;
    ps[3 * i + 2] = v.z;
}

// Writes n vectors by their index, into the front of a lent list: what f is shown to compute at each index stands there.
pub fn put_each<F: Fn(usize) -> Vec3>(ps: &mut [f64], n: usize, f: F)
    requires room { 3 * n ≤ length ps.old }
    requires callable { (i : ℕ) → i < n → F.pre f i }
    ensures { (g : ℕ → _) → ((i : ℕ) (v : _) → i < n → F.post f i v → v ≡ g i) → ps.new ≡ flat (λ i. coords (g i)) n 0 ++ drop (3 * n) ps.old }
{
    for i in 0..n {
        put(ps, i, f(i));
    }
}
