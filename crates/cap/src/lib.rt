// Spherical caps: the two tests that the desk uses, and the bounding cap of a list, as spherical/cap.rs and sloop.rs have them. Total on every float.
#![tactic(auto)]

ghost use Rattle.std.specs.Prelude.{◌≡◌, ◌*◌, ◌≤◌, length};
ghost use Rattle.cap.specs.Caps as Caps;

use chord_length::ChordLength;
use vec3::Vec3;

// What a bounding cap grows by, the squared chord of 1e-7 degrees, recorded bit for bit (3C4C189351C5AFA7) from the Rust.
const GROWTH: ChordLength = ChordLength(0.0000000000000000030461741978670858);

// The least squared chord that the Rust takes for a quarter circle, found by running it over neighbouring doubles (4000000000000000).
const QUARTER_CIRCLE: f64 = 2.0;

#[derive(Clone, Copy)]
pub struct Cap {
    pub centre: Vec3,
    pub radius: ChordLength,
}

impl Cap {
    pub const EMPTY: Cap = Cap {
        centre: Vec3::UNIT_Z,
        radius: ChordLength::NEGATIVE,
    };

    pub const FULL: Cap = Cap {
        centre: Vec3::UNIT_Z,
        radius: ChordLength::MAX,
    };

    // Whether the cap holds the position, its border included.
    pub fn contains_position(self, p: Vec3) -> bool
        ensures { result ≡ Caps.contains self p }
    {
        numbers::lte(ChordLength::new(self.centre, p).0, self.radius.0)
    }

    // A cap is empty at exactly -1.
    pub fn is_empty(self) -> bool
        ensures { result ≡ Caps.empty_cap self }
    {
        self.radius.0 == -1.0
    }

    // Whether the two have a point in common; an empty one has none with any.
    #[tactic(auto, unfolding(crate::specs::Caps::intersects))]
    pub fn intersects(self, o: Cap) -> bool
        ensures { result ≡ Caps.intersects self o }
    {
        if self.is_empty() | o.is_empty() {
            return false;
        }
        let reach = self.radius.add(o.radius);
        numbers::gte(reach.0, ChordLength::new(self.centre, o.centre).0)
    }
}

// The sum of the first n positions, in the order given.
fn sum(ps: &[f64], n: usize) -> Vec3
    requires { 3 * n ≤ length ps.now }
    ensures { result ≡ Caps.sum_of ps.now n }
{
    (0..n).fold(Vec3::ZERO, |s, i| s.add(vec3::at(ps, i)))
}

// The chord from the centre to the farthest of the first n positions.
fn farthest(ps: &[f64], n: usize, centre: Vec3) -> ChordLength
    requires { 3 * n ≤ length ps.now }
    ensures { result ≡ Caps.farthest_of ps.now n centre }
{
    (0..n).fold(ChordLength::NEGATIVE, |most, i| {
        most.later_max(ChordLength::new(centre, vec3::at(ps, i)))
    })
}

// The cap round a centre with the radius grown, or the full one from a quarter circle on: an edge could bulge out of it.
#[tactic(auto, unfolding(crate::specs::Caps::grown))]
fn grown(centre: Vec3, farthest: ChordLength) -> Cap
    ensures { result ≡ Caps.grown centre farthest }
{
    let radius = farthest.add(GROWTH);
    if radius.0 >= QUARTER_CIRCLE {
        Cap::FULL
    } else {
        Cap { centre, radius }
    }
}

// The bounding cap of the first n positions, in the order given: the full one where they sum to nothing.
#[tactic(auto, unfolding(crate::specs::Caps::bounding_cap))]
pub fn bounding_cap(ps: &[f64], n: usize) -> Cap
    requires { 3 * n ≤ length ps.now }
    ensures { result ≡ Caps.bounding_cap ps.now n }
{
    let s = sum(ps, n);
    if numbers::eq_zero(s.squared_norm()) {
        return Cap::FULL;
    }
    let centre = s.unit();
    grown(centre, farthest(ps, n, centre))
}
