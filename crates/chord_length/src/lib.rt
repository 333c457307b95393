// Squared chords, at most 4; -1 marks the empty cap. As spherical/chord_length.rs has them. Total on every float.
#![tactic(auto)]

ghost use Rattle.std.specs.Prelude.{◌≡◌};
ghost use Rattle.chord_length.specs.Chords as Chords;

use angle::Angle;
use vec3::Vec3;

// A squared chord. Radians are another type, so that neither stands where the other belongs.
#[derive(Clone, Copy)]
pub struct ChordLength(pub f64);

impl ChordLength {
    pub const NEGATIVE: ChordLength = ChordLength(-1.0);

    pub const ZERO: ChordLength = ChordLength(0.0);

    pub const MAX: ChordLength = ChordLength(4.0);

    // At most 4, and 4 for a NaN, as the source's `min` has it.
    #[tactic(auto, unfolding(crate::specs::Chords::from_squared_length))]
    pub fn from_squared_length(l2: f64) -> ChordLength
        ensures { result ≡ Chords.from_squared_length l2 }
    {
        if l2 < 4.0 {
            ChordLength(l2)
        } else {
            ChordLength::MAX
        }
    }

    // The squared length of the chord that joins two positions.
    pub fn new(p1: Vec3, p2: Vec3) -> ChordLength
        ensures { result ≡ Chords.chord p1 p2 }
    {
        ChordLength::from_squared_length(p1.sub(p2).squared_norm())
    }

    // The chord of the two central angles' sum, for two chords above 0 that add to less than 4.
    #[tactic(auto, unfolding(crate::specs::Chords::joined))]
    fn joined(self, o: ChordLength) -> ChordLength
        ensures { result ≡ Chords.joined self.0 o.0 }
    {
        let x = self.0 * (1.0 - 0.25 * o.0);
        let y = o.0 * (1.0 - 0.25 * self.0);
        ChordLength::from_squared_length(x + y + 2.0 * root::root(x * y))
    }

    // The chord of the sum of the two central angles: a negative one gives the other, then a zero one gives the other, then 4 from 4 on.
    #[tactic(auto, unfolding(crate::specs::Chords::sum))]
    pub fn add(self, o: ChordLength) -> ChordLength
        ensures { result ≡ Chords.sum self o }
    {
        if self.0 < 0.0 {
            return o;
        }
        if o.0 < 0.0 {
            return self;
        }
        if self.0 == 0.0 {
            return o;
        }
        if o.0 == 0.0 {
            return self;
        }
        if self.0 + o.0 >= 4.0 {
            return ChordLength::MAX;
        }
        self.joined(o)
    }

    // The larger of two, the later where neither is: what the source's `max_by_key` keeps.
    #[tactic(auto, unfolding(crate::specs::Chords::later_max))]
    pub fn later_max(self, o: ChordLength) -> ChordLength
        ensures { result ≡ Chords.later_max self o }
    {
        let d = self.0 - o.0;
        if (d == 0.0) | (d < 0.0) { o } else { self }
    }

    // The smaller of two, the first where neither is: the source's `min`.
    #[tactic(auto, unfolding(crate::specs::Chords::least))]
    pub fn least(self, o: ChordLength) -> ChordLength
        ensures { result ≡ Chords.least self o }
    {
        if o.0 < self.0 { o } else { self }
    }

    // The central angle of the chord, in radians.
    pub fn to_angle(self) -> Angle
        ensures { result ≡ Chords.to_angle self }
    {
        Angle(arcsine::radians(self.0))
    }
}
