// Minor arcs, as spherical/minor_arc.rs has them: two positions and a normal, by value. Total on every float: a NaN fails each comparison.
// The functions of crate `arcs` judge what they are handed; those here do not, and are what loops call.
#![tactic(auto)]

ghost use Rattle.std.specs.Prelude.{◌≡◌};
ghost use Rattle.vec3.specs.Vec.{stable_unit};
ghost use Rattle.signs.specs.Mirrors.{Stored};
ghost use Rattle.minor_arc.specs.Arcs as Arcs;

use base::Side;
use vec3::Vec3;

#[derive(Clone, Copy)]
pub struct MinorArc {
    pub start: Vec3,
    pub end: Vec3,
    pub normal: Vec3,
}

// Where a point of an arc's great circle lies.
#[derive(Clone, Copy, Debug, PartialEq, Eq)]
pub enum Location {
    Endpoint,
    Interior,
    Exterior,
}

// Where two arcs meet. Collinear ones, whose great circles are one, are left to crate `arc_relations`.
#[derive(Clone, Copy)]
pub enum Meeting {
    Apart,
    Collinear,
    Crossing(Vec3),
    Touching(Vec3),
}

// Which of the two points are tried in which two great circles meet: the one on the side of the first arc's start alone, as in the source, or both.
#[derive(Clone, Copy, Debug, PartialEq, Eq)]
pub enum Mode {
    Plain,
    Long,
}

// By the sides of a point against (normal, start) and (normal, end).
fn locate(s: Side, e: Side) -> Location
    ensures { result ≡ Arcs.located s e }
{
    match (s, e) {
        (Side::Right, _) | (_, Side::Left) => Location::Exterior,
        (Side::Left, Side::Right) => Location::Interior,
        (Side::Left, Side::Collinear) | (Side::Collinear, _) => Location::Endpoint,
    }
}

pub fn is_within(l: Location) -> bool
    ensures { result ≡ Arcs.within l }
{
    matches!(l, Location::Endpoint | Location::Interior)
}

// Of i and its opposite the one on the side of s: the opposite where the product is not above 0.
#[tactic(auto, unfolding(crate::specs::Arcs::nearer))]
fn nearer(s: Vec3, i: Vec3) -> Vec3
    ensures { result ≡ Arcs.nearer s i }
{
    if s.dot_prod(i) > 0.0 { i } else { i.neg() }
}

// Whether a point's products with the normal and each end settle alone that it is beyond an end.
fn beyond(s: f64, e: f64) -> bool
    ensures { result ≡ Arcs.beyond s e }
{
    base::settles_right(s) | base::settles_left(e)
}

// The same of each point that the mode tries: the products of the opposite point are the negated ones, so no product is worked out again.
fn beyond_by(mode: Mode, s: f64, e: f64) -> bool
    ensures { result ≡ Arcs.beyond_by mode s e }
{
    if beyond(s, e) {
        match mode {
            Mode::Plain => true,
            Mode::Long => beyond(-s, -e),
        }
    } else {
        false
    }
}

// What two arcs have in p, by where it lies on each.
fn meet_at(p: Vec3, a: Location, b: Location) -> Meeting
    ensures { result ≡ Arcs.meet_at p a b }
{
    match (a, b) {
        (Location::Exterior, _) | (_, Location::Exterior) => Meeting::Apart,
        (Location::Interior, Location::Interior) => Meeting::Crossing(p),
        (Location::Endpoint, _) | (_, Location::Endpoint) => Meeting::Touching(p),
    }
}

// An interior meeting outranks a touch; of two equal kinds the first is taken.
#[tactic(auto, unfolding(crate::specs::Arcs::better))]
fn better(m: Meeting, n: Meeting) -> Meeting
    ensures { result ≡ Arcs.better m n }
{
    match (m, n) {
        (Meeting::Apart | Meeting::Collinear, Meeting::Touching(_) | Meeting::Crossing(_)) => n,
        (Meeting::Touching(_), Meeting::Crossing(_)) => n,
        _ => m,
    }
}

impl MinorArc {
    // The shorter arc from start to end; where the two are equal or antipodes, one of many.
    pub fn new(start: Vec3, end: Vec3) -> MinorArc
        ensures { result ≡ Arcs.arc_of start end }
    {
        MinorArc {
            start,
            end,
            normal: start.orthogonal_to(end),
        }
    }

    // The arc walked from its end to its start: the normal is negated, not worked out again.
    pub fn opposite(self) -> MinorArc
        ensures { result ≡ Arcs.reversed self }
    {
        let a = self.end;
        let b = self.start;
        MinorArc {
            start: a,
            end: b,
            normal: self.normal.neg(),
        }
    }

    // The side of p against this arc. The source's -1 is right; its 1 is left, and what a NaN product gives too.
    #[tactic(auto, unfolding(crate::specs::Arcs::arc_side))]
    pub fn side_of(self, p: Vec3) -> Side
        ensures { result ≡ Arcs.arc_side self p }
    {
        let d = p.dot_prod(self.normal);
        if numbers::eq_zero(d) {
            return Side::Collinear;
        }
        if d < 0.0 { Side::Right } else { Side::Left }
    }

    // Where a point of this arc's great circle lies: the source's `triage_on_minor_arc`.
    #[tactic(auto, unfolding(crate::specs::Arcs::location_of))]
    pub fn location(self, v: Vec3) -> Location
        ensures { result ≡ Arcs.location_of self v }
    {
        let s = base::side_of(v, self.normal, self.start);
        if s == Side::Right {
            return Location::Exterior;
        }
        locate(s, base::side_of(v, self.normal, self.end))
    }

    // Whether p is on this arc, its ends included.
    #[tactic(auto, unfolding(crate::specs::Arcs::on_arc))]
    pub fn contains_position(self, p: Vec3) -> bool
        ensures { result ≡ Arcs.on_arc self p }
    {
        numbers::eq_zero(p.dot_prod(self.normal)) && is_within(self.location(p))
    }

    // What this arc has in p with another, on which p lies at l.
    fn met(self, p: Vec3, l: Location) -> Meeting
        ensures { result ≡ Arcs.meet_at p l (Arcs.location_of self p) }
    {
        if l == Location::Exterior {
            return Meeting::Apart;
        }
        meet_at(p, l, self.location(p))
    }

    #[tactic(auto, unfolding(crate::specs::Arcs::meeting_in))]
    fn meeting_in(self, o: MinorArc, p: Vec3) -> Meeting
        ensures { result ≡ Arcs.meeting_in self o p }
    {
        o.met(p, self.location(p))
    }

    // By the points that the mode tries. What is interior to this arc has its opposite exterior to it: then the modes agree.
    #[tactic(auto, using(crate::proofs::Firsts::first_alone), unfolding(crate::specs::Arcs::meeting_in))]
    fn tried(self, mode: Mode, o: MinorArc, p: Vec3) -> Meeting
        requires { Stored p }
        ensures { result ≡ Arcs.tried mode self o p }
    {
        let l = self.location(p);
        if l == Location::Interior {
            return meet_at(p, l, o.location(p));
        }
        match mode {
            Mode::Plain => o.met(p, l),
            Mode::Long => better(o.met(p, l), self.meeting_in(o, p.neg())),
        }
    }

    // Whether p, and in long mode its opposite too, lies beyond an end of this arc for sure.
    fn is_past(self, mode: Mode, p: Vec3) -> bool
        ensures { result ≡ Arcs.beyond_at mode self p }
    {
        let s = p.dot_prod(self.normal.cross_prod(self.start));
        let e = p.dot_prod(self.normal.cross_prod(self.end));
        beyond_by(mode, s, e)
    }

    // Whether of i and its opposite each one that the mode tries lies beyond an end of this arc for sure: one test that settles most of them.
    #[tactic(auto, unfolding(crate::specs::Arcs::missed))]
    pub fn misses(self, mode: Mode, i: Vec3) -> bool
        ensures { result ≡ Arcs.missed mode self i }
    {
        self.is_past(mode, nearer(self.start, i))
    }

    // The same of the other arc: it settles most of those that are left.
    #[tactic(auto, unfolding(crate::specs::Arcs::missed_other))]
    pub fn misses_other(self, mode: Mode, o: MinorArc, i: Vec3) -> bool
        ensures { result ≡ Arcs.missed_other mode self o i }
    {
        o.is_past(mode, nearer(self.start, i))
    }

    // The source's `intersection_details`, with the unit vector of the normals' product at hand, as a caller has it who works out many of them first. The
    // great circles meet in a point and its opposite; in plain mode the one on the side of this arc's start is the only candidate.
    #[tactic(auto, using(crate::proofs::Missing::nearer_candidate_stored), unfolding(crate::specs::Arcs::meeting_of))]
    pub fn meeting_at(self, mode: Mode, o: MinorArc, i: Vec3) -> Meeting
        requires { i ≡ stable_unit self.normal o.normal }
        ensures { result ≡ Arcs.meeting_of mode self o }
    {
        if i.equals(Vec3::ZERO) {
            Meeting::Collinear
        } else {
            self.tried(mode, o, nearer(self.start, i))
        }
    }

    // `intersection` with that vector at hand.
    pub fn intersection_at(self, mode: Mode, o: MinorArc, i: Vec3) -> Option<Vec3>
        requires { i ≡ stable_unit self.normal o.normal }
        ensures { result ≡ Arcs.meeting_point (Arcs.meeting_of mode self o) }
    {
        match self.meeting_at(mode, o, i) {
            Meeting::Apart | Meeting::Collinear => None,
            Meeting::Crossing(p) | Meeting::Touching(p) => Some(p),
        }
    }

    // The point in which the two arcs meet; none where they are collinear.
    pub fn intersection(self, mode: Mode, o: MinorArc) -> Option<Vec3>
        ensures { result ≡ Arcs.meeting_point (Arcs.meeting_of mode self o) }
    {
        self.intersection_at(mode, o, self.normal.stable_cross_prod_unit(o.normal))
    }
}
