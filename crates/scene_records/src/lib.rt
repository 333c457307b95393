// The records of a scene, read out of its bytes: each is a u32 body length, a u16 kind and the body, all little-endian. What a record is refused for, at
// which of its fields, and which of its positions is refused first.
#![tactic(auto)]

ghost use Rattle.std.specs.Prelude.{◌≡◌, ◌+◌, ◌*◌, ◌≤◌, ◌<◌, length};
ghost use Rattle.judge.specs.Judge.{first_refused};
ghost use Rattle.scene_records.specs.Records as R;

// What a record is refused for, in the order of the numbers 20 to 27.
#[derive(Clone, Copy, Debug, PartialEq, Eq)]
pub enum Fault {
    CutShort,
    UnknownKind,
    WrongLength,
    NoNumber,
    Repeated,
    NotMet,
    ManyAreas,
    ManyPositions,
}

impl Fault {
    // The number that a scene's last line tells.
    pub fn fault_number(self) -> u8
        ensures { result ≡ R.fault_number self }
    {
        match self {
            Fault::CutShort => 20,
            Fault::UnknownKind => 21,
            Fault::WrongLength => 22,
            Fault::NoNumber => 23,
            Fault::Repeated => 24,
            Fault::NotMet => 25,
            Fault::ManyAreas => 26,
            Fault::ManyPositions => 27,
        }
    }
}

// What stands at an offset: a record, with its area numbers, how many positions an area has, and of a place whether it is asked how far it is; the end; or a
// fault and its field's offset. One enum and no `Result`: the end and a fault each end a scene, and nothing passes a fault up by `?`.
#[derive(Clone, Copy)]
pub enum Read {
    End,
    Bad(Fault, usize),
    Area(usize, usize),
    Place(usize, bool),
    Pair(usize, usize),
}

// The number at an offset, as wide as an index.
fn number_at(s: &[u8], at: usize) -> usize
    requires { at + 2 ≤ length s.now }
    ensures { result ≡ R.u16_of s.now at }
{
    wire::u16_at(s, at) as usize
}

// A body length: near 2^32 it is only a large number.
fn length_at(s: &[u8], at: usize) -> usize
    requires { at + 4 ≤ length s.now }
    ensures value { result ≡ R.u32_of s.now at }
    ensures upper_bound { result < 4294967296 }
{
    wire::u32_at(s, at) as usize
}

#[tactic(auto, unfolding(crate::specs::Records::area_at))]
fn area_at(s: &[u8], at: usize, len: usize) -> Read
    requires { (length s.now ≤ 65536) × (at + 6 + len ≤ length s.now) }
    ensures { result ≡ R.area_at s.now at len }
{
    if len % 24 != 2 {
        return Read::Bad(Fault::WrongLength, at);
    }
    Read::Area(number_at(s, at + 6), len / 24)
}

// Kinds 2 and 4 ask of an area where a position lies, or how `far` it is.
#[tactic(auto, unfolding(crate::specs::Records::place_at))]
fn place_at(s: &[u8], at: usize, len: usize, far: bool) -> Read
    requires { (length s.now ≤ 65536) × (at + 6 + len ≤ length s.now) }
    ensures { result ≡ R.place_at far s.now at len }
{
    if len != 26 {
        return Read::Bad(Fault::WrongLength, at);
    }
    Read::Place(number_at(s, at + 6), far)
}

#[tactic(auto, unfolding(crate::specs::Records::pair_at))]
fn pair_at(s: &[u8], at: usize, len: usize) -> Read
    requires { (length s.now ≤ 65536) × (at + 6 + len ≤ length s.now) }
    ensures { result ≡ R.pair_at s.now at len }
{
    if len != 4 {
        return Read::Bad(Fault::WrongLength, at);
    }
    Read::Pair(number_at(s, at + 6), number_at(s, at + 8))
}

// A record whose bytes are all there, by its kind.
#[tactic(auto, unfolding(crate::specs::Records::kind_at))]
fn kind_at(s: &[u8], at: usize, len: usize) -> Read
    requires { (length s.now ≤ 65536) × (at + 6 + len ≤ length s.now) }
    ensures { result ≡ R.kind_at s.now at len }
{
    match number_at(s, at + 4) {
        1 => area_at(s, at, len),
        2 => place_at(s, at, len, false),
        3 => pair_at(s, at, len),
        4 => place_at(s, at, len, true),
        _ => Read::Bad(Fault::UnknownKind, at + 4),
    }
}

#[tactic(auto, unfolding(crate::specs::Records::read_at))]
pub fn read_at(s: &[u8], at: usize) -> Read
    requires { (length s.now ≤ 65536) × (at ≤ length s.now) }
    ensures { result ≡ R.read_at s.now at }
{
    if s.len() <= at {
        return Read::End;
    }
    if s.len() < at + 6 {
        return Read::Bad(Fault::CutShort, s.len());
    }
    let len = length_at(s, at);
    if s.len() < at + 6 + len {
        return Read::Bad(Fault::CutShort, s.len());
    }
    kind_at(s, at, len)
}

// The index of the first position refused, through a lent list of their exact size.
fn first_refused_of(s: &[u8], at: usize, list: &mut [f64], count: usize) -> usize
    requires { (length list.old ≡ 3 * count) × (at + 24 * count ≤ length s.now) }
    ensures value { result ≡ first_refused (R.floats_at s.now at count) count }
    ensures upper_bound { result ≤ count }
{
    wire::read_floats(s, at, list);
    judge::first_refused(list, count)
}

// The same of `count` positions from an offset on, `count` where none is refused.
pub fn first_refused(s: &[u8], at: usize, count: usize) -> usize
    requires { (count ≤ 1024) × (at + 24 * count ≤ length s.now) }
    ensures value { result ≡ first_refused (R.floats_at s.now at count) count }
    ensures upper_bound { result ≤ count }
{
    let size = 3 * count;
    let mut list = [0.0f64; 3072];
    first_refused_of(s, at, &mut list[..size], count)
}
