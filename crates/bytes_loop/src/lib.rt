// A loop in bytes: 88 of header, then its positions, its normals and its classes. Read from lent bytes and written into them here, and nowhere else.
#![tactic(auto)]

ghost use Rattle.std.specs.Prelude.{◌≡◌, [], ◌∷◌, ◌+◌, ◌*◌, ◌≤◌, ◌<◌, length};
ghost use Rattle.std.proofs.lemmas.List.Edits.{sets};
ghost use Rattle.judge.specs.Refusals.{number, number_of};
ghost use Rattle.bytes_loop.specs.Outcome.{refusal_of};
ghost use Rattle.bytes_loop.specs.Layout as F;

use cap::Cap;
use chord_length::ChordLength;
use judge::Refusal;
use loop_header::{Header, State};
use minor_arc::Mode;
use vec3::Vec3;

// How many bytes a header has; a loop's positions begin after it.
pub const HEADER: usize = 88;

// A refusal's number as it is answered.
pub fn refusal(f: u8) -> u32
    ensures { result ≡ refusal_of f }
{
    65536 + f as u32
}

// The same of what something handed in is refused for.
pub fn refused(r: Refusal) -> u32
    ensures { result ≡ refusal_of (number r) }
{
    refusal(r.number())
}

// A state's byte, as C reads it. No `From`: it would stand in loop_header, which knows of no bytes, and a byte above 2 is a ring only until it is judged.
#[tactic(auto, unfolding(crate::specs::Layout::state_of))]
fn state_of(code: u8) -> State
    ensures { result ≡ F.state_of code }
{
    match code {
        0 => State::Empty,
        1 => State::Full,
        _ => State::Ring,
    }
}

// Whether a mark is among the marks: 1 reversed, 2 weak, 4 insides present, 8 long. Marks are numbers here and in `marks_of`, since C reads them as one byte.
fn has_mark(marks: u8, mark: u8) -> bool
    requires { 0 < mark }
    ensures { result ≡ F.marked marks mark }
{
    marks / mark % 2 == 1
}

fn cap_at(s: &[u8]) -> Cap
    requires { F.header_size ≤ length s.now }
    ensures { result ≡ F.cap_at s.now }
{
    let centre = wire::vec_at(s, 8);
    let radius = ChordLength(wire::float_at(s, 32));
    Cap { centre, radius }
}

// The insides, by mark 4 alone: without it their bytes are not read.
#[tactic(auto, unfolding(crate::specs::Layout::insides_at))]
fn insides_at(s: &[u8]) -> Option<(Vec3, Vec3)>
    requires { F.header_size ≤ length s.now }
    ensures { result ≡ F.insides_at s.now }
{
    if has_mark(s[3], 4) {
        Some((wire::vec_at(s, 40), wire::vec_at(s, 64)))
    } else {
        None
    }
}

pub fn count_at(s: &[u8]) -> usize
    requires { F.header_size ≤ length s.now }
    ensures value { result ≡ F.count_at s.now }
    ensures upper_bound { result < 65536 }
{
    wire::u16_at(s, 0) as usize
}

// The mode, by whether mark 8 is there. No `From`, here and in `is_long`: it would stand in minor_arc, which knows of no marks.
fn mode_of(long: bool) -> Mode
    ensures { result ≡ F.mode_of long }
{
    if long { Mode::Long } else { Mode::Plain }
}

// The header that the bytes begin with.
pub fn header_at(s: &[u8]) -> Header
    requires { F.header_size ≤ length s.now }
    ensures { result ≡ F.header_at s.now }
{
    let count = count_at(s);
    let state = state_of(s[2]);
    let cap = cap_at(s);
    let insides = insides_at(s);
    let reversed = has_mark(s[3], 1);
    let weak = has_mark(s[3], 2);
    let mode = mode_of(has_mark(s[3], 8));
    Header {
        count,
        state,
        cap,
        insides,
        reversed,
        weak,
        mode,
    }
}

// Refusal 1 of a state byte that stands for no state.
#[tactic(auto, unfolding(crate::specs::Layout::state_fault))]
fn state_fault(s: &[u8]) -> Result<(), Refusal>
    requires { F.header_size ≤ length s.now }
    ensures { number_of result ≡ F.state_fault s.now }
{
    if s[2] > 2 {
        Err(Refusal::Shape)
    } else {
        Ok(())
    }
}

// Refusal 1 of a header that stands alone: its length, and its state.
#[tactic(auto, using(crate::proofs::Faults::header_wrong, crate::proofs::Faults::header_state))]
pub fn header_fault(s: &[u8]) -> Result<(), Refusal>
    ensures { number_of result ≡ F.header_fault s.now }
{
    if s.len() != HEADER {
        return Err(Refusal::Shape);
    }
    state_fault(s)
}

// Refusal 1 of a loop in bytes: its length, and its state.
#[tactic(auto, using(crate::proofs::Faults::frame_wrong, crate::proofs::Faults::frame_state))]
fn frame_fault(s: &[u8]) -> Result<(), Refusal>
    ensures { number_of result ≡ F.frame_fault s.now }
{
    if s.len() < HEADER {
        return Err(Refusal::Shape);
    }
    if s.len() != HEADER + 49 * count_at(s) {
        return Err(Refusal::Shape);
    }
    state_fault(s)
}

// What a count above 512 is refused for: 1 where it does not fit its state, which comes first.
fn large_fault(state: State) -> Refusal
    ensures { number result ≡ F.large_fault state }
{
    match state {
        State::Empty | State::Full => Refusal::Shape,
        State::Ring => Refusal::TooMany,
    }
}

#[tactic(auto, unfolding(crate::specs::Layout::many_fault))]
fn many_fault(s: &[u8]) -> Result<(), Refusal>
    requires { F.header_size ≤ length s.now }
    ensures { number_of result ≡ F.many_fault s.now }
{
    if count_at(s) > 512 {
        return Err(large_fault(state_of(s[2])));
    }
    Ok(())
}

// What keeps a loop in bytes from being copied into work arrays.
#[tactic(auto, using(crate::proofs::Faults::framed), unfolding(crate::specs::Layout::copy_fault))]
pub fn copy_fault(s: &[u8]) -> Result<(), Refusal>
    ensures { number_of result ≡ F.copy_fault s.now }
{
    frame_fault(s)?;
    many_fault(s)
}

// A loop's positions, into an array of their size.
#[tactic(auto, using(crate::proofs::Parts::positions_read))]
pub fn read_positions(s: &[u8], positions: &mut [f64])
    requires { F.Array s.now (length positions.old) }
    ensures { positions.new ≡ F.positions_at s.now }
{
    wire::read_floats(s, HEADER, positions);
}

// A loop's positions and normals, into arrays of their size.
#[tactic(auto, using(crate::proofs::Parts::positions_read, crate::proofs::Parts::normals_read))]
pub fn read_vectors(s: &[u8], positions: &mut [f64], normals: &mut [f64])
    requires { F.Arrays s.now (length positions.old) (length normals.old) }
    ensures positions_after { positions.new ≡ F.positions_at s.now }
    ensures normals_after { normals.new ≡ F.normals_at s.now }
{
    let from = HEADER + 24 * count_at(s);
    wire::read_floats(s, HEADER, positions);
    wire::read_floats(s, from, normals);
}

// Where a loop's classes begin: they are read where they stand.
pub fn classes_from(s: &[u8]) -> usize
    requires { F.header_size ≤ length s.now }
    ensures { result ≡ F.classes_from (F.count_at s.now) }
{
    HEADER + 48 * count_at(s)
}

// How many corners bytes of a size have room for: 512 are enough.
#[tactic(auto, unfolding(crate::specs::Layout::corners_for))]
pub fn corners_for(size: usize) -> usize
    ensures value { result ≡ F.corners_for size }
    ensures upper_bound { result ≤ 512 }
{
    if size < HEADER {
        return 0;
    }
    let n = (size - HEADER) / 49;
    if n > 512 { 512 } else { n }
}

fn state_code(state: State) -> u8
    ensures { result ≡ F.state_code state }
{
    state as u8
}

#[tactic(auto, unfolding(crate::specs::Layout::mark_if))]
fn mark_if(b: bool, mark: u8) -> u8
    ensures value { result ≡ F.mark_if b mark }
    ensures upper_bound { result ≤ mark }
{
    if b { mark } else { 0 }
}

fn is_long(mode: Mode) -> bool
    ensures { result ≡ F.is_long mode }
{
    mode == Mode::Long
}

fn marks_of(h: Header) -> u8
    ensures { result ≡ F.marks_of h }
{
    let a = mark_if(h.reversed, 1);
    let b = mark_if(h.weak, 2);
    let c = mark_if(h.insides.is_some(), 4);
    a + b + c + mark_if(is_long(h.mode), 8)
}

fn put_pair(out: &mut [u8], at: usize, a: u8, b: u8)
    requires { at + 2 ≤ length out.old }
    ensures { out.new ≡ sets out.old at (a ∷ b ∷ []) }
{
    out[at] = a;
    out[at + 1] = b;
}

// Count, state, marks and four zero bytes.
fn put_front(out: &mut [u8], count: usize, code: u8, marks: u8)
    requires { F.header_size ≤ length out.old }
    ensures { out.new ≡ sets out.old 0 (F.front_bytes count code marks) }
{
    wire::put_u16(out, 0, count as u64);
    put_pair(out, 2, code, marks);
    put_pair(out, 4, 0, 0);
    put_pair(out, 6, 0, 0);
}

fn put_cap(out: &mut [u8], c: Cap)
    requires { F.header_size ≤ length out.old }
    ensures { out.new ≡ sets out.old 8 (F.cap_bytes c) }
{
    wire::put_vec(out, 8, c.centre);
    wire::put_float(out, 32, c.radius.0);
}

// Absent insides are two vectors of zeros.
fn put_insides(out: &mut [u8], i: Option<(Vec3, Vec3)>)
    requires { F.header_size ≤ length out.old }
    ensures { out.new ≡ sets out.old 40 (F.insides_bytes i) }
{
    let (a, b) = i.unwrap_or((Vec3::ZERO, Vec3::ZERO));
    wire::put_vec(out, 40, a);
    wire::put_vec(out, 64, b);
}

// A header's bytes.
pub fn put_header(out: &mut [u8], h: Header)
    requires { F.header_size ≤ length out.old }
    ensures { out.new ≡ sets out.old 0 (F.header_bytes h) }
{
    let state = h.state;
    put_front(out, h.count, state_code(state), marks_of(h));
    put_cap(out, h.cap);
    put_insides(out, h.insides);
}

// A loop's bytes: its header, its positions, its normals and its classes.
#[tactic(auto, using(crate::proofs::Parts::laid))]
pub fn put_loop(out: &mut [u8], h: Header, positions: &[f64], normals: &[f64], classes: &[u8])
    requires { F.Parts h (length out.old) (length positions.now) (length normals.now) (length classes.now) }
    ensures { out.new ≡ sets out.old 0 (F.loop_bytes h positions.now normals.now classes.now) }
{
    let n = h.count;
    put_header(out, h);
    wire::put_floats(out, HEADER, positions);
    wire::put_floats(out, HEADER + 24 * n, normals);
    wire::put_bytes(out, HEADER + 48 * n, classes);
}
