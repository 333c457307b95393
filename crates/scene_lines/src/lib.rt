// The lines of a scene, written into a lent slice of bytes from an offset on. Each function answers the offset after its text.
#![tactic(auto)]

ghost use Rattle.std.specs.Prelude.{◌≡◌, ◌+◌, ◌≤◌, length};
ghost use Rattle.loop_header.specs.Loops.{mute};
ghost use Rattle.scene_words.specs.Words.{Wrote};
ghost use Rattle.scene_lines.specs.Lines as L;

use loop_header::Header;

// What a line says. An answer, a relation and a refusal go by their numbers, as the definitions tell them, a squared chord by its bits; the last line of a scene is `End`, `Refused` (the number, the offsets of the record and of
// the field) or `RefusedAt`, which adds the index of a position in its list.
#[derive(Clone, Copy)]
pub enum Line {
    Area(usize, Header, usize),
    Place(usize, u8),
    Pair(usize, usize, u8),
    Far(usize, u64),
    End(usize),
    Refused(u8, usize, usize),
    RefusedAt(u8, usize, usize, usize),
}

fn is_mute(h: Header) -> bool
    ensures { result ≡ mute h }
{
    (3 < h.count) & h.insides.is_none()
}

// The second half of an area line: state and marks.
#[tactic(auto, using(scene_words::proofs::Writes::then))]
fn put_marks(out: &mut [u8], at: usize, h: Header) -> usize
    requires { at + 23 ≤ length out.old }
    ensures wrote { Wrote out.old at (L.marks_words h) out.new result }
    ensures upper_bound { result ≤ at + 23 }
{
    let state = h.state;
    let a = scene_words::put_state(out, at, state, is_mute(h));
    let b = scene_words::put_turned(out, a, h.reversed);
    scene_words::put_sure(out, b, h.weak)
}

fn put_area(out: &mut [u8], at: usize, number: usize, h: Header, triangles: usize) -> usize
    requires { at + 45 ≤ length out.old }
    ensures wrote { Wrote out.old at (L.area_line number h triangles) out.new result }
    ensures upper_bound { result ≤ at + 45 }
{
    let a = scene_words::put(out, at, b"area ");
    let b = scene_words::put_number(out, a, number);
    let c = scene_words::put(out, b, b" ");
    let d = scene_words::put_number(out, c, h.count);
    let e = put_marks(out, d, h);
    let f = scene_words::put_number(out, e, triangles);
    scene_words::put(out, f, b"\n")
}

fn put_place(out: &mut [u8], at: usize, number: usize, answer: u8) -> usize
    requires { at + 20 ≤ length out.old }
    ensures wrote { Wrote out.old at (L.place_line number answer) out.new result }
    ensures upper_bound { result ≤ at + 20 }
{
    let a = scene_words::put(out, at, b"place ");
    let b = scene_words::put_number(out, a, number);
    scene_words::put_answer(out, b, answer)
}

fn put_pair(out: &mut [u8], at: usize, first: usize, second: usize, relation: u8) -> usize
    requires { at + 30 ≤ length out.old }
    ensures wrote { Wrote out.old at (L.pair_line first second relation) out.new result }
    ensures upper_bound { result ≤ at + 30 }
{
    let a = scene_words::put(out, at, b"pair ");
    let b = scene_words::put_number(out, a, first);
    let c = scene_words::put(out, b, b" ");
    let d = scene_words::put_number(out, c, second);
    scene_words::put_relation(out, d, relation)
}

fn put_far(out: &mut [u8], at: usize, number: usize, bits: u64) -> usize
    requires { at + 27 ≤ length out.old }
    ensures wrote { Wrote out.old at (L.far_line number bits) out.new result }
    ensures upper_bound { result ≤ at + 27 }
{
    let a = scene_words::put(out, at, b"far ");
    let b = scene_words::put_number(out, a, number);
    let c = scene_words::put(out, b, b" ");
    let d = scene_words::put_bits(out, c, bits);
    scene_words::put(out, d, b"\n")
}

fn put_end(out: &mut [u8], at: usize, records: usize) -> usize
    requires { at + 10 ≤ length out.old }
    ensures wrote { Wrote out.old at (L.end_line records) out.new result }
    ensures upper_bound { result ≤ at + 10 }
{
    let a = scene_words::put(out, at, b"end ");
    let b = scene_words::put_number(out, a, records);
    scene_words::put(out, b, b"\n")
}

// A refusal's line up to its field, without the line's end.
fn put_refusal(out: &mut [u8], at: usize, number: u8, offset: usize, field: usize) -> usize
    requires { at + 28 ≤ length out.old }
    ensures wrote { Wrote out.old at (L.refusal_words number offset field) out.new result }
    ensures upper_bound { result ≤ at + 28 }
{
    let a = scene_words::put(out, at, b"refused ");
    let b = scene_words::put_number(out, a, number as usize);
    let c = scene_words::put(out, b, b" at ");
    let d = scene_words::put_number(out, c, offset);
    let e = scene_words::put(out, d, b" ");
    scene_words::put_number(out, e, field)
}

fn put_refused(out: &mut [u8], at: usize, number: u8, offset: usize, field: usize) -> usize
    requires { at + 29 ≤ length out.old }
    ensures wrote { Wrote out.old at (L.refused_line number offset field) out.new result }
    ensures upper_bound { result ≤ at + 29 }
{
    let a = put_refusal(out, at, number, offset, field);
    scene_words::put(out, a, b"\n")
}

fn put_refused_at(
    out: &mut [u8],
    at: usize,
    number: u8,
    offset: usize,
    field: usize,
    index: usize,
) -> usize
    requires { at + 35 ≤ length out.old }
    ensures wrote { Wrote out.old at (L.refused_at_line number offset field index) out.new result }
    ensures upper_bound { result ≤ at + 35 }
{
    let a = put_refusal(out, at, number, offset, field);
    let b = scene_words::put(out, a, b" ");
    let c = scene_words::put_number(out, b, index);
    scene_words::put(out, c, b"\n")
}

// Writes a line, of at most 45 bytes.
#[tactic(auto, unfolding(crate::specs::Lines::room_of))]
pub fn put_line(out: &mut [u8], at: usize, line: Line) -> usize
    requires { at + 45 ≤ length out.old }
    ensures wrote { Wrote out.old at (L.line_text line) out.new result }
    ensures upper_bound { result ≤ at + L.room_of line }
{
    match line {
        Line::Area(number, h, triangles) => put_area(out, at, number, h, triangles),
        Line::Place(number, answer) => put_place(out, at, number, answer),
        Line::Pair(first, second, relation) => put_pair(out, at, first, second, relation),
        Line::Far(number, bits) => put_far(out, at, number, bits),
        Line::End(records) => put_end(out, at, records),
        Line::Refused(number, offset, field) => put_refused(out, at, number, offset, field),
        Line::RefusedAt(number, offset, field, index) => {
            put_refused_at(out, at, number, offset, field, index)
        }
    }
}
