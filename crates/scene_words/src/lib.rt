// The words and numbers of a scene's lines, written into a lent slice of bytes from an offset on. Each function answers the offset after its text; and the room
// that a scene's text is written into.
#![tactic(auto)]

ghost use Rattle.std.specs.Prelude.{◌≡◌, [], ◌∷◌, ◌+◌, ◌≤◌, ◌<◌, length};
ghost use Rattle.scene_words.specs.Words as W;

use loop_header::State;

// Room for the longest text (scene_run). Its `ensures` gives the length alone, so that no proof looks at so many zeros; it stands here since its check takes
// some 350 MiB, for which the crates above have no room.
pub fn room() -> [u8; 196989]
    ensures { 196989 ≡ length result }
{
    [0; 196989]
}

pub fn put(out: &mut [u8], at: usize, word: &[u8]) -> usize
    requires { at + length word.now ≤ length out.old }
    ensures { W.Wrote out.old at word.now out.new result }
{
    wire::put_bytes(out, at, word);
    at + word.len()
}

fn put_byte(out: &mut [u8], at: usize, b: u8) -> usize
    requires { at < length out.old }
    ensures { W.Wrote out.old at (b ∷ []) out.new result }
{
    out[at] = b;
    at + 1
}

// The digit of n at a power of ten, unless n is below it.
#[tactic(auto, using(crate::proofs::Writes::nothing))]
fn put_digit(out: &mut [u8], at: usize, n: usize, power: usize) -> usize
    requires { (at < length out.old) × (0 < power) }
    ensures wrote { W.Wrote out.old at (W.digit n power) out.new result }
    ensures upper_bound { result ≤ at + 1 }
{
    if n < power {
        return at;
    }
    put_byte(out, at, (48 + n / power % 10) as u8)
}

// A number and a float's bits are put digit by digit: `write!` says which bytes it wrote only where it succeeds, and nothing says that it does.
#[tactic(auto, unfolding(crate::specs::Words::decimal), using(crate::proofs::Writes::then))]
pub fn put_number(out: &mut [u8], at: usize, n: usize) -> usize
    requires { at + 5 ≤ length out.old }
    ensures wrote { W.Wrote out.old at (W.decimal n) out.new result }
    ensures upper_bound { result ≤ at + 5 }
{
    let a = put_digit(out, at, n, 10000);
    let b = put_digit(out, a, n, 1000);
    let c = put_digit(out, b, n, 100);
    let d = put_digit(out, c, n, 10);
    put_byte(out, d, (48 + n % 10) as u8)
}

// The byte of a hexadecimal digit, in upper case: a letter of the text, and no kind by its number.
fn hex_byte(digit: u64) -> u8
    requires { digit < 16 }
    ensures { result ≡ W.hex_byte digit }
{
    if digit < 10 {
        (48 + digit) as u8
    } else {
        (55 + digit) as u8
    }
}

// The bits of a float as sixteen hexadecimal digits, the highest first.
pub fn put_bits(out: &mut [u8], at: usize, bits: u64) -> usize
    requires { at + 16 ≤ length out.old }
    ensures wrote { W.Wrote out.old at (W.hex bits) out.new result }
    ensures upper_bound { result ≤ at + 16 }
{
    for i in 0..16 {
        out[at + i] = hex_byte((bits >> (60 - 4 * i)) % 16);
    }
    at + 16
}

// It stays beside `put_turned` and `put_sure`: one for all three would take both words, and each bound on what it writes would still stand at the caller.
fn put_ring(out: &mut [u8], at: usize, mute: bool) -> usize
    requires { at + 6 ≤ length out.old }
    ensures wrote { W.Wrote out.old at (W.ring_word mute) out.new result }
    ensures upper_bound { result ≤ at + 6 }
{
    if mute {
        put(out, at, b" mute")
    } else {
        put(out, at, b" ring")
    }
}

pub fn put_state(out: &mut [u8], at: usize, state: State, mute: bool) -> usize
    requires { at + 6 ≤ length out.old }
    ensures wrote { W.Wrote out.old at (W.state_word state mute) out.new result }
    ensures upper_bound { result ≤ at + 6 }
{
    match state {
        State::Empty => put(out, at, b" empty"),
        State::Full => put(out, at, b" full"),
        State::Ring => put_ring(out, at, mute),
    }
}

pub fn put_turned(out: &mut [u8], at: usize, reversed: bool) -> usize
    requires { at + 9 ≤ length out.old }
    ensures wrote { W.Wrote out.old at (W.turned_word reversed) out.new result }
    ensures upper_bound { result ≤ at + 9 }
{
    if reversed {
        put(out, at, b" reversed")
    } else {
        put(out, at, b" kept")
    }
}

pub fn put_sure(out: &mut [u8], at: usize, weak: bool) -> usize
    requires { at + 8 ≤ length out.old }
    ensures wrote { W.Wrote out.old at (W.sure_word weak) out.new result }
    ensures upper_bound { result ≤ at + 8 }
{
    if weak {
        put(out, at, b" weak ")
    } else {
        put(out, at, b" steady ")
    }
}

// An answer and a relation go by their numbers, as the definitions tell them.
pub fn put_answer(out: &mut [u8], at: usize, answer: u8) -> usize
    requires { at + 9 ≤ length out.old }
    ensures wrote { W.Wrote out.old at (W.place_word answer) out.new result }
    ensures upper_bound { result ≤ at + 9 }
{
    match answer {
        0 => put(out, at, b" outside\n"),
        1 => put(out, at, b" inside\n"),
        _ => put(out, at, b" mute\n"),
    }
}

// The words of the last two relations.
fn put_last_relations(out: &mut [u8], at: usize, relation: u8) -> usize
    requires { at + 12 ≤ length out.old }
    ensures wrote { W.Wrote out.old at (W.later_word relation) out.new result }
    ensures upper_bound { result ≤ at + 12 }
{
    match relation {
        3 => put(out, at, b" containing\n"),
        4 => put(out, at, b" within\n"),
        _ => put(out, at, b" equal\n"),
    }
}

pub fn put_relation(out: &mut [u8], at: usize, relation: u8) -> usize
    requires { at + 14 ≤ length out.old }
    ensures wrote { W.Wrote out.old at (W.relation_word relation) out.new result }
    ensures upper_bound { result ≤ at + 14 }
{
    match relation {
        0 => put(out, at, b" disjoint\n"),
        1 => put(out, at, b" touching\n"),
        2 => put(out, at, b" intersecting\n"),
        _ => put_last_relations(out, at, relation),
    }
}
