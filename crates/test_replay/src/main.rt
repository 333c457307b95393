// Replays recorded answers of the Rust: each record of the file that the first argument names is put to the port's exports, and how many agree is printed.
// `host record` writes the file; its format stands at the top of oracle/host/src/record.rs.
#![tactic(auto)]

ghost use Rattle.std.specs.Prelude.{◌+◌, ◌*◌, ◌≤◌, ◌<◌, length};

use exports::{floats, loops, minor_arcs};
use std::io::{Cursor, Error, ErrorKind, Read, Write};
use std::rt::{Env, Files};
use std::{fs, io, str};

// The bytes that an output holds before the call.
fn blank(out: &mut [u8]) {
    for (i, byte) in out.iter_mut().enumerate() {
        *byte = 165 ^ (i % 256 * 7 % 256) as u8;
    }
}

// A number that is handed in.
fn word(s: &[u8]) -> u64 {
    if s.len() < 8 {
        return 0;
    }
    wire::u64_at(s, 0)
}

fn full_in(out: &mut [u8], floats: &mut [f64]) -> u32
    requires { 8 * length floats.old ≤ length out.old }
{
    wire::read_floats(out, 0, floats);
    let r = loops::desk_full_positions(floats);
    wire::put_floats(out, 0, floats);
    r
}

// The full loop's positions: the output's bytes are lent as floats.
fn ask_full(out: &mut [u8]) -> u32 {
    let room = out.len() / 8;
    if room > 128 {
        return 0;
    }
    let mut floats = [0.0f64; 128];
    full_in(out, &mut floats[..room])
}

// The port's answer to an export that answers a word of 32 bits, by the export's number.
fn ask(export: u64, a: &[u8], b: &[u8], out: &mut [u8]) -> u32 {
    match export {
        2 => loops::desk_build(a, out),
        3 => loops::desk_place(a, b),
        4 => loops::desk_pair(a, b),
        5 => loops::desk_triangles(a, out),
        6 => loops::desk_accepts(a, b),
        7 => loops::desk_convex(a),
        8 => loops::desk_simple(a),
        9 => loops::desk_vertex(a, b),
        10 => loops::desk_on_edge(a, b),
        11 => loops::desk_equivalent(a, b),
        12 => minor_arcs::desk_arc(a, b, out),
        13 => minor_arcs::desk_arc_opposite(a, out),
        14 => minor_arcs::desk_arc_side(a, b),
        15 => minor_arcs::desk_arc_contains(a, b),
        16 => minor_arcs::desk_arc_intersection(a, b, out),
        22 => ask_full(out),
        _ => minor_arcs::desk_arc_relate(a, b, out),
    }
}

// The port's answer.
fn answer(export: u64, a: &[u8], b: &[u8], out: &mut [u8]) -> u64 {
    match export {
        0 => floats::desk_root(word(a)),
        1 => floats::desk_atan2(word(a), word(b)),
        _ => u64::from(ask(export, a, b, out)),
    }
}

// Whether the port's answer, and all bytes of its output, are the recorded ones.
fn agrees(export: u64, value: u64, a: &[u8], b: &[u8], left: &[u8], out: &mut [u8]) -> bool {
    blank(out);
    answer(export, a, b, out) == value && *out == *left
}

// A record's bytes: what is handed in ends at `first` and at `second`, and the rest is the output.
fn agrees_in(
    export: u64,
    value: u64,
    first: usize,
    second: usize,
    body: &[u8],
    out: &mut [u8],
) -> bool
    requires { (first ≤ second) × (second ≤ length body.now) }
{
    agrees(
        export,
        value,
        &body[0..first],
        &body[first..second],
        &body[second..],
        out,
    )
}

// Reads a record's bytes, and says whether they are there and agree.
fn replay_in(
    file: &mut impl Read,
    export: u64,
    value: u64,
    first: usize,
    second: usize,
    body: &mut [u8],
    out: &mut [u8],
) -> bool
    requires { (first ≤ second) × (second ≤ length body.old) }
{
    input::is_whole(input::read(file, body), body.len())
        && agrees_in(export, value, first, second, body, out)
}

// With room for a record's bytes and for its output; a larger one is none of the host's.
fn replay_body(
    file: &mut impl Read,
    export: u64,
    value: u64,
    first: usize,
    second: usize,
    size: usize,
) -> bool
    requires { (first ≤ second) × (second ≤ size) }
{
    if size > 4096 {
        return false;
    }
    let room = size - second;
    let mut body = [0u8; 4096];
    let mut out = [0u8; 4096];
    replay_in(
        file,
        export,
        value,
        first,
        second,
        &mut body[..size],
        &mut out[..room],
    )
}

// Reads the head of a record, and has the rest replayed: whether it agrees, or none at the file's end.
fn replay_one(file: &mut impl Read) -> Option<bool> {
    let mut head = [0u8; 16];
    if !input::is_whole(input::read(file, &mut head), 16) {
        return None;
    }
    let first = wire::u16_at(&head, 2) as usize;
    let second = first + wire::u16_at(&head, 4) as usize;
    let size = second + wire::u16_at(&head, 6) as usize;
    Some(replay_body(
        file,
        wire::u16_at(&head, 0),
        wire::u64_at(&head, 8),
        first,
        second,
        size,
    ))
}

fn print(out: &mut impl Write, agreed: u64, all: u64) {
    let _ = writeln!(out, "{agreed} of {all} agree");
}

// The records are counted, since nothing says that a file ends.
fn replay_all(file: &mut impl Read, out: &mut impl Write) {
    let mut agreed = 0u64;
    let mut all = 0u64;
    for _ in 0..1000000u64 {
        let Some(agrees) = replay_one(file) else {
            break;
        };
        agreed += u64::from(agrees);
        all += 1;
    }
    print(out, agreed, all);
}

// The library's paths are text.
fn open<F: Files>(rt: &F, path: &[u8]) -> io::Result<F::File> {
    let name = str::from_utf8(path).map_err(|_| Error::from(ErrorKind::InvalidFilename))?;
    fs::open(rt, name)
}

// Says on standard error that a file could not be opened, and why: an error's text ends where its number or the room for it begins.
fn complain(err: &mut impl Write, path: &[u8], error: Error) {
    let mut room = Cursor::new([0u8; 256]);
    let _ = write!(room, "{error}\0");
    let text = str::from_utf8(room.get_ref()).unwrap_or("");
    let words = text.split_once(" (os error").or(text.split_once('\0'));
    let _ = err.write_all(path);
    let _ = writeln!(err, ": {}", words.map_or("", |w| w.0));
}

fn replay_file(rt: &impl Files, out: &mut impl Write, err: &mut impl Write, path: &[u8]) {
    match open(rt, path) {
        Ok(mut file) => replay_all(&mut file, out),
        Err(error) => complain(err, path, error),
    }
}

fn main(rt: HostRuntime) {
    let mut path = [0u8; 4096];
    let length = rt.arg(1, &mut path).unwrap_or(0);
    replay_file(&rt, &mut rt.stdout(), &mut rt.stderr(), &path[..length]);
}
