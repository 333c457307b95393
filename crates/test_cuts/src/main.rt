// Cuts the sample rings of standard input, checks each list of triangles, and prints them with the two insides. The stored output is what the Rust says.
// A ring is a u16 count of corners, 24 bytes a position and a byte a class, little-endian; `host rings` writes the samples and the stored output.
#![tactic(auto)]

ghost use Rattle.std.specs.Prelude.{◌≡◌, ◌-◌, ◌*◌, ◌≤◌, length};
ghost use Rattle.ring_cut.specs.Cut.{Ring};
ghost use Rattle.test_cuts.specs.Bytes.{Bytes};

use std::io::{Read, Write};
use vec3::Vec3;

// A write that fails is passed over, and the next one is tried.
fn print(out: &mut impl Write, text: &[u8]) {
    let _ = out.write_all(text);
}

// A comma stands ahead of each triangle.
fn print_number(out: &mut impl Write, i: usize, number: u16) {
    if i % 3 == 0 {
        print(out, b",");
    }
    print(out, b" ");
    let _ = write!(out, "{number}");
}

fn print_triangles(out: &mut impl Write, triangles: &[u16]) {
    for (i, number) in triangles.iter().enumerate() {
        print_number(out, i, *number);
    }
}

fn print_float(out: &mut impl Write, x: f64) {
    print(out, b" ");
    let bits = wire::to_bits(x);
    let _ = write!(out, "{bits:016x}");
}

fn print_position(out: &mut impl Write, v: Vec3) {
    print_float(out, v.x);
    print_float(out, v.y);
    print_float(out, v.z);
}

fn print_insides(out: &mut impl Write, insides: Option<(Vec3, Vec3)>) {
    let Some((a, b)) = insides else {
        print(out, b"; no insides\n");
        return;
    };
    print(out, b"; insides");
    print_position(out, a);
    print_position(out, b);
    print(out, b"\n");
}

fn print_verdict(out: &mut impl Write, accepted: bool) {
    if accepted {
        print(out, b"; accepted");
    } else {
        print(out, b"; not accepted");
    }
}

// A ring with room for its triangles.
fn print_ring(out: &mut impl Write, positions: &[f64], classes: &[u8], triangles: &mut [u16])
    requires { Ring positions.now classes.now × (length triangles.old ≡ 3 * (length classes.now - 2)) }
{
    if ring_cut::cut_ring(positions, classes, triangles) {
        print_triangles(out, triangles);
        print_verdict(out, ring_check::check_list(positions, classes, triangles));
    } else {
        print(out, b", no ear");
    }
    print_insides(out, ring_insides::find_insides(positions, classes));
}

fn cut(out: &mut impl Write, positions: &[f64], classes: &[u8])
    requires { Ring positions.now classes.now }
{
    let size = 3 * (classes.len() - 2);
    let mut triangles = [0u16; 1530];
    print_ring(out, positions, classes, &mut triangles[..size]);
}

// A ring in bytes, with room for its positions.
fn read_ring(out: &mut impl Write, bytes: &[u8], positions: &mut [f64])
    requires { Bytes (length bytes.now) (length positions.old) }
{
    let from = 8 * positions.len();
    wire::read_floats(bytes, 0, positions);
    cut(out, positions, &bytes[from..]);
}

// A ring of n corners in bytes.
fn answer_bytes(out: &mut impl Write, n: usize, body: &[u8])
    requires { (3 ≤ n) × (n ≤ 512) × (length body.now ≡ 25 * n) }
{
    print(out, b"ring of ");
    let _ = write!(out, "{n}");
    let size = 3 * n;
    let mut positions = [0.0f64; 1536];
    read_ring(out, body, &mut positions[..size]);
}

// Reads the bytes of a ring of n corners and answers; false where they are cut short.
fn answer_in(from: &mut impl Read, out: &mut impl Write, n: usize, body: &mut [u8]) -> bool
    requires { (3 ≤ n) × (n ≤ 512) × (length body.old ≡ 25 * n) }
{
    if !input::is_whole(input::read(from, body), body.len()) {
        return false;
    }
    answer_bytes(out, n, body);
    true
}

fn answer(from: &mut impl Read, out: &mut impl Write, n: usize) -> bool
    requires { (3 ≤ n) × (n ≤ 512) }
{
    let size = 25 * n;
    let mut body = [0u8; 12800];
    answer_in(from, out, n, &mut body[..size])
}

// Reads one ring and answers; false at the end, and at a count that no ring has.
fn answer_one(from: &mut impl Read, out: &mut impl Write) -> bool {
    let mut head = [0u8; 2];
    if !input::is_whole(input::read(from, &mut head), 2) {
        return false;
    }
    let n = wire::u16_at(&head, 0) as usize;
    (3..=512).contains(&n) && answer(from, out, n)
}

// The rings are counted, since nothing says that an input ends.
fn main(rt: HostRuntime) {
    let mut from = rt.stdin();
    let mut out = rt.stdout();
    for _ in 0..10000 {
        if !answer_one(&mut from, &mut out) {
            return;
        }
    }
}
