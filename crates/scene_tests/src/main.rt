// The scene program's stored tests, many in one run: standard input holds how many there are, and for each a title and a scene,
// both with a u32 length before them (samples/make.py writes them). Prints each title, and what the scene program prints for its scene.
#![tactic(auto)]

ghost use Rattle.std.specs.Prelude.{◌≡◌, ◌≤◌, length, take, IfSome};

use std::io::{Read, Write};

fn read_number(from: &mut impl Read) -> Option<usize> {
    let mut head = [0u8; 4];
    if !input::is_whole(input::read(from, &mut head), 4) {
        return None;
    }
    Some(wire::u32_at(&head, 0) as usize)
}

// Reads a length and so many bytes, but no more than there is room for; none where they could not be read.
fn read_part(from: &mut impl Read, buf: &mut [u8]) -> Option<usize>
    ensures { IfSome result (λ n. (n ≤ length buf.new) × (n ≡ length (take n buf.new))) }
{
    let size = read_number(from)?;
    if buf.len() < size {
        return None;
    }
    input::is_whole(input::read(from, &mut buf[..size]), size).then_some(size)
}

fn show_title(from: &mut impl Read, out: &mut impl Write, err: &mut impl Write) {
    let mut title = [0u8; 100];
    let n = read_part(from, &mut title).unwrap_or(0);
    output::print(
        out,
        err,
        &title[..n],
        b"scene_tests: standard output could not be written\n",
    );
}

fn show_scene(from: &mut impl Read, out: &mut impl Write, err: &mut impl Write) {
    let mut input = [0u8; 65537];
    let n = read_part(from, &mut input).unwrap_or(0);
    scene_print::print(out, err, &input[..n]);
}

fn main(rt: HostRuntime) {
    let mut from = rt.stdin();
    let mut out = rt.stdout();
    let mut err = rt.stderr();
    for _ in 0..read_number(&mut from).unwrap_or(0) {
        show_title(&mut from, &mut out, &mut err);
        show_scene(&mut from, &mut out, &mut err);
    }
}
