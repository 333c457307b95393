// Triangles of loops in bytes, and the positions behind a full loop's. The positions are copied into a work array, the classes are read where they stand.
#![tactic(auto)]

ghost use Rattle.std.specs.Prelude.{◌≡◌, ◌*◌, ◌≤◌, length};
ghost use Rattle.bytes_loop.specs.Layout as F;
ghost use Rattle.bytes_loop.specs.Outcome.{outcome};
ghost use Rattle.bytes_ask.specs.Ask.{number_of, told_number};
ghost use Rattle.bytes_cut.specs.Cut as Cu;

use bytes_ask::tell;
use judge::Refusal;
use loop_header::{Header, State};

// How many triangles a loop that was judged has at most.
fn triples_of(h: Header) -> usize
    requires { h.count ≤ 512 }
    ensures value { result ≡ Cu.triples_of h }
    ensures upper_bound { result ≤ 510 }
{
    let state = h.state;
    let n = h.count;
    match state {
        State::Empty => 0,
        State::Full => 20,
        State::Ring => if n < 3 { 0 } else { n - 2 },
    }
}

// The triangles that were cut, in bytes.
fn leave_cut(cut: Result<usize, Refusal>, triples: &[u16], out: &mut [u8]) -> Result<u32, Refusal>
    requires { Cu.Counted cut × (2 * length triples.now ≤ length out.old) }
    ensures { outcome (number_of (told_number result)) out.new ≡ Cu.laid_outcome cut triples.now out.old }
{
    let n = cut?;
    wire::put_numbers(out, triples);
    Ok(n as u32)
}

// Cuts a loop that was judged, with room for all of its triangles.
fn cut_into(
    h: Header,
    positions: &[f64],
    classes: &[u8],
    triples: &mut [u16],
    out: &mut [u8],
) -> Result<u32, Refusal>
    requires { (h.count ≤ 512) × (length triples.old ≡ 3 * Cu.triples_of h) × (6 * Cu.triples_of h ≤ length out.old) }
    ensures { outcome (number_of (told_number result)) out.new ≡ Cu.cut_outcome h positions.now classes.now triples.old out.old }
{
    let cut = loop_triangles::triangulate(h, positions, classes, triples);
    leave_cut(cut, triples, out)
}

// The refusals of a loop in its parts, and then that of the room for its triangles.
fn cut_parts(h: Header, positions: &[f64], classes: &[u8], out: &mut [u8]) -> Result<u32, Refusal>
    ensures { outcome (number_of (told_number result)) out.new ≡ Cu.parts_outcome h positions.now classes.now out.old }
{
    loop_header::cut_fault(h, positions, classes)?;
    let m = triples_of(h);
    if out.len() < 6 * m {
        return Err(Refusal::NoRoom);
    }
    let size = 3 * m;
    // A work array of the largest loop's size with a length beside it, here and in `cut_loop`: there is no heap.
    let mut triples = [0u16; 1530];
    cut_into(h, positions, classes, &mut triples[..size], out)
}

fn cut_in(s: &[u8], positions: &mut [f64], out: &mut [u8]) -> Result<u32, Refusal>
    requires { F.Array s.now (length positions.old) }
    ensures { outcome (number_of (told_number result)) out.new ≡ Cu.parts_outcome (F.header_at s.now) (F.positions_at s.now) (F.classes_at s.now) out.old }
{
    let from = bytes_loop::classes_from(s);
    bytes_loop::read_positions(s, positions);
    cut_parts(bytes_loop::header_at(s), positions, &s[from..], out)
}

// `cut` before it is told.
fn cut_loop(s: &[u8], out: &mut [u8]) -> Result<u32, Refusal>
    ensures { outcome (number_of (told_number result)) out.new ≡ Cu.triangles_outcome s.now out.old }
{
    bytes_loop::copy_fault(s)?;
    let size = 3 * bytes_loop::count_at(s);
    let mut positions = [0.0f64; 1536];
    cut_in(s, &mut positions[..size], out)
}

// Cuts a loop in bytes into triangles in bytes.
pub fn cut(s: &[u8], out: &mut [u8]) -> u32
    ensures { outcome result out.new ≡ Cu.triangles_outcome s.now out.old }
{
    tell(cut_loop(s, out))
}

// `cut_floats` before it is told.
fn cut_slices(
    header: &[u8],
    positions: &[f64],
    classes: &[u8],
    out: &mut [u16],
) -> Result<u32, Refusal>
    ensures { outcome (number_of (told_number result)) out.new ≡ Cu.floats_outcome header.now positions.now classes.now out.old }
{
    bytes_loop::header_fault(header)?;
    let n = loop_triangles::triangulate(bytes_loop::header_at(header), positions, classes, out)?;
    Ok(n as u32)
}

// Cuts a loop whose header alone is bytes.
pub fn cut_floats(header: &[u8], positions: &[f64], classes: &[u8], out: &mut [u16]) -> u32
    ensures { outcome result out.new ≡ Cu.floats_outcome header.now positions.now classes.now out.old }
{
    tell(cut_slices(header, positions, classes, out))
}

// The 12 positions that a full loop's triangles number.
#[tactic(auto, unfolding(crate::specs::Cut::full_positions_outcome))]
pub fn full_positions(out: &mut [f64]) -> u32
    ensures { outcome result out.new ≡ Cu.full_positions_outcome out.old }
{
    if out.len() < 36 {
        return bytes_loop::refused(Refusal::NoRoom);
    }
    icosahedron::write_positions(out);
    12
}
