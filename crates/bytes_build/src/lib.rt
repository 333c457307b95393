// Building a loop out of positions in bytes, into bytes; and out of floats, with its header alone in bytes. A number is answered: a refusal is 65,536 plus its own.
#![tactic(auto)]

ghost use Rattle.std.specs.Prelude.{◌≡◌, ◌*◌, ◌≤◌, length};
ghost use Rattle.bytes_loop.specs.Outcome.{outcome};
ghost use Rattle.bytes_build.specs.Build as Bu;

use bytes_loop::HEADER;
use judge::Refusal;
use loop_header::Header;
use minor_arc::Mode;

// A loop written into bytes that have room for it, or refusal 5 where they cannot hold its header.
#[tactic(auto, using(crate::proofs::Builds::parts), unfolding(crate::specs::Build::loop_outcome))]
fn leave_loop(
    out: &mut [u8],
    h: Header,
    positions: &[f64],
    normals: &[f64],
    classes: &[u8],
) -> Result<u32, Refusal>
    requires { Bu.Fitting h (length out.old) (length positions.now) (length normals.now) (length classes.now) }
    ensures { outcome (Bu.number_told result) out.new ≡ Bu.loop_outcome h positions.now normals.now classes.now out.old }
{
    if out.len() < HEADER {
        return Err(Refusal::NoRoom);
    }
    let n = h.count;
    let size = 3 * n;
    bytes_loop::put_loop(out, h, &positions[..size], &normals[..size], &classes[..n]);
    Ok(n as u32)
}

// Builds a list's loop in lent work arrays, whose room is that of the bytes it is to be written into.
fn build_from(
    mode: Mode,
    list: &[f64],
    out: &mut [u8],
    positions: &mut [f64],
    normals: &mut [f64],
    classes: &mut [u8],
) -> Result<u32, Refusal>
    requires { Bu.Roomy (length out.old) (length positions.old) (length normals.old) (length classes.old) }
    ensures { outcome (Bu.number_told result) out.new ≡ Bu.built_outcome mode list.now out.old }
{
    let h = loop_build::build(mode, list, positions, normals, classes)?;
    leave_loop(out, h, positions, normals, classes)
}

fn build_in(
    mode: Mode,
    list: &[u8],
    out: &mut [u8],
    floats: &mut [f64],
    positions: &mut [f64],
    normals: &mut [f64],
    classes: &mut [u8],
) -> Result<u32, Refusal>
    requires { Bu.Roomy (length out.old) (length positions.old) (length normals.old) (length classes.old) × (8 * length floats.old ≡ length list.now) }
    ensures { outcome (Bu.number_told result) out.new ≡ Bu.built_outcome mode (Bu.list_at list.now) out.old }
{
    wire::read_floats(list, 0, floats);
    build_from(mode, floats, out, positions, normals, classes)
}

// `build` before it is told.
fn built(mode: Mode, list: &[u8], out: &mut [u8]) -> Result<u32, Refusal>
    ensures { outcome (Bu.number_told result) out.new ≡ Bu.build_outcome mode list.now out.old }
{
    if list.len() % wire::VECTOR != 0 {
        return Err(Refusal::Shape);
    }
    let m = list.len() / wire::VECTOR;
    if m > 512 {
        return Err(Refusal::TooMany);
    }
    let given = 3 * m;
    let n = bytes_loop::corners_for(out.len());
    let size = 3 * n;
    // Work arrays of the largest loop's size with a length beside them: there is no heap.
    let mut floats = [0.0f64; 1536];
    let mut positions = [0.0f64; 1536];
    let mut normals = [0.0f64; 1536];
    let mut classes = [0u8; 512];
    build_in(
        mode,
        list,
        out,
        &mut floats[..given],
        &mut positions[..size],
        &mut normals[..size],
        &mut classes[..n],
    )
}

// Builds a loop of positions in bytes into bytes.
pub fn build(mode: Mode, list: &[u8], out: &mut [u8]) -> u32
    ensures { outcome result out.new ≡ Bu.build_outcome mode list.now out.old }
{
    built(mode, list, out).unwrap_or_else(bytes_loop::refused)
}

// `build_floats` before it is told: the header's room is judged ahead of any writing.
fn built_floats(
    mode: Mode,
    list: &[f64],
    header: &mut [u8],
    positions: &mut [f64],
    normals: &mut [f64],
    classes: &mut [u8],
) -> Result<u32, Refusal>
    ensures { record { number = Bu.number_told result; header = header.new; positions = positions.new; normals = normals.new; classes = classes.new }
        ≡ Bu.floats_outcome mode list.now header.old positions.old normals.old classes.old }
{
    if header.len() < HEADER {
        loop_build::list_fault(list)?;
        return Err(Refusal::NoRoom);
    }
    let h = loop_build::build(mode, list, positions, normals, classes)?;
    bytes_loop::put_header(header, h);
    Ok(h.count as u32)
}

// Builds a loop of positions in floats, with its header alone in bytes.
pub fn build_floats(
    mode: Mode,
    list: &[f64],
    header: &mut [u8],
    positions: &mut [f64],
    normals: &mut [f64],
    classes: &mut [u8],
) -> u32
    ensures { record { number = result; header = header.new; positions = positions.new; normals = normals.new; classes = classes.new }
        ≡ Bu.floats_outcome mode list.now header.old positions.old normals.old classes.old }
{
    built_floats(mode, list, header, positions, normals, classes).unwrap_or_else(
        bytes_loop::refused,
    )
}
