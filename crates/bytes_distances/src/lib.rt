// How far a position is from an arc and from a loop's border, over bytes, for the exports. What is told is found by value first, then one call writes it: a squared
// chord as 8 bytes, or as one float.
#![tactic(auto)]

ghost use Rattle.std.specs.Prelude.{◌≡◌, length};
ghost use Rattle.loop_distances.specs.Distances.{chord, told_distance};
ghost use Rattle.bytes_loop.specs.Outcome.{outcome};
ghost use Rattle.bytes_loop.specs.Layout as F;
ghost use Rattle.bytes_distances.specs.Distances as Far;

use bytes_loop::refused;
use chord_length::ChordLength;
use judge::Refusal;
use loop_header::Header;
use vec3::Vec3;

// How many bytes a squared chord has.
const CHORD: usize = 8;

// The squared chord written, or refusal 5 where there is no room for it.
#[tactic(auto, using(crate::proofs::Fars::no_room, crate::proofs::Fars::room))]
fn leave_chord(out: &mut [u8], c: ChordLength) -> u32
    ensures { outcome result out.new ≡ Far.leave (chord c) out.old }
{
    if out.len() < CHORD {
        return refused(Refusal::NoRoom);
    }
    wire::put_float(out, 0, c.0);
    0
}

#[tactic(auto, unfolding(crate::specs::Distances::leave))]
fn leave(out: &mut [u8], d: Result<ChordLength, Refusal>) -> u32
    ensures { outcome result out.new ≡ Far.leave (told_distance d) out.old }
{
    match d {
        Err(r) => refused(r),
        Ok(c) => leave_chord(out, c),
    }
}

// The same as one float. It stays beside the bytes' own: one for both would take the write and its room as closures, and have to say in its contract what they leave.
#[tactic(auto, using(crate::proofs::Fars::no_float, crate::proofs::Fars::a_float))]
fn leave_float_chord(out: &mut [f64], c: ChordLength) -> u32
    ensures { outcome result out.new ≡ Far.leave_float (chord c) out.old }
{
    if out.len() < 1 {
        return refused(Refusal::NoRoom);
    }
    out[0] = c.0;
    0
}

#[tactic(auto, unfolding(crate::specs::Distances::leave_float))]
fn leave_float(out: &mut [f64], d: Result<ChordLength, Refusal>) -> u32
    ensures { outcome result out.new ≡ Far.leave_float (told_distance d) out.old }
{
    match d {
        Err(r) => refused(r),
        Ok(c) => leave_float_chord(out, c),
    }
}

// How far from a loop in its parts. A position whose length is wrong comes after the loop's own refusals.
#[tactic(auto, using(bytes_loop::proofs::Faults::wrong_size, crate::proofs::Fars::at_position), unfolding(crate::specs::Distances::told_by))]
fn told_by(
    h: Header,
    positions: &[f64],
    normals: &[f64],
    classes: &[u8],
    position: &[u8],
) -> Result<ChordLength, Refusal>
    ensures { told_distance result ≡ Far.told_by h positions.now normals.now classes.now position.now }
{
    if position.len() != wire::VECTOR {
        loop_header::loop_fault(h, positions, normals, classes)?;
        return Err(Refusal::Shape);
    }
    loop_distances::distance_to_boundary(h, positions, normals, classes, wire::vec_at(position, 0))
}

// `told` with its work arrays.
#[tactic(auto, using(bytes_loop::proofs::Parts::classes_read))]
fn told_in(
    s: &[u8],
    position: &[u8],
    positions: &mut [f64],
    normals: &mut [f64],
) -> Result<ChordLength, Refusal>
    requires { F.Arrays s.now (length positions.old) (length normals.old) }
    ensures { told_distance result ≡ Far.told_by (F.header_at s.now) (F.positions_at s.now) (F.normals_at s.now) (F.classes_at s.now) position.now }
{
    let from = bytes_loop::classes_from(s);
    bytes_loop::read_vectors(s, positions, normals);
    told_by(
        bytes_loop::header_at(s),
        positions,
        normals,
        &s[from..],
        position,
    )
}

// How far from a loop in bytes.
#[tactic(auto, using(crate::proofs::Fars::late, crate::proofs::Fars::has_header, crate::proofs::Fars::few))]
fn told(s: &[u8], position: &[u8]) -> Result<ChordLength, Refusal>
    ensures { told_distance result ≡ Far.far_told s.now position.now }
{
    bytes_loop::copy_fault(s)?;
    let size = 3 * bytes_loop::count_at(s);
    // Work arrays of the largest loop's size with a length beside them: there is no heap.
    let mut positions = [0.0f64; 1536];
    let mut normals = [0.0f64; 1536];
    told_in(s, position, &mut positions[..size], &mut normals[..size])
}

// How far from a loop whose header alone is bytes.
#[tactic(auto, using(crate::proofs::Fars::header_there))]
fn told_floats(
    header: &[u8],
    positions: &[f64],
    normals: &[f64],
    classes: &[u8],
    p: Vec3,
) -> Result<ChordLength, Refusal>
    ensures { told_distance result ≡ Far.floats_told header.now positions.now normals.now classes.now p }
{
    bytes_loop::header_fault(header)?;
    loop_distances::distance_to_boundary(
        bytes_loop::header_at(header),
        positions,
        normals,
        classes,
        p,
    )
}

// How far from an arc in bytes.
fn told_arc(arc: &[u8], position: &[u8]) -> Result<ChordLength, Refusal>
    ensures { told_distance result ≡ Far.arc_told arc.now position.now }
{
    bytes_arcs::next_judged(arc, position, wire::VECTOR)?;
    loop_distances::distance_to(bytes_arcs::arc_at(arc), wire::vec_at(position, 0))
}

// How far a position is from a loop's border, both in bytes.
pub fn far(s: &[u8], position: &[u8], out: &mut [u8]) -> u32
    ensures { outcome result out.new ≡ Far.far_outcome s.now position.now out.old }
{
    leave(out, told(s, position))
}

// How far a position is from an arc, both in bytes.
pub fn arc_far(arc: &[u8], position: &[u8], out: &mut [u8]) -> u32
    ensures { outcome result out.new ≡ Far.arc_far_outcome arc.now position.now out.old }
{
    leave(out, told_arc(arc, position))
}

// How far a position is from the border of a loop whose header alone is bytes.
pub fn far_floats(
    header: &[u8],
    positions: &[f64],
    normals: &[f64],
    classes: &[u8],
    p: Vec3,
    out: &mut [f64],
) -> u32
    ensures { outcome result out.new ≡ Far.far_floats_outcome header.now positions.now normals.now classes.now p out.old }
{
    leave_float(out, told_floats(header, positions, normals, classes, p))
}
