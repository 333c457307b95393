// How far a position is from the border of an area in the store, and what an area says of one position: where it lies or how far it is, as a scene's line.
#![tactic(auto)]

ghost use Rattle.std.specs.Prelude.{◌≡◌};
ghost use Rattle.loop_ask.specs.Answers.{told_placed};
ghost use Rattle.loop_distances.specs.Distances.{told_distance};
ghost use Rattle.scene_store.specs.Store as St;
ghost use Rattle.scene_far.specs.Far as F;

use chord_length::ChordLength;
use judge::Refusal;
use loop_ask::Place;
use scene_lines::Line;
use scene_store::Area;
use vec3::Vec3;

fn far_in(
    a: Area,
    positions: &[f64],
    normals: &[f64],
    classes: &[u8],
    p: Vec3,
) -> Result<ChordLength, Refusal>
    requires { St.Lies a positions.now normals.now classes.now }
    ensures { told_distance result ≡ F.far_in a positions.now normals.now classes.now p }
{
    let start = a.start;
    let h = a.header;
    let end = start + h.count;
    let from = 3 * start;
    let to = 3 * end;
    loop_distances::distance_to_boundary(
        h,
        &positions[from..to],
        &normals[from..to],
        &classes[start..end],
        p,
    )
}

// The line of a place, by its answer's number, which is its index among the variants.
fn place_said(number: usize, placed: Result<Place, Refusal>) -> Result<Line, Refusal>
    ensures { F.told_said result ≡ F.place_said number (told_placed placed) }
{
    Ok(Line::Place(number, placed? as u8))
}

// The line of a far, by the bits of its squared chord.
fn far_said(number: usize, distance: Result<ChordLength, Refusal>) -> Result<Line, Refusal>
    ensures { F.told_said result ≡ F.far_said number (told_distance distance) }
{
    Ok(Line::Far(number, wire::to_bits(distance?.0)))
}

// What the area with a number says of a position: how `far` it is, or where it lies.
#[tactic(auto, unfolding(crate::specs::Far::said_in))]
pub fn said_in(
    far: bool,
    number: usize,
    a: Area,
    positions: &[f64],
    normals: &[f64],
    classes: &[u8],
    p: Vec3,
) -> Result<Line, Refusal>
    requires { St.Lies a positions.now normals.now classes.now }
    ensures { F.told_said result ≡ F.said_in far number a positions.now normals.now classes.now p }
{
    if far {
        return far_said(number, far_in(a, positions, normals, classes, p));
    }
    place_said(
        number,
        scene_store::place_in(a, positions, normals, classes, p),
    )
}
