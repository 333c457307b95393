// Areas in one lent store: each ring goes into its still unused rest, and each question is asked of an area's own part.
#![tactic(auto)]

ghost use Rattle.std.specs.Prelude.{◌≡◌, ◌+◌, ◌*◌, ◌≤◌, length};
ghost use Rattle.loop_build.specs.Build as B;
ghost use Rattle.loop_ask.specs.Answers.{told_placed};
ghost use Rattle.loop_relate.specs.Relations.{told_related};
ghost use Rattle.loop_triangles.specs.Triangles.{told_cut};
ghost use Rattle.scene_records.specs.Records.{floats_at};
ghost use Rattle.scene_store.specs.Store as St;

use judge::Refusal;
use loop_ask::Place;
use loop_header::Header;
use loop_relate::Relation;
use minor_arc::Mode;
use vec3::Vec3;

// An area that was met: its number, where its ring starts in the store, and its header.
#[derive(Clone, Copy)]
pub struct Area {
    pub number: usize,
    pub start: usize,
    pub header: Header,
}

// The positions of a record built into the unused rest of the store, through a lent list of their exact size.
fn build_from(
    s: &[u8],
    at: usize,
    count: usize,
    used: usize,
    list: &mut [f64],
    positions: &mut [f64],
    normals: &mut [f64],
    classes: &mut [u8],
) -> Result<Header, Refusal>
    requires { St.Room s.now at count used (length list.old) (length positions.old) (length normals.old) (length classes.old) }
    ensures { record { answer = B.told result; positions = positions.new; normals = normals.new; classes = classes.new }
        ≡ St.built_at (floats_at s.now at count) used positions.old normals.old classes.old }
{
    wire::read_floats(s, at, list);
    let from = 3 * used;
    loop_build::build(
        Mode::Plain,
        list,
        &mut positions[from..],
        &mut normals[from..],
        &mut classes[used..],
    )
}

// The same through a work list: a record has room for more positions than a loop may have, and refusal 2 is the builder's own.
pub fn build_area(
    s: &[u8],
    at: usize,
    count: usize,
    used: usize,
    positions: &mut [f64],
    normals: &mut [f64],
    classes: &mut [u8],
) -> Result<Header, Refusal>
    requires { (count ≤ 1024) × St.Room s.now at count used (3 * count) (length positions.old) (length normals.old) (length classes.old) }
    ensures { record { answer = B.told result; positions = positions.new; normals = normals.new; classes = classes.new }
        ≡ St.built_at (floats_at s.now at count) used positions.old normals.old classes.old }
{
    let size = 3 * count;
    // A work array of the largest record's size with a length beside it, as in `triangle_count` of the largest loop's: there is no heap.
    let mut list = [0.0f64; 3072];
    build_from(
        s,
        at,
        count,
        used,
        &mut list[..size],
        positions,
        normals,
        classes,
    )
}

// How many triangles a cut comes to: none where it is refused.
fn counted(cut: Result<usize, Refusal>) -> usize
    ensures { result ≡ St.counted (told_cut cut) }
{
    cut.unwrap_or(0)
}

pub fn place_in(
    a: Area,
    positions: &[f64],
    normals: &[f64],
    classes: &[u8],
    p: Vec3,
) -> Result<Place, Refusal>
    requires { St.Lies a positions.now normals.now classes.now }
    ensures { told_placed result ≡ St.place_in a positions.now normals.now classes.now p }
{
    let start = a.start;
    let h = a.header;
    let end = start + h.count;
    let from = 3 * start;
    let to = 3 * end;
    loop_ask::contains_position(
        h,
        &positions[from..to],
        &normals[from..to],
        &classes[start..end],
        p,
    )
}

pub fn pair_in(
    a: Area,
    b: Area,
    positions: &[f64],
    normals: &[f64],
    classes: &[u8],
) -> Result<Relation, Refusal>
    requires { St.Lies a positions.now normals.now classes.now × St.Lies b positions.now normals.now classes.now }
    ensures { told_related result ≡ St.pair_in a b positions.now normals.now classes.now }
{
    let start = a.start;
    let h = a.header;
    let end = start + h.count;
    let from = 3 * start;
    let to = 3 * end;
    let begin = b.start;
    let o = b.header;
    let last = begin + o.count;
    let first = 3 * begin;
    let until = 3 * last;
    loop_relate::relate(
        h,
        &positions[from..to],
        &normals[from..to],
        &classes[start..end],
        o,
        &positions[first..until],
        &normals[first..until],
        &classes[begin..last],
    )
}

pub fn triangle_count(a: Area, positions: &[f64], normals: &[f64], classes: &[u8]) -> usize
    requires { St.Lies a positions.now normals.now classes.now }
    ensures { result ≡ St.triangle_count a positions.now classes.now }
{
    let start = a.start;
    let h = a.header;
    let end = start + h.count;
    let from = 3 * start;
    let to = 3 * end;
    let mut triangles = [0u16; 1530];
    counted(loop_triangles::triangulate(
        h,
        &positions[from..to],
        &classes[start..end],
        &mut triangles,
    ))
}
