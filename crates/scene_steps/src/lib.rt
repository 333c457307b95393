// A scene's records taken one by one: what each comes to.
#![tactic(auto)]

ghost use Rattle.std.specs.Prelude.{◌≡◌, ◌+◌, ◌*◌, ◌≤◌, ◌<◌, length};
ghost use Rattle.judge.specs.Refusals.{number};
ghost use Rattle.loop_relate.specs.Relations.{told_related};
ghost use Rattle.scene_store.specs.Store as St;
ghost use Rattle.scene_far.specs.Far as F;
ghost use Rattle.scene_notes.specs.Judged as J;
ghost use Rattle.scene_notes.specs.Noted as N;
ghost use Rattle.scene_steps.specs.Steps as S;

use judge::Refusal;
use loop_header::Header;
use loop_relate::Relation;
use scene_lines::Line;
use scene_notes::Notes;
use scene_records::{Fault, Read};
use scene_store::Area;

// What a record comes to: there is none; its fault and that field's offset; a call's own refusal, of a list of positions with the index of the first that
// is refused; or its line. A refusal goes by its number, as the definitions tell it; and this is no `Result`, since none of the five is passed on by `?`.
#[derive(Clone, Copy)]
pub enum Report {
    End,
    Bad(Fault, usize),
    Refused(u8),
    RefusedAt(u8, usize),
    Line(Line),
}

// The same with the notes after it, which stand beside it since they hold an array.
#[derive(Clone, Copy)]
pub struct Stepped {
    pub report: Report,
    pub next: Notes,
}

// Whether a refusal is of one position in a list.
fn is_of_positions(r: Refusal) -> bool
    ensures { result ≡ S.of_positions (number r) }
{
    matches!(r, Refusal::NotFinite | Refusal::OffRange)
}

// A call's own refusal: 3 and 4 come with the index of the first position refused, of the list that stands in the record at `at`.
#[tactic(auto, unfolding(crate::specs::Steps::refusal_report))]
fn refusal(s: &[u8], at: usize, count: usize, r: Refusal) -> Report
    requires { (length s.now ≤ 65536) × (count ≤ 1024) × (at + (8 + 24 * count) ≤ length s.now) }
    ensures { result ≡ S.refusal_report (number r) (S.refused_index s.now at count) }
{
    if !is_of_positions(r) {
        return Report::Refused(r.number());
    }
    Report::RefusedAt(r.number(), scene_records::first_refused(s, at + 8, count))
}

// The line of an area that was built, and the notes with it.
fn area_line(
    c: Notes,
    number: usize,
    count: usize,
    h: Header,
    positions: &[f64],
    normals: &[f64],
    classes: &[u8],
) -> Stepped
    requires { St.Lies (N.area_at c.used number h) positions.now normals.now classes.now × N.Addable c (N.area_at c.used number h) count }
    ensures { result ≡ record {
      report = Report.Line (Line.Area number h (St.triangle_count (N.area_at c.used number h) positions.now classes.now));
      next = N.added_notes c (N.area_at c.used number h) count;
    } }
{
    let a = Area {
        number,
        start: c.used,
        header: h,
    };
    let triangles = scene_store::triangle_count(a, positions, normals, classes);
    Stepped {
        report: Report::Line(Line::Area(number, h, triangles)),
        next: scene_notes::added(c, a, count),
    }
}

// An area that may come in is built; its own refusal ends the scene.
fn area_made(
    s: &[u8],
    c: Notes,
    number: usize,
    count: usize,
    positions: &mut [f64],
    normals: &mut [f64],
    classes: &mut [u8],
) -> Stepped
    requires { S.Ready s.now c (8 + 24 * count) positions.old normals.old classes.old × (J.Fine ≡ N.judge_area (N.areas_of c) c.given c.at number count) }
    ensures { record { stepped = result; positions = positions.new; normals = normals.new; classes = classes.new }
        ≡ S.area_made_outcome s.now c number count positions.old normals.old classes.old }
{
    match scene_store::build_area(s, c.at + 8, count, c.used, positions, normals, classes) {
        Err(r) => Stepped {
            report: refusal(s, c.at, count, r),
            next: c,
        },
        Ok(h) => area_line(c, number, count, h, positions, normals, classes),
    }
}

fn area_step(
    s: &[u8],
    c: Notes,
    number: usize,
    count: usize,
    positions: &mut [f64],
    normals: &mut [f64],
    classes: &mut [u8],
) -> Stepped
    requires { S.Ready s.now c (8 + 24 * count) positions.old normals.old classes.old }
    ensures { record { stepped = result; positions = positions.new; normals = normals.new; classes = classes.new }
        ≡ S.area_outcome s.now c number count positions.old normals.old classes.old }
{
    match scene_notes::judge_area(c, number, count) {
        Err((f, field)) => Stepped {
            report: Report::Bad(f, field),
            next: c,
        },
        Ok(()) => area_made(s, c, number, count, positions, normals, classes),
    }
}

// What was said of a place, which is a list of one.
fn place_told(s: &[u8], at: usize, said: Result<Line, Refusal>) -> Report
    requires { (length s.now ≤ 65536) × (at + 32 ≤ length s.now) }
    ensures { result ≡ S.place_report (F.told_said said) (S.refused_index s.now at 1) }
{
    match said {
        Err(r) => refusal(s, at, 1, r),
        Ok(line) => Report::Line(line),
    }
}

// A place of an area that was met, by its index among them: where it lies is asked, or how `far` it is.
fn place_met(
    s: &[u8],
    c: Notes,
    far: bool,
    number: usize,
    i: usize,
    positions: &[f64],
    normals: &[f64],
    classes: &[u8],
) -> Stepped
    requires { S.Ready s.now c 32 positions.now normals.now classes.now × (i ≡ N.index_of (N.areas_of c) number) × (i < c.met) }
    ensures { record { stepped = result; positions = positions.now; normals = normals.now; classes = classes.now }
        ≡ S.place_met_outcome far s.now c number positions.now normals.now classes.now }
{
    let a = scene_notes::area_of(c, i);
    let p = wire::vec_at(s, c.at + 8);
    let said = scene_far::said_in(far, number, a, positions, normals, classes, p);
    Stepped {
        report: place_told(s, c.at, said),
        next: scene_notes::passed(c, 32),
    }
}

fn place_step(
    s: &[u8],
    c: Notes,
    far: bool,
    number: usize,
    positions: &[f64],
    normals: &[f64],
    classes: &[u8],
) -> Stepped
    requires { S.Ready s.now c 32 positions.now normals.now classes.now }
    ensures { record { stepped = result; positions = positions.now; normals = normals.now; classes = classes.now }
        ≡ S.place_outcome far s.now c number positions.now normals.now classes.now }
{
    let i = scene_notes::index_of(c, number);
    let numbers = [number];
    let indexes = [i];
    match scene_notes::judge_numbers(c.at, c.met, &numbers, &indexes) {
        Err((f, field)) => Stepped {
            report: Report::Bad(f, field),
            next: c,
        },
        Ok(()) => place_met(s, c, far, number, i, positions, normals, classes),
    }
}

// The line of a pair, by its relation's number, which is its index among the variants.
fn pair_told(p: Result<Relation, Refusal>, number: usize, other: usize) -> Report
    ensures { result ≡ S.pair_report (told_related p) number other }
{
    match p {
        Err(r) => Report::Refused(r.number()),
        Ok(relation) => Report::Line(Line::Pair(number, other, relation as u8)),
    }
}

// A pair of two areas that were met, by their indexes among them.
fn pair_met(
    s: &[u8],
    c: Notes,
    number: usize,
    other: usize,
    i: usize,
    j: usize,
    positions: &[f64],
    normals: &[f64],
    classes: &[u8],
) -> Stepped
    requires { S.Ready s.now c 10 positions.now normals.now classes.now × ((i ≡ N.index_of (N.areas_of c) number) × (i < c.met)) × ((j ≡ N.index_of (N.areas_of c) other) × (j < c.met)) }
    ensures { record { stepped = result; positions = positions.now; normals = normals.now; classes = classes.now }
        ≡ S.pair_met_outcome c number other positions.now normals.now classes.now }
{
    let a = scene_notes::area_of(c, i);
    let b = scene_notes::area_of(c, j);
    let related = scene_store::pair_in(a, b, positions, normals, classes);
    Stepped {
        report: pair_told(related, number, other),
        next: scene_notes::passed(c, 10),
    }
}

fn pair_step(
    s: &[u8],
    c: Notes,
    number: usize,
    other: usize,
    positions: &[f64],
    normals: &[f64],
    classes: &[u8],
) -> Stepped
    requires { S.Ready s.now c 10 positions.now normals.now classes.now }
    ensures { record { stepped = result; positions = positions.now; normals = normals.now; classes = classes.now }
        ≡ S.pair_outcome c number other positions.now normals.now classes.now }
{
    let i = scene_notes::index_of(c, number);
    let j = scene_notes::index_of(c, other);
    let numbers = [number, other];
    let indexes = [i, j];
    match scene_notes::judge_numbers(c.at, c.met, &numbers, &indexes) {
        Err((f, field)) => Stepped {
            report: Report::Bad(f, field),
            next: c,
        },
        Ok(()) => pair_met(s, c, number, other, i, j, positions, normals, classes),
    }
}

// The record at the notes' offset, by its kind. On an end, a fault and a refusal the lent store keeps what it held (`S.outcome_of`).
#[tactic(auto, using(crate::proofs::Taken::step_is))]
pub fn step(
    s: &[u8],
    c: Notes,
    positions: &mut [f64],
    normals: &mut [f64],
    classes: &mut [u8],
) -> Stepped
    requires { S.Ready s.now c 0 positions.old normals.old classes.old }
    ensures { record { stepped = result; positions = positions.new; normals = normals.new; classes = classes.new }
        ≡ S.step_outcome s.now c positions.old normals.old classes.old }
{
    match scene_records::read_at(s, c.at) {
        Read::End => Stepped {
            report: Report::End,
            next: c,
        },
        Read::Bad(f, field) => Stepped {
            report: Report::Bad(f, field),
            next: c,
        },
        Read::Area(number, count) => { area_step(s, c, number, count, positions, normals, classes) }
        Read::Place(number, far) => place_step(s, c, far, number, positions, normals, classes),
        Read::Pair(number, other) => pair_step(s, c, number, other, positions, normals, classes),
    }
}
