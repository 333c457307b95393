// What a scene knows between two records, the table of the areas met among it, and whether a record's area may come in and its numbers were met.
#![tactic(auto)]

ghost use Rattle.std.specs.Prelude.{◌≡◌, ◌+◌, ◌*◌, ◌≤◌, ◌<◌, length, get_or};
ghost use Rattle.scene_store.specs.Store as St;
ghost use Rattle.scene_notes.specs.Judged as J;
ghost use Rattle.scene_notes.specs.Noted as N;

use minor_arc::Mode;
use scene_records::Fault;
use scene_store::Area;

// What is known between two records, beside the store.
#[derive(Clone, Copy)]
pub struct Notes {
    pub at: usize,
    pub records: usize,
    pub met: usize,
    pub given: usize,
    pub used: usize,
    // An array with a length beside it, `met`: there is no heap.
    pub areas: [Area; 16],
}

// The index of a number among the areas met, or how many there are. It is no `Option`, since the definitions go on with that index: past the last is not met.
pub fn index_of(c: Notes, number: usize) -> usize
    requires { N.Kept c }
    ensures value { result ≡ N.index_of (N.areas_of c) number }
    ensures upper_bound { result ≤ c.met }
{
    let met = c.met;
    let areas = c.areas;
    areas[..met]
        .iter()
        .position(|a| a.number == number)
        .unwrap_or(met)
}

pub fn area_of(c: Notes, i: usize) -> Area
    requires { (i < c.met) × N.Kept c }
    ensures { result ≡ get_or (N.areas_of c) i St.nobody }
{
    let areas = c.areas;
    areas[i]
}

// A scene's notes before its first record.
#[tactic(auto, unfolding(crate::specs::Noted::no_areas))]
pub fn fresh() -> Notes
    ensures { result ≡ N.fresh_notes }
{
    let nobody = Area {
        number: 0,
        start: 0,
        header: loop_header::empty(Mode::Plain),
    };
    Notes {
        at: 0,
        records: 0,
        met: 0,
        given: 0,
        used: 0,
        areas: [nobody; 16],
    }
}

// The notes after a record of `size` bytes that brought no area.
pub fn passed(c: Notes, size: usize) -> Notes
    requires { (c.at + size ≤ 65536) × (c.records ≤ 65536) }
    ensures { result ≡ N.passed_notes c size }
{
    let areas = c.areas;
    Notes {
        at: c.at + size,
        records: c.records + 1,
        met: c.met,
        given: c.given,
        used: c.used,
        areas,
    }
}

// The notes after an area of `count` given positions.
pub fn added(c: Notes, a: Area, count: usize) -> Notes
    requires { N.Addable c a count }
    ensures { result ≡ N.added_notes c a count }
{
    let met = c.met;
    let mut areas = c.areas;
    let h = a.header;
    areas[met] = a;
    Notes {
        at: c.at + 8 + 24 * count,
        records: c.records + 1,
        met: met + 1,
        given: c.given + count,
        used: c.used + h.count,
        areas,
    }
}

// The fault of an area record and that field's offset, ahead of the builder's refusals.
#[tactic(auto, using(crate::proofs::Tables::met_count), unfolding(crate::specs::Noted::judge_area))]
pub fn judge_area(c: Notes, number: usize, count: usize) -> Result<(), (Fault, usize)>
    requires { N.Kept c × (c.at ≤ 65536) × (c.given ≤ 1024) × (count ≤ 65536) }
    ensures { J.told_judged result ≡ N.judge_area (N.areas_of c) c.given c.at number count }
{
    let field = c.at + 6;
    if number == 0 {
        return Err((Fault::NoNumber, field));
    }
    if index_of(c, number) < c.met {
        return Err((Fault::Repeated, field));
    }
    if 16 <= c.met {
        return Err((Fault::ManyAreas, field));
    }
    if 1024 < c.given + count {
        return Err((Fault::ManyPositions, c.at));
    }
    Ok(())
}

// The index of the first of a record's numbers that is zero, or how many there are, as its definition tells it. It and `first_unmet` are one call of `position` each,
// and differ in the test.
fn first_zero(numbers: &[usize]) -> usize
    ensures { result ≡ N.first_zero numbers.now }
{
    numbers
        .iter()
        .position(|n| *n == 0)
        .unwrap_or(numbers.len())
}

// The same of the first that no area met has: its index among them is past the last.
fn first_unmet(met: usize, indexes: &[usize]) -> usize
    ensures { result ≡ N.first_past met indexes.now }
{
    indexes
        .iter()
        .position(|i| met <= *i)
        .unwrap_or(indexes.len())
}

// Faults of the numbers that a place or a pair names, by their indexes among the areas met: of all of them zero comes before not met. The notes stay
// with the caller, since by value they would be copied.
pub fn judge_numbers(
    at: usize,
    met: usize,
    numbers: &[usize],
    indexes: &[usize],
) -> Result<(), (Fault, usize)>
    requires { (at ≤ 65536) × (length numbers.now ≤ 2) × (length indexes.now ≡ length numbers.now) }
    ensures { J.told_judged result ≡ N.judge_numbers (N.is_past met indexes.now) at numbers.now }
{
    let field = at + 6;
    let zero = first_zero(numbers);
    if zero < numbers.len() {
        return Err((Fault::NoNumber, field + 2 * zero));
    }
    let unmet = first_unmet(met, indexes);
    if unmet < numbers.len() {
        return Err((Fault::NotMet, field + 2 * unmet));
    }
    Ok(())
}
