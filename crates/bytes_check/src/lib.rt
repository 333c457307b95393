// The checker of lists of triangles in bytes, against a loop in bytes. Positions and numbers are copied into work arrays, the classes are read where they stand.
#![tactic(auto)]

ghost use Rattle.std.specs.Prelude.{◌≡◌, ◌*◌, ◌≤◌, length};
ghost use Rattle.judge.specs.Refusals.{number_of};
ghost use Rattle.loop_ask.specs.Answers.{told_answered};
ghost use Rattle.wire.specs.Wire.{numbers_at};
ghost use Rattle.bytes_loop.specs.Layout as F;
ghost use Rattle.bytes_ask.specs.Ask as As;
ghost use Rattle.loop_triangles.specs.Triangles.{accepts_answer};
ghost use Rattle.bytes_check.specs.Checking as Ch;

use bytes_ask::answered;
use judge::Refusal;

// What keeps a list of triangles from being checked against a loop, both in bytes: that it is not in sixes is 1, ahead of a count above 512.
#[tactic(auto, using(crate::proofs::Lists::not_sixes, crate::proofs::Lists::in_sixes))]
fn list_fault(s: &[u8], size: usize) -> Result<(), Refusal>
    ensures { number_of result ≡ Ch.list_fault s.now size }
{
    if size % 6 != 0 {
        return Err(Refusal::Shape);
    }
    bytes_loop::copy_fault(s)
}

// How many numbers of a list are read: no ring has 511 triangles, so that a longer list is a no by its first 511.
#[tactic(auto, unfolding(crate::specs::Checking::numbers_for))]
fn numbers_for(size: usize) -> usize
    ensures value { result ≡ Ch.numbers_for size }
    ensures upper_bound { result ≤ 1533 }
    ensures result_bound { 2 * result ≤ size }
{
    if size / 2 < 1533 { size / 2 } else { 1533 }
}

// `accepts` with its work arrays.
fn accepts_in(
    s: &[u8],
    list: &[u8],
    positions: &mut [f64],
    numbers: &mut [u16],
) -> Result<bool, Refusal>
    requires { F.Array s.now (length positions.old) × (2 * length numbers.old ≤ length list.now) }
    ensures { told_answered result ≡ accepts_answer (F.header_at s.now) (F.positions_at s.now) (F.classes_at s.now) (numbers_at list.now (length numbers.old)) }
{
    let from = bytes_loop::classes_from(s);
    bytes_loop::read_positions(s, positions);
    wire::read_numbers(list, numbers);
    loop_triangles::accepts(bytes_loop::header_at(s), positions, &s[from..], numbers)
}

// `accepts` before it is told.
fn accepted(s: &[u8], list: &[u8]) -> Result<bool, Refusal>
    ensures { told_answered result ≡ Ch.accepts_told s.now list.now }
{
    list_fault(s, list.len())?;
    let size = 3 * bytes_loop::count_at(s);
    let count = numbers_for(list.len());
    // Work arrays of the largest loop's and list's size with a length beside them: there is no heap.
    let mut positions = [0.0f64; 1536];
    let mut numbers = [0u16; 1533];
    accepts_in(s, list, &mut positions[..size], &mut numbers[..count])
}

// Whether a list of triangles in bytes cuts a loop in bytes.
pub fn accepts(s: &[u8], list: &[u8]) -> u32
    ensures { result ≡ As.number_of (Ch.accepts_told s.now list.now) }
{
    answered(accepted(s, list))
}
