// The triangles of a loop as ring numbers, and the checker of such lists. Both read a loop's count, state, positions and classes alone.
#![tactic(auto)]

ghost use Rattle.std.specs.Prelude.{◌≡◌, ◌-◌, ◌*◌};
ghost use Rattle.ring_cut.specs.Cut.{Ring};
ghost use Rattle.loop_ask.specs.Answers as An;
ghost use Rattle.loop_triangles.specs.Triangles as Tri;

use judge::Refusal;
use loop_header::{Header, State};

// The full loop: 20 triples over the recorded 12 positions.
#[tactic(auto, unfolding(crate::specs::Triangles::full_outcome))]
fn cut_full(triangles: &mut [u16]) -> Result<usize, Refusal>
    ensures { record { answer = Tri.told_cut result; triangles = triangles.new } ≡ Tri.full_outcome triangles.old }
{
    if triangles.len() < 60 {
        return Err(Refusal::NoRoom);
    }
    icosahedron::write_triples(triangles);
    Ok(20)
}

// A ring: 5 by n - 2, before 8.
#[tactic(auto, unfolding(crate::specs::Triangles::ring_outcome))]
fn cut_corners(positions: &[f64], classes: &[u8], triangles: &mut [u16]) -> Result<usize, Refusal>
    requires { Ring positions.now classes.now }
    ensures { record { answer = Tri.told_cut result; triangles = triangles.new } ≡ Tri.ring_outcome positions.now classes.now triangles.old }
{
    let n = classes.len();
    if triangles.len() < 3 * (n - 2) {
        return Err(Refusal::NoRoom);
    }
    if ring_cut::cut_ring(positions, classes, triangles) {
        Ok(n - 2)
    } else {
        Err(Refusal::NoEar)
    }
}

// Cuts a loop into triangles. Nothing is written on a refusal, on 8 after several cuts too.
#[tactic(auto, using(crate::proofs::Outs::cut_ring), unfolding(crate::specs::Triangles::triangulate_outcome))]
pub fn triangulate(
    h: Header,
    positions: &[f64],
    classes: &[u8],
    triangles: &mut [u16],
) -> Result<usize, Refusal>
    ensures { record { answer = Tri.told_cut result; triangles = triangles.new } ≡ Tri.triangulate_outcome h positions.now classes.now triangles.old }
{
    loop_header::cut_fault(h, positions, classes)?;
    let state = h.state;
    match state {
        State::Empty => Ok(0),
        State::Full => cut_full(triangles),
        State::Ring => cut_corners(positions, classes, triangles),
    }
}

// Whether a list of triples cuts a ring.
#[tactic(auto, using(crate::proofs::Outs::check_ring), unfolding(crate::specs::Triangles::accepts_answer))]
pub fn accepts(
    h: Header,
    positions: &[f64],
    classes: &[u8],
    triangles: &[u16],
) -> Result<bool, Refusal>
    ensures { An.told_answered result ≡ Tri.accepts_answer h positions.now classes.now triangles.now }
{
    loop_header::check_fault(h, positions, classes, triangles.len())?;
    Ok(ring_check::check_list(positions, classes, triangles))
}
