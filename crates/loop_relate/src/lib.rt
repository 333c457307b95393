// How two loops stand to each other, by the stages of the source in its order. Where the source stops at `unreachable!`, refusal 7 is given.
#![tactic(auto)]

ghost use Rattle.std.specs.Prelude.{◌≡◌};
ghost use Rattle.judge.specs.Refusals.{number_of};
ghost use Rattle.ring_pair.specs.Probes.{unambiguous_point};
ghost use Rattle.loop_ask.specs.Answers as An;
ghost use Rattle.loop_ask.specs.Places as P;
ghost use Rattle.loop_ask.specs.Questions as Q;
ghost use Rattle.loop_relate.specs.Relations as Rel;

use cap::Cap;
use judge::Refusal;
use loop_ask::Place;
use loop_header::{Header, State};
use minor_arc::Mode;
use ring_edges::Border;
use ring_pair::Probe;

// How a first loop stands to a second: it contains the second, or lies within it.
#[derive(Clone, Copy, Debug, PartialEq, Eq)]
pub enum Relation {
    Disjoint,
    Touching,
    Intersecting,
    Containing,
    Within,
    Equal,
}

fn is_empty(state: State) -> bool
    ensures { result ≡ Rel.empty_state state }
{
    match state {
        State::Empty => true,
        State::Full => false,
        State::Ring => false,
    }
}

// Loops of different modes are refused, as no one mode would answer for both.
fn modes_fault(m: Mode, n: Mode) -> Result<(), Refusal>
    ensures { number_of result ≡ Rel.modes_fault m n }
{
    match m {
        Mode::Plain => match n {
            Mode::Plain => Ok(()),
            Mode::Long => Err(Refusal::TwoModes),
        },
        Mode::Long => match n {
            Mode::Plain => Err(Refusal::TwoModes),
            Mode::Long => Ok(()),
        },
    }
}

// Whether the caps let two loops meet: in plain mode alone they are asked, as a long side may leave its cap.
fn caps_meet(mode: Mode, one: Cap, other: Cap) -> bool
    ensures { result ≡ Rel.caps_meet mode (P.cleared_cap one) (P.cleared_cap other) }
{
    let meet = loop_ask::cleared_cap(one).intersects(loop_ask::cleared_cap(other));
    match mode {
        Mode::Plain => meet,
        Mode::Long => true,
    }
}

// A mute loop contains nothing, as in the source.
fn is_inside(p: Place) -> bool
    ensures { result ≡ Rel.is_inside (An.answer (An.place_code p)) }
{
    match p {
        Place::Outside => false,
        Place::Inside => true,
        Place::Mute => false,
    }
}

// Whether a point was found, and lies in the loop.
fn probe_inside(at: Probe, o: Header, reference: &Border) -> bool
    requires { reference.now.n ≡ o.count }
    ensures { result ≡ Rel.probe_inside at o reference.now.positions.now reference.now.normals.now }
{
    match at {
        Probe::Nowhere => false,
        Probe::Corner(p) => is_inside(loop_ask::locate(
            o,
            reference.positions,
            reference.normals,
            p,
        )),
        Probe::Middle(p) => is_inside(loop_ask::locate(
            o,
            reference.positions,
            reference.normals,
            p,
        )),
    }
}

// Whether a point of the first ring that is on no edge of the second loop's lies in that loop.
fn lies_in(probe: &Border, o: Header, reference: &Border) -> bool
    requires { reference.now.n ≡ o.count }
    ensures { result ≡ Rel.probe_inside (unambiguous_point probe.now.positions.now probe.now.n reference.now.positions.now reference.now.normals.now reference.now.n) o reference.now.positions.now reference.now.normals.now }
{
    probe_inside(ring_pair::unambiguous_point(probe, reference), o, reference)
}

// No edges cross, so containment both ways decides.
fn by_containment(touched: bool, within: bool, containing: bool) -> Result<Relation, Refusal>
    ensures { Rel.told_related result ≡ Rel.by_containment touched within containing }
{
    if within {
        if containing {
            return Err(Refusal::EachInside);
        }
        return Ok(Relation::Within);
    }
    if containing {
        return Ok(Relation::Containing);
    }
    if touched {
        Ok(Relation::Touching)
    } else {
        Ok(Relation::Disjoint)
    }
}

// Every edge with every edge, and then containment. Both searches run.
#[tactic(auto, unfolding(crate::specs::Relations::by_edges, crate::specs::Relations::lies_in))]
fn by_edges(h: Header, one: &Border, o: Header, other: &Border) -> Result<Relation, Refusal>
    requires { (one.now.n ≡ h.count) × (other.now.n ≡ o.count) }
    ensures { Rel.told_related result ≡ Rel.by_edges h one.now.positions.now one.now.normals.now o other.now.positions.now other.now.normals.now }
{
    let mode = h.mode;
    let k = ring_pair::contact_of(mode, one, other);
    if ring_pair::is_crossed(k) {
        return Ok(Relation::Intersecting);
    }
    let within = lies_in(one, o, other);
    let containing = lies_in(other, h, one);
    by_containment(ring_pair::is_touched(k), within, containing)
}

// The caps first, where they are asked, then equivalence, then the edges: each cheaper than the next.
#[tactic(auto, unfolding(crate::specs::Relations::by_caps))]
fn by_caps(
    h: Header,
    positions: &[f64],
    normals: &[f64],
    classes: &[u8],
    o: Header,
    others: &[f64],
    theirs: &[f64],
    codes: &[u8],
) -> Result<Relation, Refusal>
    requires sized { Rel.Sized h positions.now normals.now o others.now theirs.now }
    requires comparable { Q.Comparable h positions.now classes.now o others.now codes.now }
    ensures { Rel.told_related result ≡ Rel.by_caps h positions.now normals.now classes.now o others.now theirs.now codes.now }
{
    let mode = h.mode;
    let one = h.cap;
    let other = o.cap;
    if !caps_meet(mode, one, other) {
        return Ok(Relation::Disjoint);
    }
    if loop_ask::equivalent(h, positions, classes, o, others, codes) {
        return Ok(Relation::Equal);
    }
    by_edges(
        h,
        &Border::new(positions, normals, h.count),
        o,
        &Border::new(others, theirs, o.count),
    )
}

// Full and empty loops first.
#[tactic(auto, unfolding(crate::specs::Relations::by_states))]
fn by_states(
    h: Header,
    positions: &[f64],
    normals: &[f64],
    classes: &[u8],
    o: Header,
    others: &[f64],
    theirs: &[f64],
    codes: &[u8],
) -> Result<Relation, Refusal>
    requires sized { Rel.Sized h positions.now normals.now o others.now theirs.now }
    requires comparable { Q.Comparable h positions.now classes.now o others.now codes.now }
    ensures { Rel.told_related result ≡ Rel.by_states h positions.now normals.now classes.now o others.now theirs.now codes.now }
{
    let one = h.state;
    let other = o.state;
    if loop_ask::is_full(one) {
        if loop_ask::is_full(other) {
            return Ok(Relation::Equal);
        }
        return Ok(Relation::Containing);
    }
    if is_empty(one) & is_empty(other) {
        return Ok(Relation::Equal);
    }
    by_caps(h, positions, normals, classes, o, others, theirs, codes)
}

// How two loops stand to each other.
#[tactic(auto, using(crate::proofs::Sizes::sized, loop_ask::proofs::Judged::comparable), unfolding(crate::specs::Relations::relate_fault, crate::specs::Relations::relate_answer))]
pub fn relate(
    h: Header,
    positions: &[f64],
    normals: &[f64],
    classes: &[u8],
    o: Header,
    others: &[f64],
    theirs: &[f64],
    codes: &[u8],
) -> Result<Relation, Refusal>
    ensures { Rel.told_related result ≡ Rel.relate_answer h positions.now normals.now classes.now o others.now theirs.now codes.now }
{
    loop_ask::pair_fault(h, positions, normals, classes, o, others, theirs, codes)?;
    let mode = h.mode;
    let their_mode = o.mode;
    modes_fault(mode, their_mode)?;
    by_states(h, positions, normals, classes, o, others, theirs, codes)
}
