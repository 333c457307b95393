// The desk's functions on arcs, over bytes, for the exports. A position is 24 bytes, an arc 72: start, end, normal.
#![tactic(auto)]

ghost use Rattle.std.specs.Prelude.{◌≡◌, [], ◌∷◌, ◌≤◌, pos, length, OnOk};
ghost use Rattle.judge.specs.Refusals.{number_of};
ghost use Rattle.arcs.specs.Answers as Answers;
ghost use Rattle.bytes_loop.specs.Outcome.{outcome};
ghost use Rattle.bytes_loop.specs.Layout.{size_fault};
ghost use Rattle.bytes_arcs.specs.Arcs as Arcs;

use arc_relations::MinorArcRelation;
use base::Side;
use bytes_loop::refused;
use judge::Refusal;
use minor_arc::{MinorArc, Mode};
use vec3::Vec3;

#[tactic(auto, unfolding(bytes_loop::specs::Layout::size_fault))]
fn size_fault(s: &[u8], n: usize) -> Result<(), Refusal>
    ensures value { number_of result ≡ size_fault (length s.now) n }
    ensures right { OnOk result (length s.now ≡ n) }
{
    if s.len() == n {
        Ok(())
    } else {
        Err(Refusal::Shape)
    }
}

pub fn arc_at(s: &[u8]) -> MinorArc
    requires { 72 ≤ length s.now }
    ensures { result ≡ Arcs.arc_at s.now }
{
    MinorArc {
        start: wire::vec_at(s, 0),
        end: wire::vec_at(s, 24),
        normal: wire::vec_at(s, 48),
    }
}

// An arc's own refusals, its length's first.
fn arc_judged(s: &[u8]) -> Result<(), Refusal>
    ensures value { number_of result ≡ Arcs.arc_judged s.now }
    ensures right { OnOk result (length s.now ≡ 72) }
{
    size_fault(s, 72)?;
    arcs::arc_fault(arc_at(s))
}

// The refusals of an arc, and then that of the length of what comes after it.
pub fn next_judged(arc: &[u8], next: &[u8], n: usize) -> Result<(), Refusal>
    ensures value { number_of result ≡ Arcs.next_judged arc.now next.now n }
    ensures arc_right { OnOk result (length arc.now ≡ 72) }
    ensures next_right { OnOk result (length next.now ≡ n) }
{
    arc_judged(arc)?;
    size_fault(next, n)
}

fn ends_judged(start: &[u8], end: &[u8]) -> Result<(), Refusal>
    ensures value { number_of result ≡ Arcs.ends_judged start.now end.now }
    ensures start_right { OnOk result (length start.now ≡ 24) }
    ensures end_right { OnOk result (length end.now ≡ 24) }
{
    size_fault(start, 24)?;
    size_fault(end, 24)
}

// What an answer without values comes to; a side's code has no sign here, and is not its index among the variants.
fn sided(s: Result<Side, Refusal>) -> u32
    ensures { result ≡ Arcs.number_of (Answers.told_sided s) }
{
    match s {
        Err(r) => refused(r),
        Ok(Side::Collinear) => 0,
        Ok(Side::Left) => 1,
        Ok(Side::Right) => 2,
    }
}

fn held(c: Result<bool, Refusal>) -> u32
    ensures { result ≡ Arcs.number_of (Answers.told_contained c) }
{
    match c {
        Err(r) => refused(r),
        Ok(within) => within as u32,
    }
}

// A position or an arc written for an answer, or refusal 5 where there is no room for it. They stay two: one for both would go over a list of vectors by a loop, in
// place of the four writes.
#[tactic(auto, using(crate::proofs::Writes::no_room, crate::proofs::Writes::room, crate::proofs::Writes::one_written))]
fn leave_point(out: &mut [u8], number: u32, p: Vec3) -> u32
    ensures { outcome result out.new ≡ Arcs.leave (Answers.answer (pos number) (p ∷ [])) out.old }
{
    if out.len() < 24 {
        return refused(Refusal::NoRoom);
    }
    wire::put_vec(out, 0, p);
    number
}

#[tactic(auto, using(crate::proofs::Writes::no_room, crate::proofs::Writes::room, crate::proofs::Writes::three_written))]
fn leave_arc(out: &mut [u8], number: u32, a: MinorArc) -> u32
    ensures { outcome result out.new ≡ Arcs.leave (Answers.answer (pos number) (Answers.vectors a)) out.old }
{
    if out.len() < 72 {
        return refused(Refusal::NoRoom);
    }
    wire::put_vec(out, 0, a.start);
    wire::put_vec(out, 24, a.end);
    wire::put_vec(out, 48, a.normal);
    number
}

#[tactic(auto, unfolding(crate::specs::Arcs::leave))]
fn leave_made(out: &mut [u8], m: Result<MinorArc, Refusal>) -> u32
    ensures { outcome result out.new ≡ Arcs.leave (Answers.told_made m) out.old }
{
    match m {
        Err(r) => refused(r),
        Ok(a) => leave_arc(out, 0, a),
    }
}

#[tactic(auto, unfolding(crate::specs::Arcs::leave))]
fn leave_met(out: &mut [u8], m: Result<Option<Vec3>, Refusal>) -> u32
    ensures { outcome result out.new ≡ Arcs.leave (Answers.told_met m) out.old }
{
    match m {
        Err(r) => refused(r),
        Ok(None) => 0,
        Ok(Some(p)) => leave_point(out, 1, p),
    }
}

#[tactic(auto, unfolding(crate::specs::Arcs::leave))]
fn leave_related(out: &mut [u8], x: Result<MinorArcRelation, Refusal>) -> u32
    ensures { outcome result out.new ≡ Arcs.leave (Answers.told_related x) out.old }
{
    match x {
        Err(r) => refused(r),
        Ok(MinorArcRelation::Disjoint) => 0,
        Ok(MinorArcRelation::Intersecting(p)) => leave_point(out, 1, p),
        Ok(MinorArcRelation::Touching(p)) => leave_point(out, 2, p),
        Ok(MinorArcRelation::Overlapping(a)) => leave_arc(out, 3, a),
    }
}

fn told_arc(start: &[u8], end: &[u8]) -> Result<MinorArc, Refusal>
    ensures { Answers.told_made result ≡ Arcs.arc_told start.now end.now }
{
    ends_judged(start, end)?;
    arcs::new(wire::vec_at(start, 0), wire::vec_at(end, 0))
}

fn told_opposite(arc: &[u8]) -> Result<MinorArc, Refusal>
    ensures { Answers.told_made result ≡ Arcs.opposite_told arc.now }
{
    size_fault(arc, 72)?;
    arcs::opposite(arc_at(arc))
}

fn told_side(arc: &[u8], position: &[u8]) -> Result<Side, Refusal>
    ensures { Answers.told_sided result ≡ Arcs.side_told arc.now position.now }
{
    next_judged(arc, position, 24)?;
    arcs::side_of(arc_at(arc), wire::vec_at(position, 0))
}

fn told_contains(arc: &[u8], position: &[u8]) -> Result<bool, Refusal>
    ensures { Answers.told_contained result ≡ Arcs.contains_told arc.now position.now }
{
    next_judged(arc, position, 24)?;
    arcs::contains_position(arc_at(arc), wire::vec_at(position, 0))
}

fn told_intersection(mode: Mode, a: &[u8], b: &[u8]) -> Result<Option<Vec3>, Refusal>
    ensures { Answers.told_met result ≡ Arcs.intersection_told mode a.now b.now }
{
    next_judged(a, b, 72)?;
    arcs::intersection(mode, arc_at(a), arc_at(b))
}

fn told_relation(mode: Mode, a: &[u8], b: &[u8]) -> Result<MinorArcRelation, Refusal>
    ensures { Answers.told_related result ≡ Arcs.relate_told mode a.now b.now }
{
    next_judged(a, b, 72)?;
    arcs::relate(mode, arc_at(a), arc_at(b))
}

pub fn make(start: &[u8], end: &[u8], out: &mut [u8]) -> u32
    ensures { outcome result out.new ≡ Arcs.leave (Arcs.arc_told start.now end.now) out.old }
{
    leave_made(out, told_arc(start, end))
}

pub fn opposite(arc: &[u8], out: &mut [u8]) -> u32
    ensures { outcome result out.new ≡ Arcs.leave (Arcs.opposite_told arc.now) out.old }
{
    leave_made(out, told_opposite(arc))
}

pub fn side(arc: &[u8], position: &[u8]) -> u32
    ensures { result ≡ Arcs.number_of (Arcs.side_told arc.now position.now) }
{
    sided(told_side(arc, position))
}

pub fn contains(arc: &[u8], position: &[u8]) -> u32
    ensures { result ≡ Arcs.number_of (Arcs.contains_told arc.now position.now) }
{
    held(told_contains(arc, position))
}

pub fn intersection(mode: Mode, a: &[u8], b: &[u8], out: &mut [u8]) -> u32
    ensures { outcome result out.new ≡ Arcs.leave (Arcs.intersection_told mode a.now b.now) out.old }
{
    leave_met(out, told_intersection(mode, a, b))
}

pub fn relate(mode: Mode, a: &[u8], b: &[u8], out: &mut [u8]) -> u32
    ensures { outcome result out.new ≡ Arcs.leave (Arcs.relate_told mode a.now b.now) out.old }
{
    leave_related(out, told_relation(mode, a, b))
}
