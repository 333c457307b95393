// The desk's six functions on arcs. They take whatever is handed in: each position and normal is made free of -0.0 and judged, an arc's start, end and
// normal in this order, the first arc before the second, both before the query. Then they answer.
#![tactic(auto)]

ghost use Rattle.std.specs.Prelude.{◌≡◌};
ghost use Rattle.judge.specs.Refusals.{number_of};
ghost use Rattle.arcs.specs.Answers as Answers;

use arc_relations::MinorArcRelation;
use base::Side;
use judge::Refusal;
use minor_arc::{MinorArc, Mode};
use vec3::Vec3;

// An arc as it is read: free of -0.0.
pub fn clear_arc(a: MinorArc) -> MinorArc
    ensures { result ≡ Answers.cleared_arc a }
{
    MinorArc {
        start: a.start.clear(),
        end: a.end.clear(),
        normal: a.normal.clear(),
    }
}

// The one judge of an arc.
#[tactic(auto, unfolding(crate::specs::Answers::arc_fault))]
pub fn arc_fault(a: MinorArc) -> Result<(), Refusal>
    ensures { number_of result ≡ Answers.arc_fault a }
{
    judge::fault(a.start)?;
    judge::fault(a.end)?;
    judge::vector_fault(a.normal)
}

// The first refusal of an arc and a query.
pub fn query_fault(a: MinorArc, p: Vec3) -> Result<(), Refusal>
    ensures { number_of result ≡ Answers.query_fault a p }
{
    arc_fault(a)?;
    judge::fault(p)
}

// The first refusal of two arcs.
fn pair_fault(a: MinorArc, b: MinorArc) -> Result<(), Refusal>
    ensures { number_of result ≡ Answers.pair_fault a b }
{
    arc_fault(a)?;
    arc_fault(b)
}

#[tactic(auto, unfolding(crate::specs::Answers::new_told))]
pub fn new(start: Vec3, end: Vec3) -> Result<MinorArc, Refusal>
    ensures { Answers.told_made result ≡ Answers.new_answer start end }
{
    let s = start.clear();
    let e = end.clear();
    judge::fault(s)?;
    judge::fault(e)?;
    Ok(MinorArc::new(s, e))
}

#[tactic(auto, unfolding(crate::specs::Answers::opposite_told))]
pub fn opposite(a: MinorArc) -> Result<MinorArc, Refusal>
    ensures { Answers.told_made result ≡ Answers.opposite_answer a }
{
    let arc = clear_arc(a);
    arc_fault(arc)?;
    Ok(arc.opposite())
}

#[tactic(auto, unfolding(crate::specs::Answers::side_of_told))]
pub fn side_of(a: MinorArc, p: Vec3) -> Result<Side, Refusal>
    ensures { Answers.told_sided result ≡ Answers.side_answer a p }
{
    let arc = clear_arc(a);
    let q = p.clear();
    query_fault(arc, q)?;
    Ok(arc.side_of(q))
}

#[tactic(auto, unfolding(crate::specs::Answers::contains_told))]
pub fn contains_position(a: MinorArc, p: Vec3) -> Result<bool, Refusal>
    ensures { Answers.told_contained result ≡ Answers.contains_answer a p }
{
    let arc = clear_arc(a);
    let q = p.clear();
    query_fault(arc, q)?;
    Ok(arc.contains_position(q))
}

#[tactic(auto, unfolding(crate::specs::Answers::intersection_told))]
pub fn intersection(mode: Mode, a: MinorArc, b: MinorArc) -> Result<Option<Vec3>, Refusal>
    ensures { Answers.told_met result ≡ Answers.intersection_answer mode a b }
{
    let one = clear_arc(a);
    let other = clear_arc(b);
    pair_fault(one, other)?;
    Ok(one.intersection(mode, other))
}

#[tactic(auto, unfolding(crate::specs::Answers::relate_told))]
pub fn relate(mode: Mode, a: MinorArc, b: MinorArc) -> Result<MinorArcRelation, Refusal>
    ensures { Answers.told_related result ≡ Answers.relate_answer mode a b }
{
    let one = clear_arc(a);
    let other = clear_arc(b);
    pair_fault(one, other)?;
    Ok(arc_relations::relate(mode, one, other))
}
