// The shape of a ring, by its border: convex, simple. And whether it is the same as another, over lent lists of n corners: positions in threes, and classes.
// Total on every float; `requires` for indexes and lengths alone.
#![tactic(auto)]

ghost use Rattle.std.specs.Prelude.{◌≡◌, ◌+◌, ◌*◌, ◌%◌, ◌≤◌, ◌<◌, length};
ghost use Rattle.ring_shape.specs.Shapes as S;

use base::Side;
use minor_arc::Mode;
use ring_edges::Border;

// The side at corner i, by the corners before and after it.
#[tactic(auto, unfolding(crate::specs::Shapes::side_at))]
fn side(border: &Border, i: usize) -> Side
    requires { i < border.now.n }
    ensures { result ≡ S.side_at border.now.positions.now border.now.n i }
{
    let before = border.corner(ring_index::previous(i, border.n));
    base::side_of(before, border.corner(i), border.corner_after(i))
}

// Whether a side is left, or whether it is right.
fn is_to(left: bool, s: Side) -> bool
    ensures { result ≡ S.is_to left s }
{
    match s {
        Side::Left => left,
        Side::Right => !left,
        Side::Collinear => false,
    }
}

// Whether some corner's side is left, or whether some corner's is right.
fn any_side(left: bool, border: &Border) -> bool
    ensures { result ≡ S.any_side left border.now.positions.now border.now.n }
{
    (0..border.n).any(|i| is_to(left, side(border, i)))
}

// Whether the ring turns one way only; one of three corners does.
#[tactic(auto, unfolding(crate::specs::Shapes::convex))]
pub fn is_convex(border: &Border) -> bool
    ensures { result ≡ S.convex border.now.positions.now border.now.n }
{
    border.n <= 3 || !(any_side(true, border) && any_side(false, border))
}

// Whether corner i and the next lie on more than one great circle: they are equal or antipodes.
#[tactic(auto, unfolding(crate::specs::Shapes::no_circle))]
fn no_circle(border: &Border, i: usize) -> bool
    requires { i < border.now.n }
    ensures { result ≡ S.no_circle border.now.positions.now border.now.n i }
{
    let a = border.corner(i);
    let b = border.corner_after(i);
    a.equals(b) | a.is_antipode_of(b)
}

fn any_without_circle(border: &Border) -> bool
    ensures { result ≡ S.any_without_circle border.now.positions.now border.now.n }
{
    (0..border.n).any(|i| no_circle(border, i))
}

// Whether edges i and j meet in a point; collinear ones do not.
#[tactic(auto, unfolding(crate::specs::Shapes::edges_meet))]
fn edges_meet(mode: Mode, border: &Border, i: usize, j: usize) -> bool
    requires { (i < border.now.n) × (j < border.now.n) }
    ensures { result ≡ S.edges_meet mode border.now.positions.now border.now.normals.now border.now.n i j }
{
    border.edge(i).intersection(mode, border.edge(j)).is_some()
}

// Where the edges end that are not contiguous with edge i: the last edge is contiguous with the first.
#[tactic(auto, unfolding(crate::specs::Shapes::end_of))]
fn end_of(n: usize, i: usize) -> usize
    requires { (3 < n) × (i + 1 < n) }
    ensures { (result ≡ S.end_of n i) × (i + 2 ≤ result) × (result ≤ n) }
{
    if i == 0 { n - 1 } else { n }
}

// Whether edge i meets one of those that come later and are not contiguous with it.
fn meets_later(mode: Mode, border: &Border, i: usize) -> bool
    requires { (3 < border.now.n) × (i + 1 < border.now.n) }
    ensures { result ≡ S.meets_later mode border.now.positions.now border.now.normals.now border.now.n i }
{
    (i + 2..end_of(border.n, i)).any(|j| edges_meet(mode, border, i, j))
}

fn any_meets_later(mode: Mode, border: &Border) -> bool
    requires { 3 < border.now.n }
    ensures { result ≡ S.any_meets_later mode border.now.positions.now border.now.normals.now border.now.n }
{
    (0..border.n - 1).any(|i| meets_later(mode, border, i))
}

// Whether each two neighbours have one great circle, and no two edges that are not contiguous meet.
#[tactic(auto, unfolding(crate::specs::Shapes::simple))]
pub fn is_simple(mode: Mode, border: &Border) -> bool
    ensures { result ≡ S.simple mode border.now.positions.now border.now.normals.now border.now.n }
{
    if any_without_circle(border) {
        return false;
    }
    border.n <= 3 || !any_meets_later(mode, border)
}

// Whether corner i of one ring and corner j of the other have one position and one class.
#[tactic(auto, unfolding(crate::specs::Shapes::agree))]
fn agree(
    positions: &[f64],
    classes: &[u8],
    others: &[f64],
    theirs: &[u8],
    i: usize,
    j: usize,
) -> bool
    requires { (3 * i + 2 < length positions.now) × (i < length classes.now) × (3 * j + 2 < length others.now) × (j < length theirs.now) }
    ensures { result ≡ S.agree positions.now classes.now others.now theirs.now i j }
{
    vec3::at(positions, i).equals(vec3::at(others, j)) & (classes[i] == theirs[j])
}

// The index k, counted round.
fn wrap(k: usize, n: usize) -> usize
    requires { 0 < n }
    ensures { (result ≡ k % n) × (result < n) }
{
    k % n
}

// The other ring's corner beside corner i, forward from the offset or backward.
#[tactic(auto, unfolding(crate::specs::Shapes::beside))]
fn beside(back: bool, n: usize, offset: usize, i: usize) -> usize
    requires { (i < n) × (offset < n) × (n ≤ 512) }
    ensures { (result ≡ S.beside back n offset i) × (result < n) }
{
    if back {
        wrap(n + offset - i, n)
    } else {
        wrap(i + offset, n)
    }
}

// Whether all corners agree from the offset on.
fn all_agree(
    back: bool,
    positions: &[f64],
    classes: &[u8],
    others: &[f64],
    theirs: &[u8],
    n: usize,
    offset: usize,
) -> bool
    requires { (offset < n) × (n ≤ 512) × (3 * n ≤ length positions.now) × (n ≤ length classes.now) × (3 * n ≤ length others.now) × (n ≤ length theirs.now) }
    ensures { result ≡ S.all_agree back positions.now classes.now others.now theirs.now n offset }
{
    (0..n).all(|i| {
        agree(
            positions,
            classes,
            others,
            theirs,
            i,
            beside(back, n, offset, i),
        )
    })
}

fn same_from(
    positions: &[f64],
    classes: &[u8],
    others: &[f64],
    theirs: &[u8],
    n: usize,
    offset: usize,
) -> bool
    requires { (offset < n) × (n ≤ 512) × (3 * n ≤ length positions.now) × (n ≤ length classes.now) × (3 * n ≤ length others.now) × (n ≤ length theirs.now) }
    ensures { result ≡ S.same_from positions.now classes.now others.now theirs.now n offset }
{
    all_agree(false, positions, classes, others, theirs, n, offset)
        || all_agree(true, positions, classes, others, theirs, n, offset)
}

// Whether two rings of n corners are one ring, from another corner on or walked the other way.
pub fn same_rings(
    positions: &[f64],
    classes: &[u8],
    others: &[f64],
    theirs: &[u8],
    n: usize,
) -> bool
    requires { (n ≤ 512) × (3 * n ≤ length positions.now) × (n ≤ length classes.now) × (3 * n ≤ length others.now) × (n ≤ length theirs.now) }
    ensures { result ≡ S.same_rings positions.now classes.now others.now theirs.now n }
{
    (0..n).any(|offset| same_from(positions, classes, others, theirs, n, offset))
}
