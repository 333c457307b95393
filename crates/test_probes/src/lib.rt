// Probes for runs beside the Rust: each leaf by its number, over raw floats, as C-style exports. The static library `test_probes_c`, which is not shipped, exports
// them.
#![tactic(auto)]

ghost use Rattle.std.specs.Prelude.{◌≡◌};
ghost use Rattle.bytes_loop.specs.Outcome.{outcome};
ghost use Rattle.test_probes.specs.Leaves as Leaves;

use base::Side;
use bytes_loop::refused;
use cap::Cap;
use chord_length::ChordLength;
use judge::Refusal;
use vec3::Vec3;

fn yes(b: bool) -> u32
    ensures { result ≡ Leaves.yes b }
{
    b as u32
}

// A side's number is not its index among the variants.
fn side_no(s: Side) -> u32
    ensures { result ≡ Leaves.side_no s }
{
    match s {
        Side::Collinear => 0,
        Side::Left => 1,
        Side::Right => 2,
    }
}

// A leaf goes by its number, here and in `number` and `case`, since runs beside the Rust ask by it.
#[tactic(auto, using(crate::proofs::Tables::past), unfolding(crate::specs::Leaves::vector_of))]
fn vector(op: u32, a: Vec3, b: Vec3, c: Vec3) -> Vec3
    ensures { result ≡ Leaves.vector_of op a b c }
{
    match op {
        0 => Vec3::new(a.x, a.y, a.z),
        1 => Vec3::new_unit(a.x, a.y, a.z),
        2 => a.unit(),
        3 => a.cross_prod(b),
        4 => a.cross_prod_unit(b),
        5 => a.stable_cross_prod_unit(b),
        6 => a.orthogonal(),
        7 => a.orthogonal_to(b),
        8 => a.add(b),
        9 => a.sub(b),
        10 => a.neg(),
        11 => a.scale(b.x),
        12 => a.triangle_mean(b, c).unwrap_or(Vec3::ZERO),
        13 => a.midpoint(b).unwrap_or(Vec3::ZERO),
        _ => Vec3::ZERO,
    }
}

#[tactic(auto, using(crate::proofs::Tables::past, root::proofs::Floats::quotient), unfolding(crate::specs::Leaves::number_of))]
fn number(op: u32, a: Vec3, b: Vec3, c: Vec3) -> f64
    ensures { result ≡ Leaves.number_of op a b c }
{
    match op {
        0 => a.dot_prod(b),
        1 => a.squared_norm(),
        2 => a.norm(),
        3 => ChordLength::new(a, b).0,
        4 => ChordLength(a.x).add(ChordLength(a.y)).0,
        5 => base::sine(a, b, c),
        6 => a.dot_prod(b),
        7 => base::turning_angle(a, b, c).0,
        _ => 0.0 / 0.0,
    }
}

fn cap_of(centre: Vec3, radius: f64) -> Cap
    ensures { result ≡ Leaves.cap_of centre radius }
{
    Cap {
        centre,
        radius: ChordLength(radius),
    }
}

#[tactic(auto, using(crate::proofs::Tables::past), unfolding(crate::specs::Leaves::case_of))]
fn case(op: u32, a: Vec3, b: Vec3, c: Vec3) -> u32
    ensures { result ≡ Leaves.case_of op a b c }
{
    match op {
        0 => yes(numbers::eq(a.x, a.y)),
        1 => yes(numbers::eq_zero(a.x)),
        2 => yes(numbers::lte(a.x, a.y)),
        3 => yes(numbers::gte(a.x, a.y)),
        4 => yes(a.equals(b)),
        5 => yes(a.is_antipode_of(b)),
        6 => side_no(base::side_of(a, b, c)),
        7 => yes(cap_of(a, b.x).contains_position(c)),
        8 => yes(cap_of(a, b.x).intersects(cap_of(c, b.y))),
        9 => yes(a.triangle_mean(b, c).is_some()),
        _ => 0,
    }
}

#[tactic(auto, unfolding(crate::specs::Leaves::leaf_vec))]
#[unsafe(no_mangle)]
pub extern "C" fn leaf_vec(op: u32, input: &[f64], out: &mut [f64]) -> u32
    ensures { outcome result out.new ≡ Leaves.leaf_vec op input.now out.old }
{
    if input.len() < 9 {
        return 1;
    }
    if 14 <= op {
        return 1;
    }
    if out.len() < 3 {
        return 5;
    }
    vec3::put(
        out,
        0,
        vector(
            op,
            vec3::raw(input, 0),
            vec3::raw(input, 1),
            vec3::raw(input, 2),
        ),
    );
    0
}

#[tactic(auto, unfolding(crate::specs::Leaves::leaf_number))]
#[unsafe(no_mangle)]
pub extern "C" fn leaf_number(op: u32, input: &[f64]) -> u64
    ensures { result ≡ Leaves.leaf_number op input.now }
{
    if input.len() < 9 {
        return 0;
    }
    if 8 <= op {
        return 0;
    }
    wire::to_bits(number(
        op,
        vec3::raw(input, 0),
        vec3::raw(input, 1),
        vec3::raw(input, 2),
    ))
}

#[tactic(auto, unfolding(crate::specs::Leaves::leaf_case))]
#[unsafe(no_mangle)]
pub extern "C" fn leaf_case(op: u32, input: &[f64]) -> u32
    ensures { result ≡ Leaves.leaf_case op input.now }
{
    if input.len() < 9 {
        return refused(Refusal::Shape);
    }
    if 10 <= op {
        return refused(Refusal::Shape);
    }
    case(
        op,
        vec3::raw(input, 0),
        vec3::raw(input, 1),
        vec3::raw(input, 2),
    )
}

// The bounding cap of a list in the order given: its centre and its radius.
#[tactic(auto, unfolding(crate::specs::Leaves::leaf_cap))]
#[unsafe(no_mangle)]
pub extern "C" fn leaf_cap(list: &[f64], out: &mut [f64]) -> u32
    ensures { outcome result out.new ≡ Leaves.leaf_cap list.now out.old }
{
    if list.len() % 3 != 0 {
        return refused(Refusal::Shape);
    }
    if out.len() < 4 {
        return refused(Refusal::NoRoom);
    }
    let c = cap::bounding_cap(list, list.len() / 3);
    vec3::put(out, 0, c.centre);
    out[3] = c.radius.0;
    0
}
