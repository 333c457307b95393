// Two loops in bytes beside each other. The floats of both are copied into work arrays, the classes are read where they stand.
#![tactic(auto)]

ghost use Rattle.std.specs.Prelude.{◌≡◌, length};
ghost use Rattle.judge.specs.Refusals.{number};
ghost use Rattle.bytes_ask.specs.Ask as As;
ghost use Rattle.bytes_loop.specs.Layout as F;
ghost use Rattle.loop_relate.specs.Relations as Rel;
ghost use Rattle.bytes_pair.specs.declared.Comparison.TheVariants as C;
ghost use Rattle.bytes_pair.specs.Pair as Pa;

use judge::Refusal;
use loop_header::Header;
use loop_relate::Relation;

// Which question C asked of two loops: each case is one of its functions, and `told_of` is stated by it.
#[derive(Clone, Copy)]
pub enum Comparison {
    Relation,
    Equivalence,
}

// A relation's number, as C reads it, is its index among the variants.
fn related(r: Relation) -> u32
    ensures { result ≡ Rel.relation_code r }
{
    r as u32
}

// The answer of two loops in their parts.
fn compare(
    q: Comparison,
    h: Header,
    positions: &[f64],
    normals: &[f64],
    classes: &[u8],
    o: Header,
    others: &[f64],
    theirs: &[f64],
    codes: &[u8],
) -> Result<u32, Refusal>
    ensures { As.told_number result ≡ Pa.told_of q h positions.now normals.now classes.now o others.now theirs.now codes.now }
{
    match q {
        Comparison::Relation => {
            loop_relate::relate(h, positions, normals, classes, o, others, theirs, codes).map(
                related,
            )
        }
        Comparison::Equivalence => {
            loop_ask::is_equivalent(h, positions, normals, classes, o, others, theirs, codes).map(
                bytes_ask::yes_or_no,
            )
        }
    }
}

// A refusal of the second loop's bytes: the first loop's own come before it.
fn no_pair(
    h: Header,
    positions: &[f64],
    normals: &[f64],
    classes: &[u8],
    fault: Refusal,
) -> Result<u32, Refusal>
    ensures { As.told_number result ≡ Pa.no_pair h positions.now normals.now classes.now (number fault) }
{
    loop_header::loop_fault(h, positions, normals, classes)?;
    Err(fault)
}

// The second loop copied into its work arrays.
fn copy_second(
    q: Comparison,
    h: Header,
    positions: &[f64],
    normals: &[f64],
    classes: &[u8],
    b: &[u8],
    others: &mut [f64],
    theirs: &mut [f64],
) -> Result<u32, Refusal>
    requires { F.Arrays b.now (length others.old) (length theirs.old) }
    ensures { As.told_number result ≡ Pa.told_of q h positions.now normals.now classes.now (F.header_at b.now) (F.positions_at b.now) (F.normals_at b.now) (F.classes_at b.now) }
{
    let from = bytes_loop::classes_from(b);
    bytes_loop::read_vectors(b, others, theirs);
    let o = bytes_loop::header_at(b);
    compare(
        q,
        h,
        positions,
        normals,
        classes,
        o,
        others,
        theirs,
        &b[from..],
    )
}

// A loop in its parts beside one in bytes.
#[tactic(auto, using(crate::proofs::Pairs::second_early, crate::proofs::Pairs::second_late, bytes_ask::proofs::Asks::copied_header, bytes_ask::proofs::Asks::copied_most))]
fn against(
    q: Comparison,
    h: Header,
    positions: &[f64],
    normals: &[f64],
    classes: &[u8],
    b: &[u8],
) -> Result<u32, Refusal>
    ensures { As.told_number result ≡ Pa.against_told q h positions.now normals.now classes.now b.now }
{
    if let Err(fault) = bytes_loop::copy_fault(b) {
        return no_pair(h, positions, normals, classes, fault);
    }
    let size = 3 * bytes_loop::count_at(b);
    // Work arrays of the largest loop's size with a length beside them, here and in `paired`: there is no heap.
    let mut others = [0.0f64; 1536];
    let mut theirs = [0.0f64; 1536];
    copy_second(
        q,
        h,
        positions,
        normals,
        classes,
        b,
        &mut others[..size],
        &mut theirs[..size],
    )
}

// The first loop copied into its work arrays.
fn copy_first(
    q: Comparison,
    a: &[u8],
    b: &[u8],
    positions: &mut [f64],
    normals: &mut [f64],
) -> Result<u32, Refusal>
    requires { F.Arrays a.now (length positions.old) (length normals.old) }
    ensures { As.told_number result ≡ Pa.against_told q (F.header_at a.now) (F.positions_at a.now) (F.normals_at a.now) (F.classes_at a.now) b.now }
{
    let from = bytes_loop::classes_from(a);
    bytes_loop::read_vectors(a, positions, normals);
    against(
        q,
        bytes_loop::header_at(a),
        positions,
        normals,
        &a[from..],
        b,
    )
}

// `pair` before it is told.
#[tactic(auto, using(crate::proofs::Pairs::first_early, crate::proofs::Pairs::first_late, bytes_ask::proofs::Asks::copied_header, bytes_ask::proofs::Asks::copied_most))]
fn paired(q: Comparison, a: &[u8], b: &[u8]) -> Result<u32, Refusal>
    ensures { As.told_number result ≡ Pa.pair_told q a.now b.now }
{
    bytes_loop::copy_fault(a)?;
    let size = 3 * bytes_loop::count_at(a);
    let mut positions = [0.0f64; 1536];
    let mut normals = [0.0f64; 1536];
    copy_first(q, a, b, &mut positions[..size], &mut normals[..size])
}

// What two loops in bytes are to each other.
pub fn pair(q: Comparison, a: &[u8], b: &[u8]) -> u32
    ensures { result ≡ As.number_of (Pa.pair_told q a.now b.now) }
{
    bytes_ask::tell(paired(q, a, b))
}

// A loop in its parts beside one whose header alone is bytes.
#[tactic(auto, using(crate::proofs::Pairs::other_wrong, crate::proofs::Pairs::other_fine, bytes_ask::proofs::Asks::headed))]
fn against_floats(
    h: Header,
    positions: &[f64],
    normals: &[f64],
    classes: &[u8],
    other: &[u8],
    others: &[f64],
    theirs: &[f64],
    codes: &[u8],
) -> Result<u32, Refusal>
    ensures { As.told_number result ≡ Pa.next_told C.Relation h positions.now normals.now classes.now (F.header_fault other.now) (F.header_at other.now) others.now theirs.now codes.now }
{
    if let Err(fault) = bytes_loop::header_fault(other) {
        return no_pair(h, positions, normals, classes, fault);
    }
    let o = bytes_loop::header_at(other);
    compare(
        Comparison::Relation,
        h,
        positions,
        normals,
        classes,
        o,
        others,
        theirs,
        codes,
    )
}

// `pair_floats` before it is told.
#[tactic(auto, using(bytes_ask::proofs::Asks::headed))]
fn paired_floats(
    header: &[u8],
    positions: &[f64],
    normals: &[f64],
    classes: &[u8],
    other: &[u8],
    others: &[f64],
    theirs: &[f64],
    codes: &[u8],
) -> Result<u32, Refusal>
    ensures { As.told_number result ≡ Pa.floats_told header.now positions.now normals.now classes.now other.now others.now theirs.now codes.now }
{
    bytes_loop::header_fault(header)?;
    let h = bytes_loop::header_at(header);
    against_floats(h, positions, normals, classes, other, others, theirs, codes)
}

// The relation of two loops whose headers alone are bytes.
pub fn pair_floats(
    header: &[u8],
    positions: &[f64],
    normals: &[f64],
    classes: &[u8],
    other: &[u8],
    others: &[f64],
    theirs: &[f64],
    codes: &[u8],
) -> u32
    ensures { result ≡ As.number_of (Pa.floats_told header.now positions.now normals.now classes.now other.now others.now theirs.now codes.now) }
{
    bytes_ask::tell(paired_floats(
        header, positions, normals, classes, other, others, theirs, codes,
    ))
}
