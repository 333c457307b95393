// Questions put to loops in bytes. The floats are copied into work arrays, the classes are read where they stand.
#![tactic(auto)]

ghost use Rattle.std.specs.Prelude.{◌≡◌, length};
ghost use Rattle.loop_ask.specs.Answers as An;
ghost use Rattle.bytes_ask.specs.Ask as As;
ghost use Rattle.bytes_loop.specs.Layout as F;

use judge::Refusal;
use loop_ask::Place;
use loop_header::Header;
use vec3::Vec3;

// Which question C asked: each case is one of its functions, and `told_at` is stated by it.
#[derive(Clone, Copy)]
pub enum Question {
    Place,
    Vertex,
    OnEdge,
    Convex,
    Simple,
}

// An answer's number, or what it is refused for, as a caller is told it.
pub fn tell(answer: Result<u32, Refusal>) -> u32
    ensures { result ≡ As.number_of (As.told_number answer) }
{
    answer.unwrap_or_else(bytes_loop::refused)
}

// A place's number, as C reads it, is its index among the variants.
fn place_number(p: Place) -> u32
    ensures { result ≡ An.place_code p }
{
    p as u32
}

// A place, or what it is refused for, as a caller is told it.
pub fn placed(p: Result<Place, Refusal>) -> u32
    ensures { result ≡ As.number_of (An.told_placed p) }
{
    tell(p.map(place_number))
}

// A yes is 1, and a no is 0.
pub fn yes_or_no(yes: bool) -> u32
    ensures { An.answer result ≡ An.bool_told yes }
{
    yes as u32
}

// A yes or a no, or what it is refused for, as a caller is told it.
pub fn answered(a: Result<bool, Refusal>) -> u32
    ensures { result ≡ As.number_of (An.told_answered a) }
{
    tell(a.map(yes_or_no))
}

// The refusal of a position whose length is wrong: the loop's own, or else 1.
fn no_query(h: Header, positions: &[f64], normals: &[f64], classes: &[u8]) -> Result<u32, Refusal>
    ensures { As.told_number result ≡ As.no_query h positions.now normals.now classes.now }
{
    loop_header::loop_fault(h, positions, normals, classes)?;
    Err(Refusal::Shape)
}

// The answer to a question about a position.
fn query(
    q: Question,
    h: Header,
    positions: &[f64],
    normals: &[f64],
    classes: &[u8],
    p: Vec3,
) -> Result<u32, Refusal>
    ensures { As.told_number result ≡ As.told_at q h positions.now normals.now classes.now p }
{
    match q {
        Question::Place => {
            loop_ask::contains_position(h, positions, normals, classes, p).map(place_number)
        }
        Question::Vertex => loop_ask::has_vertex(h, positions, normals, classes, p).map(yes_or_no),
        Question::OnEdge => {
            loop_ask::any_edge_contains_position(h, positions, normals, classes, p).map(yes_or_no)
        }
        Question::Convex => loop_ask::is_convex(h, positions, normals, classes).map(yes_or_no),
        Question::Simple => loop_ask::is_simple(h, positions, normals, classes).map(yes_or_no),
    }
}

fn needs_position(q: Question) -> bool
    ensures { result ≡ As.needs_position q }
{
    match q {
        Question::Place | Question::Vertex | Question::OnEdge => true,
        Question::Convex | Question::Simple => false,
    }
}

// The answer of a loop in its parts.
#[tactic(auto, using(crate::proofs::Asks::no_position, crate::proofs::Asks::wrong_position, crate::proofs::Asks::at_position))]
fn answer(
    q: Question,
    h: Header,
    positions: &[f64],
    normals: &[f64],
    classes: &[u8],
    position: &[u8],
) -> Result<u32, Refusal>
    ensures { As.told_number result ≡ As.told_by q h positions.now normals.now classes.now position.now }
{
    if !needs_position(q) {
        return query(q, h, positions, normals, classes, Vec3::ZERO);
    }
    if position.len() != wire::VECTOR {
        return no_query(h, positions, normals, classes);
    }
    query(q, h, positions, normals, classes, wire::vec_at(position, 0))
}

// `ask` with its work arrays.
fn ask_in(
    q: Question,
    s: &[u8],
    position: &[u8],
    positions: &mut [f64],
    normals: &mut [f64],
) -> Result<u32, Refusal>
    requires { F.Arrays s.now (length positions.old) (length normals.old) }
    ensures { As.told_number result ≡ As.told_by q (F.header_at s.now) (F.positions_at s.now) (F.normals_at s.now) (F.classes_at s.now) position.now }
{
    let from = bytes_loop::classes_from(s);
    bytes_loop::read_vectors(s, positions, normals);
    answer(
        q,
        bytes_loop::header_at(s),
        positions,
        normals,
        &s[from..],
        position,
    )
}

// `ask` before it is told.
#[tactic(auto, using(crate::proofs::Asks::early, crate::proofs::Asks::late, crate::proofs::Asks::copied_header, crate::proofs::Asks::copied_most))]
fn asked(q: Question, s: &[u8], position: &[u8]) -> Result<u32, Refusal>
    ensures { As.told_number result ≡ As.ask_told q s.now position.now }
{
    bytes_loop::copy_fault(s)?;
    let size = 3 * bytes_loop::count_at(s);
    // Work arrays of the largest loop's size with a length beside them: there is no heap.
    let mut positions = [0.0f64; 1536];
    let mut normals = [0.0f64; 1536];
    ask_in(q, s, position, &mut positions[..size], &mut normals[..size])
}

// The answer of a loop in bytes to a question, about a position in bytes where it is one.
pub fn ask(q: Question, s: &[u8], position: &[u8]) -> u32
    ensures { result ≡ As.number_of (As.ask_told q s.now position.now) }
{
    tell(asked(q, s, position))
}

#[tactic(auto, unfolding(crate::specs::Ask::told_by))]
pub fn is_convex(s: &[u8]) -> u32
    ensures { result ≡ As.number_of (As.convex_told s.now) }
{
    ask(Question::Convex, s, s)
}

#[tactic(auto, unfolding(crate::specs::Ask::told_by))]
pub fn is_simple(s: &[u8]) -> u32
    ensures { result ≡ As.number_of (As.simple_told s.now) }
{
    ask(Question::Simple, s, s)
}

// `place` before it is told.
#[tactic(auto, using(crate::proofs::Asks::headed))]
fn placed_by(
    header: &[u8],
    positions: &[f64],
    normals: &[f64],
    classes: &[u8],
    p: Vec3,
) -> Result<Place, Refusal>
    ensures { An.told_placed result ≡ As.place_told header.now positions.now normals.now classes.now p }
{
    bytes_loop::header_fault(header)?;
    loop_ask::contains_position(
        bytes_loop::header_at(header),
        positions,
        normals,
        classes,
        p,
    )
}

// The place of a position in a loop whose header alone is bytes.
pub fn place(header: &[u8], positions: &[f64], normals: &[f64], classes: &[u8], p: Vec3) -> u32
    ensures { result ≡ As.number_of (As.place_told header.now positions.now normals.now classes.now p) }
{
    placed(placed_by(header, positions, normals, classes, p))
}
