// The run of a scene over bytes, for the exports: its text goes to the front of a lent slice.
#![tactic(auto)]

ghost use Rattle.std.specs.Prelude.{◌≡◌, ◌≤◌, length};
ghost use Rattle.bytes_loop.specs.Outcome.{outcome};
ghost use Rattle.bytes_scene.specs.Scene as Sc;

// Refusal 5 where a size is answered: 2^32 plus its number.
const NO_ROOM: u64 = 4294967301;

// How many bytes of a text are written: none where it does not fit.
#[tactic(auto, unfolding(crate::specs::Scene::fitting))]
fn fitting(size: usize, room: usize) -> usize
    ensures value { result ≡ Sc.fitting size room }
    ensures upper_bound { (result ≤ size) × (result ≤ room) }
{
    if room < size { 0 } else { size }
}

// The size of a text as it is answered, or refusal 5 where it does not fit.
#[tactic(auto, unfolding(crate::specs::Scene::size_answer))]
fn size_answer(size: usize, room: usize) -> u64
    ensures { result ≡ Sc.size_answer size room }
{
    if room < size { NO_ROOM } else { size as u64 }
}

// Runs a scene, and answers how many bytes its text has. What is written and what is answered is chosen first, so that one call is lent `out`.
pub fn scene(s: &[u8], out: &mut [u8]) -> u64
    ensures { outcome result out.new ≡ Sc.scene_outcome s.now out.old }
{
    let mut text = scene_words::room();
    let size = scene_run::run(s, &mut text);
    let answer = size_answer(size, out.len());
    let n = fitting(size, out.len());
    wire::put_bytes(out, 0, &text[..n]);
    answer
}
