// What the scene program prints for an input, on standard output.
#![tactic(auto)]

ghost use Rattle.std.specs.Prelude.{◌≡◌, length};
ghost use Rattle.scene_run.specs.Run.{scene_text};

use std::io::Write;

// Prints the text of an input, and answers how long it is. No contract can say what reaches the system.
pub fn print(out: &mut impl Write, err: &mut impl Write, input: &[u8]) -> usize
    ensures { result ≡ length (scene_text input.now) }
{
    let mut text = scene_words::room();
    let n = scene_run::run(input, &mut text);
    output::print(
        out,
        err,
        &text[..n],
        b"scene: standard output could not be written\n",
    );
    n
}
