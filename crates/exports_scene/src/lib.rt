// The run of a scene as a C-style export over bytes: one call, in a crate of its own, for beside the exports on loops it would check in more than 2 GB. The static
// library `exports_scene_c` exports it. A refusal is 2^32 plus its number.
#![tactic(auto)]

ghost use Rattle.std.specs.Prelude.{◌≡◌};
ghost use Rattle.bytes_loop.specs.Outcome.{outcome};
ghost use Rattle.bytes_scene.specs.Scene as Sc;

#[unsafe(no_mangle)]
pub extern "C" fn desk_scene(scene: &[u8], out: &mut [u8]) -> u64
    ensures { outcome result out.new ≡ Sc.scene_outcome scene.now out.old }
{
    bytes_scene::scene(scene, out)
}
