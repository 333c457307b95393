// The run of a scene for C: a static library over `exports_scene`, one call, with the same clause.
#![tactic(auto)]

ghost use Rattle.std.specs.Prelude.{◌≡◌};
ghost use Rattle.bytes_loop.specs.Outcome.{outcome};
ghost use Rattle.bytes_scene.specs.Scene as Sc;

#[unsafe(no_mangle)]
pub extern "C" fn desk_scene(scene: &[u8], out: &mut [u8]) -> u64
    ensures { outcome result out.new ≡ Sc.scene_outcome scene.now out.old }
{
    exports_scene::desk_scene(scene, out)
}
