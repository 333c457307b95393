// How far, as C-style exports: each is one call. The static library `exports_far_c` exports them. A squared chord is 8 bytes, one float, or its bits; a refusal is
// 65,536 plus its number.
#![tactic(auto)]

ghost use Rattle.std.specs.Prelude.{◌≡◌};
ghost use Rattle.std.specs.Float.{binary64};
ghost use Rattle.std.specs.Float.Ieee.{of_bits, to_bits};
ghost use Rattle.arcsine.specs.Arcsine.{radians};
ghost use Rattle.bytes_loop.specs.Outcome.{outcome};
ghost use Rattle.bytes_distances.specs.Distances as Far;

use vec3::Vec3;

#[unsafe(no_mangle)]
pub extern "C" fn desk_radians(c: u64) -> u64
    ensures { result ≡ to_bits binary64 (radians (of_bits binary64 c)) }
{
    wire::to_bits(arcsine::radians(wire::of_bits(c)))
}

#[unsafe(no_mangle)]
pub extern "C" fn desk_far(of: &[u8], position: &[u8], out: &mut [u8]) -> u32
    ensures { outcome result out.new ≡ Far.far_outcome of.now position.now out.old }
{
    bytes_distances::far(of, position, out)
}

#[unsafe(no_mangle)]
pub extern "C" fn desk_arc_far(arc: &[u8], position: &[u8], out: &mut [u8]) -> u32
    ensures { outcome result out.new ≡ Far.arc_far_outcome arc.now position.now out.old }
{
    bytes_distances::arc_far(arc, position, out)
}

#[unsafe(no_mangle)]
pub extern "C" fn desk_far_f64(
    header: &[u8],
    positions: &[f64],
    normals: &[f64],
    classes: &[u8],
    x: f64,
    y: f64,
    z: f64,
    out: &mut [f64],
) -> u32
    ensures { outcome result out.new ≡ Far.far_floats_outcome
        header.now positions.now normals.now classes.now (record { x = x; y = y; z = z }) out.old }
{
    bytes_distances::far_floats(header, positions, normals, classes, Vec3 { x, y, z }, out)
}
