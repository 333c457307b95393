// How far, for C: a static library over `exports_far`, each function one call of the one of that name, with the same clauses.
#![tactic(auto)]

ghost use Rattle.std.specs.Prelude.{◌≡◌};
ghost use Rattle.std.specs.Float.{binary64};
ghost use Rattle.std.specs.Float.Ieee.{of_bits, to_bits};
ghost use Rattle.arcsine.specs.Arcsine.{radians};
ghost use Rattle.bytes_loop.specs.Outcome.{outcome};
ghost use Rattle.bytes_distances.specs.Distances as Far;

#[unsafe(no_mangle)]
pub extern "C" fn desk_radians(c: u64) -> u64
    ensures { result ≡ to_bits binary64 (radians (of_bits binary64 c)) }
{
    exports_far::desk_radians(c)
}

#[unsafe(no_mangle)]
pub extern "C" fn desk_far(of: &[u8], position: &[u8], out: &mut [u8]) -> u32
    ensures { outcome result out.new ≡ Far.far_outcome of.now position.now out.old }
{
    exports_far::desk_far(of, position, out)
}

#[unsafe(no_mangle)]
pub extern "C" fn desk_arc_far(arc: &[u8], position: &[u8], out: &mut [u8]) -> u32
    ensures { outcome result out.new ≡ Far.arc_far_outcome arc.now position.now out.old }
{
    exports_far::desk_arc_far(arc, position, out)
}

#[unsafe(no_mangle)]
pub extern "C" fn desk_far_f64(
    header: &[u8],
    positions: &[f64],
    normals: &[f64],
    classes: &[u8],
    x: f64,
    y: f64,
    z: f64,
    out: &mut [f64],
) -> u32
    ensures { outcome result out.new ≡ Far.far_floats_outcome
        header.now positions.now normals.now classes.now (record { x = x; y = y; z = z }) out.old }
{
    exports_far::desk_far_f64(header, positions, normals, classes, x, y, z, out)
}
