// The functions on arcs for C: each is one call of the function of that name.
ghost use Rattle.std.specs.Prelude.{◌≡◌};
ghost use Rattle.bytes_loop.specs.Outcome.{outcome};
ghost use Rattle.minor_arc.specs.declared.Mode.TheVariants.{Plain, Long};
ghost use Rattle.bytes_arcs.specs.Arcs as Arcs;

#[unsafe(no_mangle)]
pub extern "C" fn desk_arc(start: &[u8], end: &[u8], out: &mut [u8]) -> u32
    ensures { outcome result out.new ≡ Arcs.leave (Arcs.arc_told start.now end.now) out.old }
{
    exports::minor_arcs::desk_arc(start, end, out)
}

#[unsafe(no_mangle)]
pub extern "C" fn desk_arc_opposite(arc: &[u8], out: &mut [u8]) -> u32
    ensures { outcome result out.new ≡ Arcs.leave (Arcs.opposite_told arc.now) out.old }
{
    exports::minor_arcs::desk_arc_opposite(arc, out)
}

#[unsafe(no_mangle)]
pub extern "C" fn desk_arc_side(arc: &[u8], position: &[u8]) -> u32
    ensures { result ≡ Arcs.number_of (Arcs.side_told arc.now position.now) }
{
    exports::minor_arcs::desk_arc_side(arc, position)
}

#[unsafe(no_mangle)]
pub extern "C" fn desk_arc_contains(arc: &[u8], position: &[u8]) -> u32
    ensures { result ≡ Arcs.number_of (Arcs.contains_told arc.now position.now) }
{
    exports::minor_arcs::desk_arc_contains(arc, position)
}

#[unsafe(no_mangle)]
pub extern "C" fn desk_arc_intersection(a: &[u8], b: &[u8], out: &mut [u8]) -> u32
    ensures { outcome result out.new ≡ Arcs.leave (Arcs.intersection_told Plain a.now b.now) out.old }
{
    exports::minor_arcs::desk_arc_intersection(a, b, out)
}

#[unsafe(no_mangle)]
pub extern "C" fn desk_arc_relate(a: &[u8], b: &[u8], out: &mut [u8]) -> u32
    ensures { outcome result out.new ≡ Arcs.leave (Arcs.relate_told Plain a.now b.now) out.old }
{
    exports::minor_arcs::desk_arc_relate(a, b, out)
}

#[unsafe(no_mangle)]
pub extern "C" fn desk_arc_intersection_long(a: &[u8], b: &[u8], out: &mut [u8]) -> u32
    ensures { outcome result out.new ≡ Arcs.leave (Arcs.intersection_told Long a.now b.now) out.old }
{
    exports::minor_arcs::desk_arc_intersection_long(a, b, out)
}

#[unsafe(no_mangle)]
pub extern "C" fn desk_arc_relate_long(a: &[u8], b: &[u8], out: &mut [u8]) -> u32
    ensures { outcome result out.new ≡ Arcs.leave (Arcs.relate_told Long a.now b.now) out.old }
{
    exports::minor_arcs::desk_arc_relate_long(a, b, out)
}
