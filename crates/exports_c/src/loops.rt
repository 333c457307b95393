// The functions on loops for C: each is one call of the function of that name.
ghost use Rattle.std.specs.Prelude.{◌≡◌};
ghost use Rattle.bytes_pair.specs.declared.Comparison.TheVariants as C;
ghost use Rattle.bytes_pair.specs.Pair as Pa;
ghost use Rattle.minor_arc.specs.declared.Mode.TheVariants.{Plain, Long};
ghost use Rattle.bytes_loop.specs.Outcome.{outcome};
ghost use Rattle.bytes_build.specs.Build as Bu;
ghost use Rattle.bytes_ask.specs.declared.Question.TheVariants as Q;
ghost use Rattle.bytes_ask.specs.Ask as As;
ghost use Rattle.bytes_cut.specs.Cut as Cu;
ghost use Rattle.bytes_check.specs.Checking as Ch;

#[unsafe(no_mangle)]
pub extern "C" fn desk_build(list: &[u8], out: &mut [u8]) -> u32
    ensures { outcome result out.new ≡ Bu.build_outcome Plain list.now out.old }
{
    exports::loops::desk_build(list, out)
}

#[unsafe(no_mangle)]
pub extern "C" fn desk_build_long(list: &[u8], out: &mut [u8]) -> u32
    ensures { outcome result out.new ≡ Bu.build_outcome Long list.now out.old }
{
    exports::loops::desk_build_long(list, out)
}

#[unsafe(no_mangle)]
pub extern "C" fn desk_place(of: &[u8], position: &[u8]) -> u32
    ensures { result ≡ As.number_of (As.ask_told Q.Place of.now position.now) }
{
    exports::loops::desk_place(of, position)
}

#[unsafe(no_mangle)]
pub extern "C" fn desk_vertex(of: &[u8], position: &[u8]) -> u32
    ensures { result ≡ As.number_of (As.ask_told Q.Vertex of.now position.now) }
{
    exports::loops::desk_vertex(of, position)
}

#[unsafe(no_mangle)]
pub extern "C" fn desk_on_edge(of: &[u8], position: &[u8]) -> u32
    ensures { result ≡ As.number_of (As.ask_told Q.OnEdge of.now position.now) }
{
    exports::loops::desk_on_edge(of, position)
}

#[unsafe(no_mangle)]
pub extern "C" fn desk_convex(of: &[u8]) -> u32
    ensures { result ≡ As.number_of (As.convex_told of.now) }
{
    exports::loops::desk_convex(of)
}

#[unsafe(no_mangle)]
pub extern "C" fn desk_simple(of: &[u8]) -> u32
    ensures { result ≡ As.number_of (As.simple_told of.now) }
{
    exports::loops::desk_simple(of)
}

#[unsafe(no_mangle)]
pub extern "C" fn desk_place_f64(
    header: &[u8],
    positions: &[f64],
    normals: &[f64],
    classes: &[u8],
    x: f64,
    y: f64,
    z: f64,
) -> u32
    ensures { result ≡ As.number_of (As.place_told header.now positions.now normals.now classes.now (record { x = x; y = y; z = z })) }
{
    exports::loops::desk_place_f64(header, positions, normals, classes, x, y, z)
}

#[unsafe(no_mangle)]
pub extern "C" fn desk_triangles(of: &[u8], out: &mut [u8]) -> u32
    ensures { outcome result out.new ≡ Cu.triangles_outcome of.now out.old }
{
    exports::loops::desk_triangles(of, out)
}

#[unsafe(no_mangle)]
pub extern "C" fn desk_triangles_f64(
    header: &[u8],
    positions: &[f64],
    classes: &[u8],
    out: &mut [u16],
) -> u32
    ensures { outcome result out.new ≡ Cu.floats_outcome header.now positions.now classes.now out.old }
{
    exports::loops::desk_triangles_f64(header, positions, classes, out)
}

#[unsafe(no_mangle)]
pub extern "C" fn desk_full_positions(out: &mut [f64]) -> u32
    ensures { outcome result out.new ≡ Cu.full_positions_outcome out.old }
{
    exports::loops::desk_full_positions(out)
}

#[unsafe(no_mangle)]
pub extern "C" fn desk_accepts(of: &[u8], triangles: &[u8]) -> u32
    ensures { result ≡ As.number_of (Ch.accepts_told of.now triangles.now) }
{
    exports::loops::desk_accepts(of, triangles)
}

#[unsafe(no_mangle)]
pub extern "C" fn desk_pair(a: &[u8], b: &[u8]) -> u32
    ensures { result ≡ As.number_of (Pa.pair_told C.Relation a.now b.now) }
{
    exports::loops::desk_pair(a, b)
}

#[unsafe(no_mangle)]
pub extern "C" fn desk_equivalent(a: &[u8], b: &[u8]) -> u32
    ensures { result ≡ As.number_of (Pa.pair_told C.Equivalence a.now b.now) }
{
    exports::loops::desk_equivalent(a, b)
}

#[unsafe(no_mangle)]
pub extern "C" fn desk_pair_f64(
    header: &[u8],
    positions: &[f64],
    normals: &[f64],
    classes: &[u8],
    other: &[u8],
    others: &[f64],
    theirs: &[f64],
    codes: &[u8],
) -> u32
    ensures { result ≡ As.number_of (Pa.floats_told
        header.now positions.now normals.now classes.now
        other.now others.now theirs.now codes.now) }
{
    exports::loops::desk_pair_f64(
        header, positions, normals, classes, other, others, theirs, codes,
    )
}

#[unsafe(no_mangle)]
pub extern "C" fn desk_build_f64(
    list: &[f64],
    header: &mut [u8],
    positions: &mut [f64],
    normals: &mut [f64],
    classes: &mut [u8],
) -> u32
    ensures { record { number = result; header = header.new; positions = positions.new; normals = normals.new; classes = classes.new }
        ≡ Bu.floats_outcome Plain list.now header.old positions.old normals.old classes.old }
{
    exports::loops::desk_build_f64(list, header, positions, normals, classes)
}

#[unsafe(no_mangle)]
pub extern "C" fn desk_build_long_f64(
    list: &[f64],
    header: &mut [u8],
    positions: &mut [f64],
    normals: &mut [f64],
    classes: &mut [u8],
) -> u32
    ensures { record { number = result; header = header.new; positions = positions.new; normals = normals.new; classes = classes.new }
        ≡ Bu.floats_outcome Long list.now header.old positions.old normals.old classes.old }
{
    exports::loops::desk_build_long_f64(list, header, positions, normals, classes)
}
