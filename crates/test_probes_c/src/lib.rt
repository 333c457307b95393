// The probes for C: a static library over `test_probes`, which runs link beside the exports and which is not shipped; each function one call of the one of that
// name, with the same clauses.
#![tactic(auto)]

ghost use Rattle.std.specs.Prelude.{◌≡◌};
ghost use Rattle.bytes_loop.specs.Outcome.{outcome};
ghost use Rattle.test_probes.specs.Leaves as Leaves;

#[unsafe(no_mangle)]
pub extern "C" fn leaf_vec(op: u32, input: &[f64], out: &mut [f64]) -> u32
    ensures { outcome result out.new ≡ Leaves.leaf_vec op input.now out.old }
{
    test_probes::leaf_vec(op, input, out)
}

#[unsafe(no_mangle)]
pub extern "C" fn leaf_number(op: u32, input: &[f64]) -> u64
    ensures { result ≡ Leaves.leaf_number op input.now }
{
    test_probes::leaf_number(op, input)
}

#[unsafe(no_mangle)]
pub extern "C" fn leaf_case(op: u32, input: &[f64]) -> u32
    ensures { result ≡ Leaves.leaf_case op input.now }
{
    test_probes::leaf_case(op, input)
}

#[unsafe(no_mangle)]
pub extern "C" fn leaf_cap(list: &[f64], out: &mut [f64]) -> u32
    ensures { outcome result out.new ≡ Leaves.leaf_cap list.now out.old }
{
    test_probes::leaf_cap(list, out)
}
