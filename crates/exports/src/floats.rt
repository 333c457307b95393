// The two leaves whose definition is the port's own, over bit patterns: 7FF8000000000000 for every NaN.
ghost use Rattle.std.specs.Prelude.{◌≡◌};
ghost use Rattle.std.specs.Float.{binary64};
ghost use Rattle.std.specs.Float.Ieee.{of_bits, to_bits};
ghost use Rattle.root.specs.Root.{RootedBits};
ghost use Rattle.angle.specs.Arctan.{atan2};

#[unsafe(no_mangle)]
pub extern "C" fn desk_root(b: u64) -> u64
    ensures { RootedBits b result }
{
    root::root_bits(b)
}

#[unsafe(no_mangle)]
pub extern "C" fn desk_atan2(y: u64, x: u64) -> u64
    ensures { result ≡ to_bits binary64 (atan2 (of_bits binary64 y) (of_bits binary64 x)) }
{
    wire::to_bits(angle::atan2(wire::of_bits(y), wire::of_bits(x)))
}
