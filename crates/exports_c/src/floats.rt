// The two leaves for C: each is one call of the function of that name.
ghost use Rattle.std.specs.Prelude.{◌≡◌};
ghost use Rattle.std.specs.Float.{binary64};
ghost use Rattle.std.specs.Float.Ieee.{of_bits, to_bits};
ghost use Rattle.root.specs.Root.{RootedBits};
ghost use Rattle.angle.specs.Arctan.{atan2};

#[unsafe(no_mangle)]
pub extern "C" fn desk_root(b: u64) -> u64
    ensures { RootedBits b result }
{
    exports::floats::desk_root(b)
}

#[unsafe(no_mangle)]
pub extern "C" fn desk_atan2(y: u64, x: u64) -> u64
    ensures { result ≡ to_bits binary64 (atan2 (of_bits binary64 y) (of_bits binary64 x)) }
{
    exports::floats::desk_atan2(y, x)
}
