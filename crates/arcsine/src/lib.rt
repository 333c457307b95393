// The arcsine, our own, out of the arctangent and the root, and the radians of a squared chord. Total on every float.
#![tactic(auto)]

ghost use Rattle.std.specs.Prelude.{◌≡◌};
ghost use Rattle.arcsine.specs.Arcsine as Asn;

// The angle whose sine is u, from -PI/2 to PI/2. The product is taken of 1 - u and 1 + u, for 1 - u * u loses the last bits of a u near 1.
#[tactic(auto, unfolding(crate::specs::Arcsine::arcsine))]
pub fn arcsine(u: f64) -> f64
    ensures { result ≡ Asn.arcsine u }
{
    angle::atan2(u, root::root((1.0 - u) * (1.0 + u)))
}

// The central angle of a squared chord, in radians; -1 for a negative one. The root comes first, as in the source: near 4 a last bit of it is 2^-27 of angle.
pub fn radians(c: f64) -> f64
    ensures { result ≡ Asn.radians c }
{
    if c < 0.0 {
        return -1.0;
    }
    2.0 * arcsine(root::root(c) * 0.5)
}
