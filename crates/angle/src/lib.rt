// Angles in radians, and the arctangent that is the port's own: Euler's series, fixed by its definition over float operations.
// Total on every float; what comes out at infinities and NaN is what the definition says.
#![tactic(auto)]

ghost use Rattle.std.specs.Prelude.{◌≡◌};
ghost use Rattle.angle.specs.Arctan as Atn;
ghost use Rattle.angle.specs.Angles as Angles;

// An angle in radians. A squared chord is another type, so that neither stands where the other belongs.
#[derive(Clone, Copy)]
pub struct Angle(pub f64);

// A quarter, a half and the whole of pi, each the nearest float.
pub const FRAC_PI_4: f64 = 0.7853981633974483;

pub const FRAC_PI_2: f64 = 1.5707963267948966;

pub const PI: f64 = 3.141592653589793;

// Whether the sign of x is minus, of a zero too.
pub fn minus(x: f64) -> bool
    ensures { result ≡ Atn.minus x }
{
    (x < 0.0) | (1.0 / x < 0.0)
}

// x without its sign, of a zero too.
#[tactic(auto, unfolding(crate::specs::Arctan::size))]
pub fn size(x: f64) -> f64
    ensures { result ≡ Atn.size x }
{
    if minus(x) { -x } else { x }
}

// The sum of Euler's series at y, 49 terms, from the last to the first, two at a time.
#[tactic(auto, unfolding(crate::specs::Arctan::sum_of))]
pub fn sum(y: f64) -> f64
    ensures { result ≡ Atn.sum_of y }
{
    let w = y * y;
    let g48 = 0.1269272221717995;
    let g46 = (0.1296137358503028 + y * 0.12824938073608907) + w * g48;
    let g44 = (0.1324783872585885 + y * 0.1310225808051974) + w * g46;
    let g42 = (0.13554177491322023 + y * 0.13398382347743606) + w * g44;
    let g40 = (0.13882799390429276 + y * 0.13715536747171092) + w * g42;
    let g38 = (0.1423654379797387 + y * 0.14056334382809643) + w * g40;
    let g36 = (0.1461878386082843 + y * 0.14423866742684052) + w * g38;
    let g34 = (0.15033562847355905 + y * 0.1482182252556216) + w * g36;
    let g32 = (0.1548577563353974 + y * 0.15254644653934668) + w * g34;
    let g30 = (0.15981414117778536 + y * 0.15727740877813798) + w * g32;
    let g28 = (0.16527905002840504 + y * 0.1624777101974151) + w * g30;
    let g26 = (0.17134584055524132 + y * 0.16823046163605512) + w * g28;
    let g24 = (0.17813377193108357 + y * 0.17464095287361134) + w * g26;
    let g22 = (0.18579804200964017 + y * 0.1818448921796478) + w * g24;
    let g20 = (0.1945450277536005 + y * 0.19002072478258653) + w * g22;
    let g18 = (0.2046562495907942 + y * 0.1994086534474405) + w * g20;
    let g16 = (0.2165276496896066 + y * 0.21034114541276072) + w * g18;
    let g14 = (0.23073727670048705 + y * 0.2232941387424068) + w * g16;
    let g12 = (0.2481693511764854 + y * 0.23897789372550443) + w * g14;
    let g10 = (0.27026018357287707 + y * 0.25850974080883893) + w * g12;
    let g8 = (0.29953837012660545 + y * 0.2837731927515209) + w * g10;
    let g6 = (0.340992340992341 + y * 0.31825951825951826) + w * g8;
    let g4 = (0.40634920634920635 + y * 0.3694083694083694) + w * g6;
    let g2 = (0.5333333333333333 + y * 0.45714285714285713) + w * g4;
    let g0 = (1.0 + y * 0.6666666666666666) + w * g2;
    g0
}

// The arctangent of a t from 0 to 1.
#[tactic(auto, unfolding(crate::specs::Arctan::acute))]
pub fn acute(t: f64) -> f64
    ensures { result ≡ Atn.acute t }
{
    let s = t * t;
    let z = 1.0 + s;
    (t / z) * sum(s / z)
}

// The angle of (b, a) in the first quadrant.
#[tactic(auto, unfolding(crate::specs::Arctan::quadrant))]
pub fn quadrant(a: f64, b: f64) -> f64
    ensures { result ≡ Atn.quadrant a b }
{
    if a < b {
        acute(a / b)
    } else if b < a {
        FRAC_PI_2 - acute(b / a)
    } else if a == 0.0 {
        0.0
    } else if a == b {
        FRAC_PI_4
    } else {
        a + b
    }
}

// r, or pi less r for an angle that points back.
pub fn turned(back: bool, r: f64) -> f64
    ensures { result ≡ Atn.turned back r }
{
    if back { PI - r } else { r }
}

// r with a sign.
pub fn signed(down: bool, r: f64) -> f64
    ensures { result ≡ Atn.signed down r }
{
    if down { -r } else { r }
}

// The angle of (x, y) from the positive x axis, from -PI to PI. For finite arguments that are not both zero it is within 2^-45 of the exact angle: that is
// `near_angle`, and from this contract `atan2_near` (crate exact_angles).
#[tactic(auto, unfolding(crate::specs::Arctan::atan2))]
pub fn atan2(y: f64, x: f64) -> f64
    ensures { result ≡ Atn.atan2 y x }
{
    signed(minus(y), turned(minus(x), quadrant(size(y), size(x))))
}

impl Angle {
    pub const ZERO: Angle = Angle(0.0);

    // The angle whose sine and cosine are in the proportion y to x, as near to the exact one as that of `atan2` (`between_near`).
    pub fn between(y: f64, x: f64) -> Angle
        ensures { result ≡ Angles.between y x }
    {
        Angle(atan2(y, x))
    }

    pub fn add(self, o: Angle) -> Angle
        ensures { result ≡ Angles.plus self o }
    {
        Angle(self.0 + o.0)
    }

    // Whether a turn sum says that a list is walked clockwise: below 0, and neither 0 nor NaN.
    pub fn is_clockwise(self) -> bool
        ensures { result ≡ Angles.clockwise self }
    {
        self.0 < 0.0
    }

    // Whether a turn sum is below 2^-30 in size.
    pub fn is_weak(self) -> bool
        ensures { result ≡ Angles.weak self }
    {
        numbers::abs(self.0) < 0.000000000931322574615478515625
    }
}
