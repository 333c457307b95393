// Little-endian numbers, floats and vectors in lent bytes, and lists of them: read and written here, and nowhere else.
#![tactic(auto)]

ghost use Rattle.std.specs.Prelude.{◌≡◌, ◌+◌, ◌*◌, ◌≤◌, ◌<◌, length};
ghost use Rattle.std.proofs.lemmas.List.Edits.{sets};
ghost use Rattle.std.specs.Float.{binary64};
ghost use Rattle.std.specs.Float.Ieee.{of_bits, to_bits};
ghost use Rattle.wire.specs.Wire.{vec_size, u16_of, u32_of, u64_of, float_of, vec_of, floats_at, numbers_at, bytes2, bytes8, float_bytes, vec_bytes, floats_bytes, numbers_bytes};

use vec3::Vec3;

// How many bytes a vector has.
pub const VECTOR: usize = 24;

fn wide(b: u8) -> u64
    ensures { (result ≡ b) × (result < 256) }
{
    b as u64
}

pub fn u16_at(s: &[u8], at: usize) -> u64
    requires { at + 2 ≤ length s.now }
    ensures value { result ≡ u16_of s.now at }
    ensures upper_bound { result < 65536 }
{
    wide(s[at]) + 256 * wide(s[at + 1])
}

pub fn u32_at(s: &[u8], at: usize) -> u64
    requires { at + 4 ≤ length s.now }
    ensures value { result ≡ u32_of s.now at }
    ensures upper_bound { result < 4294967296 }
{
    u16_at(s, at) + 65536 * u16_at(s, at + 2)
}

#[tactic(auto, unfolding(crate::specs::Wire::u64_of))]
pub fn u64_at(s: &[u8], at: usize) -> u64
    requires { at + 8 ≤ length s.now }
    ensures { result ≡ u64_of s.now at }
{
    u32_at(s, at) + 4294967296 * u32_at(s, at + 4)
}

// The float of a pattern. A NaN's pattern is told first, since `from_bits` is for the others alone.
#[tactic(auto, using(crate::proofs::Bytes::nan_pattern, crate::proofs::Bytes::no_nan_pattern))]
pub fn of_bits(b: u64) -> f64
    ensures { result ≡ of_bits binary64 b }
{
    if 9218868437227405312 < b % 9223372036854775808 {
        0.0 / 0.0
    } else {
        f64::from_bits(b)
    }
}

// The pattern of a float: 7FF8000000000000 for a NaN, which has none of its own.
#[tactic(auto, using(root::proofs::Floats::not_nan, crate::proofs::Bytes::nan_bits_lem))]
pub fn to_bits(x: f64) -> u64
    ensures { result ≡ to_bits binary64 x }
{
    if x != x {
        9221120237041090560
    } else {
        f64::to_bits(x)
    }
}

pub fn float_at(s: &[u8], at: usize) -> f64
    requires { at + 8 ≤ length s.now }
    ensures { result ≡ float_of s.now at }
{
    of_bits(u64_at(s, at))
}

// The position or normal at an offset, free of -0.0.
pub fn vec_at(s: &[u8], at: usize) -> Vec3
    requires { at + vec_size ≤ length s.now }
    ensures { result ≡ vec_of s.now at }
{
    Vec3::new(float_at(s, at), float_at(s, at + 8), float_at(s, at + 16))
}

// Writes the two low bytes of n.
pub fn put_u16(out: &mut [u8], at: usize, n: u64)
    requires { at + 2 ≤ length out.old }
    ensures { out.new ≡ sets out.old at (bytes2 n) }
{
    out[at] = (n % 256) as u8;
    out[at + 1] = (n / 256 % 256) as u8;
}

#[tactic(auto, unfolding(crate::specs::Wire::bytes8))]
pub fn put_u64(out: &mut [u8], at: usize, n: u64)
    requires { at + 8 ≤ length out.old }
    ensures { out.new ≡ sets out.old at (bytes8 n) }
{
    put_u16(out, at, n);
    put_u16(out, at + 2, n / 65536);
    put_u16(out, at + 4, n / 4294967296);
    put_u16(out, at + 6, n / 281474976710656);
}

pub fn put_float(out: &mut [u8], at: usize, x: f64)
    requires { at + 8 ≤ length out.old }
    ensures { out.new ≡ sets out.old at (float_bytes x) }
{
    put_u64(out, at, to_bits(x));
}

#[tactic(auto, using(crate::proofs::Bytes::three, crate::proofs::Bytes::eight))]
pub fn put_vec(out: &mut [u8], at: usize, v: Vec3)
    requires { at + vec_size ≤ length out.old }
    ensures { out.new ≡ sets out.old at (vec_bytes v) }
{
    put_float(out, at, v.x);
    put_float(out, at + 8, v.y);
    put_float(out, at + 16, v.z);
}

// The floats from an offset on, as many as there is room for.
pub fn read_floats(s: &[u8], at: usize, out: &mut [f64])
    requires { at + 8 * length out.old ≤ length s.now }
    ensures { out.new ≡ floats_at s.now at (length out.old) }
{
    for (i, x) in out.iter_mut().enumerate() {
        *x = float_at(s, at + 8 * i);
    }
}

// The numbers of two bytes each, as many as there is room for.
pub fn read_numbers(s: &[u8], out: &mut [u16])
    requires { 2 * length out.old ≤ length s.now }
    ensures { out.new ≡ numbers_at s.now (length out.old) }
{
    for (i, n) in out.iter_mut().enumerate() {
        *n = u16_at(s, 2 * i) as u16;
    }
}

pub fn put_floats(out: &mut [u8], at: usize, from: &[f64])
    requires { at + 8 * length from.now ≤ length out.old }
    ensures { out.new ≡ sets out.old at (floats_bytes from.now) }
{
    for (i, x) in from.iter().enumerate() {
        put_float(out, at + 8 * i, *x);
    }
}

pub fn put_bytes(out: &mut [u8], at: usize, from: &[u8])
    requires { at + length from.now ≤ length out.old }
    ensures { out.new ≡ sets out.old at from.now }
{
    copies::copy_front(from, &mut out[at..]);
}

fn wide_number(n: u16) -> u64
    ensures { result ≡ n }
{
    n as u64
}

pub fn put_numbers(out: &mut [u8], from: &[u16])
    requires { 2 * length from.now ≤ length out.old }
    ensures { out.new ≡ sets out.old 0 (numbers_bytes from.now) }
{
    for (i, n) in from.iter().enumerate() {
        put_u16(out, 2 * i, wide_number(*n));
    }
}
