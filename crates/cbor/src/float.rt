// Floating-point numbers (R10.8), worked out in whole numbers: a processor's floats have no part in
// it. A magnitude is the bits of one but for its sign.
ghost use Rattle.std.specs.Prelude.{◌≡◌, ◌+◌, ◌-◌, ◌*◌, ◌/◌, ◌^◌, ◌<◌, ◌≤◌};
ghost use Rattle.cbor.specs.Float.{fraction_bits, sign_of, infinity_of, scale_of, finite, packed, widened, narrowed, holds, shortest, magnitude, widened_bits, narrowed_bits};
ghost use Rattle.cbor.specs.Form.{first_of, bytes_of};
ghost use Rattle.cbor.specs.Item.{is_float, width_by};

use super::Width;

// ---- the widths

// stays (2): two tables, of a byte and of a length, with an arm for each width.
#[tactic(auto, unfolding(crate::specs::Form::first_of))]
pub(super) fn first(w: Width) -> u8
    ensures { result ≡ first_of w }
{
    match w {
        Width::Half => 0xF9,
        Width::Single => 0xFA,
        Width::Double => 0xFB,
    }
}

pub(super) fn bytes(w: Width) -> usize
    ensures { (result ≡ bytes_of w) × (result ≤ 8) }
{
    match w {
        Width::Half => 2,
        Width::Single => 4,
        Width::Double => 8,
    }
}

// What the code needs of a width: what its sign bit counts, its infinity, the step from exponent to
// exponent, the bits of its fraction, and by which power of two its least number is above a
// double's.
#[derive(Drop)]
struct Shape {
    sign: u64,
    infinity: u64,
    step: u64,
    fraction: u64,
    scale: u64,
}

fn shape_of(w: Width) -> Shape
    ensures { (result.sign ≡ sign_of w) × (result.infinity ≡ infinity_of w) × (result.step ≡ 2 ^ fraction_bits w) × (result.fraction ≡ fraction_bits w) × (result.scale ≡ scale_of w) }
{
    match w {
        Width::Half => Shape {
            sign: 0x8000,
            infinity: 0x7C00,
            step: 0x400,
            fraction: 10,
            scale: 1050,
        },
        Width::Single => Shape {
            sign: 0x80000000,
            infinity: 0x7F800000,
            step: 0x800000,
            fraction: 23,
            scale: 925,
        },
        Width::Double => Shape {
            sign: 0x8000000000000000,
            infinity: 0x7FF0000000000000,
            step: 0x10000000000000,
            fraction: 52,
            scale: 0,
        },
    }
}

// Whether a float begins with this byte: F9, FA or FB.
#[tactic(auto, using(crate::proofs::Begins::begins_within, crate::proofs::Begins::begins_below, crate::proofs::Begins::begins_above))]
pub fn begins(x: u64) -> bool
    ensures { result ≡ is_float x }
{
    matches!(x, 0xF9..=0xFB)
}

// The width that the first byte names.
pub(super) fn width(x: u64) -> Width
    ensures { result ≡ width_by x }
{
    match x {
        0xF9 => Width::Half,
        0xFA => Width::Single,
        _ => Width::Double,
    }
}

// ---- from width to width

// The magnitude of the double that is worth s times 2^x.
fn pack(s: u64, x: u64) -> u64
    requires { (s < 2 ^ 53) × (x ≤ 2046) }
    ensures { result ≡ packed (2 ^ 11) (fraction_bits Width.Double) (s * 2 ^ x) }
{
    if s == 0 {
        return 0;
    }
    // by how many places the first one of s is below the one before a fraction of 52 bits
    let low = u64::leading_zeros(s) as u64 - 11;
    if x < low {
        return s << x;
    }
    (x - low) * 0x10000000000000 + (s << low)
}

// The double of the same number. Each exponent above 1 shifts by a place, x in all; what is left of
// m is the fraction, with the one before it where there is one.
fn widen(w: Width, m: u64) -> u64
    requires { m < sign_of w }
    ensures { result ≡ widened w m }
{
    let a = shape_of(w);
    let x = u64::saturating_sub(m / a.step, 1);
    pack(m - x * a.step, x + a.scale)
}

// The way back. Of a double's shift x the width has z left as exponents, beyond its own fraction
// and its own least number; by what it lacks, s is shifted back, and bits that fall off are lost.
fn narrow(w: Width, m: u64) -> u64
    requires { m < 2 ^ 63 }
    ensures { result ≡ narrowed w m }
{
    let x = u64::saturating_sub(m / 0x10000000000000, 1);
    let s = m - x * 0x10000000000000;
    let a = shape_of(w);
    let z = u64::saturating_sub(x + 52, a.scale + a.fraction);
    let drop = a.scale + z - x;
    if 63 < drop {
        return 0;
    }
    z * a.step + (s >> drop)
}

// Whether the width has the number of a double: what it narrows to is finite and widens to it.
fn has(w: Width, m: u64) -> bool
    requires { m < 2 ^ 63 }
    ensures { result ≡ holds w m }
{
    let n = narrow(w, m);
    let a = shape_of(w);
    if a.infinity <= n {
        return false;
    }
    widen(w, n) == m
}

// The shortest width that has the number of a double, which is given by its 64 bits.
pub(super) fn least(value: u64) -> Width
    ensures { result ≡ shortest (magnitude Width.Double value) }
{
    let m = value % 0x8000000000000000;
    if has(Width::Half, m) {
        return Width::Half;
    }
    if has(Width::Single, m) {
        return Width::Single;
    }
    Width::Double
}

// ---- bits with their sign

pub(super) fn is_finite(w: Width, bits: u64) -> bool
    ensures { result ≡ finite w bits }
{
    let a = shape_of(w);
    bits % a.sign < a.infinity
}

// Whether the double with these 64 bits is finite: its exponent is not all ones.
pub fn finite(bits: u64) -> bool
    ensures { result ≡ finite Width.Double bits }
{
    is_finite(Width::Double, bits)
}

pub(super) fn widen_bits(w: Width, bits: u64) -> u64
    ensures { result ≡ widened_bits w bits }
{
    let a = shape_of(w);
    bits / a.sign % 2 * 0x8000000000000000 + widen(w, bits % a.sign)
}

pub(super) fn narrow_bits(w: Width, value: u64) -> u64
    ensures { result ≡ narrowed_bits w value }
{
    let a = shape_of(w);
    value / 0x8000000000000000 % 2 * a.sign + narrow(w, value % 0x8000000000000000)
}
