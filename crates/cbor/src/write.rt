// Items written at a position of lent output. Each answers the position past the item; where the
// item does not fit, nothing is written and the position stays. A payload's writer judges first
// that all of it fits (R10.7).
ghost use Rattle.std.specs.Prelude.{◌≡◌, ◌∷◌, ◌+◌, ◌%◌, ◌≤◌, length};
ghost use Rattle.wire.specs.Number.{big_endian};
ghost use Rattle.wire.specs.Writing.{Written};
ghost use Rattle.cbor.specs.Form.{head_of, head_size, string_of, float_of, string_field_of, number_field_of, float_verdict};
ghost use Rattle.cbor.specs.Put.{Put};

use super::{float, short};
use wire::Refusal;

// How long the head of the number n is.
pub fn size(n: u64) -> usize
    ensures { result ≡ head_size n }
{
    1 + short::following(n)
}

// How long a string is with its head.
fn string_size(bs: &[u8]) -> usize
    ensures { result ≡ head_size (length bs.now) + length bs.now }
{
    size(bs.len() as u64) + bs.len()
}

// A first byte and the lowest k bytes of n behind it, the highest of them first. Where they do not
// fit, nothing is written and the position stays.
fn first_and_number(out: &mut [u8], at: usize, first: u8, k: usize, n: u64) -> usize
    requires { k ≤ 8 }
    ensures { Put at (first ∷ big_endian k n) out.old out.new result }
{
    if usize::saturating_sub(out.len(), at) < 1 + k {
        return at;
    }
    lend::put(out, at, first);
    lend::copy(out, at + 1, &n.to_be_bytes()[8 - k..]);
    at + 1 + k
}

// The bytes of an item as they are at the position, and the position past them. Where they do not
// fit, nothing is written and the position stays.
//
// The head of a map, a simple value and a domain string are written so.
pub fn fixed(out: &mut [u8], at: usize, item: &[u8]) -> usize
    ensures { Put at item.now out.old out.new result }
{
    if usize::saturating_sub(out.len(), at) < item.len() {
        return at;
    }
    lend::copy(out, at, item);
    at + item.len()
}

// The one shortest head of the number n at the position, and the position past it. Where it does
// not fit, nothing is written and the position stays. A major type is three bits.
pub fn head(out: &mut [u8], at: usize, major: u8, n: u64) -> usize
    ensures { Put at (head_of (major % 8) n) out.old out.new result }
{
    let first = major % 8 * 32 + short::info(n);
    first_and_number(out, at, first, short::following(n), n)
}

// A byte string or a text with its head at the position, and the position past it. Where it does
// not fit, nothing is written and the position stays.
//
// A key is a text.
pub fn string(out: &mut [u8], at: usize, major: u8, bs: &[u8]) -> usize
    ensures { Put at (string_of (major % 8) bs.now) out.old out.new result }
{
    if usize::saturating_sub(out.len(), at) < string_size(bs) {
        return at;
    }
    let p = head(out, at, major, bs.len() as u64);
    lend::copy(out, p, bs);
    p + bs.len()
}

// How long the float is that stands for the double with these 64 bits.
pub fn float_size(value: u64) -> usize
    ensures { result ≡ length (float_of value) }
{
    1 + float::bytes(float::least(value))
}

// A float by the 64 bits of its double, in the shortest of three widths that has it, at the
// position, and the position past it. Where it does not fit, nothing is written and the position
// stays.
//
// One that is not finite is written as those 64 bits: who may not write it asks `float::finite`.
pub fn float(out: &mut [u8], at: usize, value: u64) -> usize
    ensures { Put at (float_of value) out.old out.new result }
{
    let w = float::least(value);
    let bits = float::narrow_bits(w, value);
    first_and_number(out, at, float::first(w), float::bytes(w), bits)
}

// A finite float alone in the output, by the 64 bits of its double, and its length; or 19 where it
// is not finite, then 11, and nothing changed.
pub fn float_alone(value: u64, out: &mut [u8]) -> Result<usize, Refusal>
    ensures { Written 0 (float_verdict value) out.old out.new result }
{
    if !float::finite(value) {
        return Err(Refusal::OutOfRange);
    }
    let len = float_size(value);
    if out.len() < len {
        return Err(Refusal::NoRoom);
    }
    float(out, 0, value);
    Ok(len)
}

// A key and a string at the position, and the position past them. Where they do not fit, nothing is
// written and the position stays.
pub fn string_field(out: &mut [u8], at: usize, name: &[u8], major: u8, bs: &[u8]) -> usize
    ensures { Put at (string_field_of name.now (major % 8) bs.now) out.old out.new result }
{
    let left = usize::saturating_sub(out.len(), at);
    let a = string_size(name);
    if left < a {
        return at;
    }
    if left - a < string_size(bs) {
        return at;
    }
    let p = string(out, at, super::TEXT, name);
    string(out, p, major, bs)
}

// A key and a number at the position, and the position past them. Where they do not fit, nothing is
// written and the position stays.
pub fn number_field(out: &mut [u8], at: usize, name: &[u8], n: u64) -> usize
    ensures { Put at (number_field_of name.now n) out.old out.new result }
{
    let left = usize::saturating_sub(out.len(), at);
    let a = string_size(name);
    if left < a {
        return at;
    }
    if left - a < size(n) {
        return at;
    }
    let p = string(out, at, super::TEXT, name);
    head(out, p, super::INTEGER, n)
}
