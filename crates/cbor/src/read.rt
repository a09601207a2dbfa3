// What stands at a position of the input. Of several faults the one furthest in front is told
// (R10.2): a refusal leaves at once, by `?` (R18.4).
ghost use Rattle.std.specs.Prelude.{◌≡◌, ◌+◌, ◌<◌, ◌≤◌, length, take, drop};
ghost use Rattle.wire.specs.Number.{number};
ghost use Rattle.wire.specs.Reading.{told, told_by, step_told};
ghost use Rattle.cbor.specs.Item.{byte_at, one_at, big_endian_at, argument_at, kind_of, head_at, number_at, contents_at, string_at, name_at, key_at, body_at, float_at, string_field_at, number_field_at, any_field_at};

use super::{Fault, Head, Width, float, short};
use wire::{Refusal, Span};

// Integers of either sign are one kind (R10.4).
fn kind_of(major: u8) -> u8
    ensures { result ≡ kind_of major }
{
    if major == 1 {
        return 0;
    }
    major
}

// The number in the bytes, the highest first.
fn big_endian(bs: &[u8]) -> u64
    requires { length bs.now ≤ 8 }
    ensures { result ≡ number 256 bs.now }
{
    let mut n: u64 = 0;
    for x in bs {
        n = n * 256 + u64::from(*x);
    }
    n
}

// The same of the k bytes at any position.
fn big_endian_at(s: &[u8], at: usize, k: usize) -> Result<(u64, usize), Refusal>
    requires { k ≤ 8 }
    ensures { told result ≡ big_endian_at s.now at k }
{
    let (_, next) = contents(s, at, k as u64)?;
    Ok((big_endian(&s[at..next]), next))
}

// The number of a head whose first byte, with info in its low bits, stands before position at.
fn argument(s: &[u8], at: usize, info: u8) -> Result<(u64, usize), Refusal>
    ensures { told result ≡ argument_at s.now at info }
{
    if info < 24 {
        return Ok((u64::from(info), at));
    }
    big_endian_at(s, at, short::width(info))
}

// The byte at the position, whatever it is, and the position past it; or 3.
//
// The first byte of an item tells which it is, where a field may hold one of several.
pub fn byte(s: &[u8], at: usize) -> Result<(u64, usize), Refusal>
    ensures { told result ≡ byte_at s.now at }
{
    if at < s.len() {
        return Ok((u64::from(s[at]), at + 1));
    }
    Err(Refusal::CutOrLeftOver)
}

// The position past the wanted byte, which stands at the position asked; or 3, then 18.
//
// The head of a map, or a simple value, is read so.
pub fn one_byte(s: &[u8], at: usize, wanted: u8) -> Result<usize, Refusal>
    ensures { step_told result ≡ one_at s.now at wanted }
{
    if s.len() <= at {
        return Err(Refusal::CutOrLeftOver);
    }
    if s[at] != wanted {
        return Err(Refusal::NotCanonical);
    }
    Ok(at + 1)
}

// The head of an item of this kind, in the shortest form: its major type, its number and the
// position past it; or 18 for another first byte, 3 where the input ends, 18 for a longer form.
pub fn head(s: &[u8], at: usize, kind: u8) -> Result<(Head, usize), Refusal>
    ensures { told result ≡ head_at s.now at kind }
{
    if s.len() <= at {
        return Err(Refusal::CutOrLeftOver);
    }
    let major = s[at] / 32;
    let low = s[at] % 32;
    if kind_of(major) != kind {
        return Err(Refusal::NotCanonical);
    }
    if 27 < low {
        return Err(Refusal::NotCanonical);
    }
    let (n, next) = argument(s, at + 1, low)?;
    if short::info(n) != low {
        return Err(Refusal::NotCanonical);
    }
    Ok((Head { major, n }, next))
}

// The number of a head of this kind, within the bounds, and the position past it; or the head's
// refusal, then the fault that the caller names for any other number, a negative one too.
pub fn number<E: Fault>(
    s: &[u8],
    at: usize,
    kind: u8,
    least: u64,
    most: u64,
    fault: E,
) -> Result<(u64, usize), E>
    ensures { told_by E.number_of_fault result ≡ number_at s.now at kind least most (E.number_of_fault fault) }
{
    let (h, next) = head(s, at, kind)?;
    if h.major != kind {
        return Err(fault);
    }
    if h.n < least {
        return Err(fault);
    }
    if most < h.n {
        return Err(fault);
    }
    Ok((h.n, next))
}

// Where the len bytes of a string stand from the position on, behind its head, and the position
// past them; or 3.
pub fn contents(s: &[u8], at: usize, len: u64) -> Result<(Span, usize), Refusal>
    ensures { told result ≡ contents_at s.now at len }
{
    let n = len as usize;
    if s.len() < at {
        return Err(Refusal::CutOrLeftOver);
    }
    if s.len() - at < n {
        return Err(Refusal::CutOrLeftOver);
    }
    Ok((Span { start: at, len: n }, at + n))
}

// Where the contents of a byte string or a text stand, of a length within the bounds, and the
// position past them; or the head's refusal, then the fault that the caller names for another
// length, then 3.
pub fn string<E: Fault>(
    s: &[u8],
    at: usize,
    kind: u8,
    least: u64,
    most: u64,
    fault: E,
) -> Result<(Span, usize), E>
    ensures { told_by E.number_of_fault result ≡ string_at s.now at kind least most (E.number_of_fault fault) }
{
    let (n, next) = number(s, at, kind, least, most, fault)?;
    Ok(contents(s, next, n)?)
}

// The contents of a key, whose head stands before position at: a fixed string, compared (R18.2).
fn name(s: &[u8], at: usize, wanted: &[u8]) -> Result<usize, Refusal>
    ensures { step_told result ≡ name_at s.now at wanted.now }
{
    let (_, end) = contents(s, at, wanted.len() as u64)?;
    if lend::equal(wanted, &s[at..end]) {
        return Ok(end);
    }
    Err(Refusal::NotCanonical)
}

// The position past the named key; or 18, 3, 18. No key has a name of more than 23 bytes.
pub fn key(s: &[u8], at: usize, wanted: &[u8]) -> Result<usize, Refusal>
    ensures { step_told result ≡ key_at s.now at wanted.now }
{
    let len = wanted.len();
    if 24 <= len {
        return Err(Refusal::NotCanonical);
    }
    let next = one_byte(s, at, 96 + len as u8)?;
    name(s, next, wanted)
}

// A float of this width, whose first byte stands before position at.
fn float_body(s: &[u8], at: usize, w: Width) -> Result<(u64, usize), Refusal>
    ensures { told result ≡ body_at s.now at w }
{
    let (bits, next) = big_endian_at(s, at, float::bytes(w))?;
    if !float::is_finite(w, bits) {
        return Err(Refusal::OutOfRange);
    }
    let value = float::widen_bits(w, bits);
    if float::least(value) != w {
        return Err(Refusal::NotCanonical);
    }
    Ok((value, next))
}

// The 64 bits of the double that a float stands for, and the position past it; or 3 where no byte
// is left, 18 for another first byte than F9, FA and FB, 3 where the input ends, 19 where it is not
// finite, 18 where a shorter one has the same value.
pub fn float(s: &[u8], at: usize) -> Result<(u64, usize), Refusal>
    ensures { told result ≡ float_at s.now at }
{
    let (x, next) = byte(s, at)?;
    if !float::begins(x) {
        return Err(Refusal::NotCanonical);
    }
    float_body(s, next, float::width(x))
}

// A key, and where the contents of the string behind it stand, of a length within the bounds; or
// the refusal of the key, then that of the string, which is the fault that the caller names for
// another length.
pub fn string_field<E: Fault>(
    s: &[u8],
    at: usize,
    name: &[u8],
    kind: u8,
    least: u64,
    most: u64,
    fault: E,
) -> Result<(Span, usize), E>
    ensures { told_by E.number_of_fault result ≡ string_field_at s.now at name.now kind least most (E.number_of_fault fault) }
{
    let next = key(s, at, name)?;
    string(s, next, kind, least, most, fault)
}

// A key, and the number behind it, within the bounds; or the refusal of the key, then that of the
// number, which is 19 where it is outside.
pub fn number_field(
    s: &[u8],
    at: usize,
    name: &[u8],
    least: u64,
    most: u64,
) -> Result<(u64, usize), Refusal>
    ensures { told result ≡ number_field_at s.now at name.now least most }
{
    let next = key(s, at, name)?;
    number(s, next, super::INTEGER, least, most, Refusal::OutOfRange)
}

// A key, and of the value behind it, whatever it is, the first byte, which tells its kind, and the
// position; or the refusal of the key, then 3.
pub fn any_field(s: &[u8], at: usize, name: &[u8]) -> Result<(u64, usize), Refusal>
    ensures { told result ≡ any_field_at s.now at name.now }
{
    let next = key(s, at, name)?;
    let (n, _) = byte(s, next)?;
    Ok((n, next))
}
