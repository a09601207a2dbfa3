// Unsigned varints, seven bits a byte: section 4 of docs/RULES.md. Only the shortest form of a
// number is read or written.
#![tactic(auto)]

ghost use Rattle.std.specs.Prelude.{◌≡◌, ◌+◌, ◌*◌, ◌^◌, ◌<◌, ◌≤◌, length, drop};
ghost use Rattle.wire.specs.Answer.{done};
ghost use Rattle.wire.specs.Over.{over};
ghost use Rattle.wire.specs.Reading.{told};
ghost use Rattle.wire.specs.Writing.{Written};
ghost use Rattle.varint.specs.Varint.{varint, onto, ending, tenth, later_from, varint_at};

use wire::Refusal;

// b is the last byte of a form, at weight w above the n of the bytes before it; next is the
// position past it. A form that ends in 00 could be shorter (R4.3).
fn read_ending(b: u64, n: u64, w: u64, next: usize) -> Result<(u64, usize), Refusal>
    requires { n + w * b < 2 ^ 64 }
    ensures { told result ≡ onto n w (ending b next) }
{
    if b == 0 {
        return Err(Refusal::BadVarint);
    }
    Ok((n + w * b, next))
}

// The same for a tenth byte, the only one that can take a number to 2^64 (R4.3).
fn read_tenth(b: u64, n: u64, w: u64, next: usize) -> Result<(u64, usize), Refusal>
    requires { n + w < 2 ^ 64 }
    ensures { told result ≡ onto n w (tenth b next) }
{
    if 1 < b {
        return Err(Refusal::BadVarint);
    }
    read_ending(b, n, w, next)
}

// The rest of a form whose first byte holds low; its second byte stands at position from.
fn read_later(s: &[u8], from: usize, low: u64) -> Result<(u64, usize), Refusal>
    requires { low < 128 }
    ensures { told result ≡ onto low 128 (later_from 8 from (drop from s.now)) }
{
    let mut n = low;
    let mut w: u64 = 128;
    let mut left: usize = 8;
    for i in from..s.len() {
        let b = u64::from(s[i]);
        if left == 0 {
            return read_tenth(b, n, w, i + 1);
        }
        if b < 128 {
            return read_ending(b, n, w, i + 1);
        }
        n += w * (b % 128);
        w *= 128;
        left -= 1;
    }
    Err(Refusal::CutOrLeftOver)
}

// The number at the position, and the position past it; or 3 or 7. What is written reads back
// whatever follows (`reads_back`); what is read is the written form (`read_stands`). Past the end
// of s the answer is 3.
pub fn read(s: &[u8], at: usize) -> Result<(u64, usize), Refusal>
    ensures { told result ≡ varint_at s.now at }
{
    if s.len() <= at {
        return Err(Refusal::CutOrLeftOver);
    }
    let first = u64::from(s[at]);
    if first < 128 {
        return Ok((first, at + 1));
    }
    read_later(s, at + 1, first % 128)
}

// How many bytes n takes: one for each seven bits up to its highest set bit
// (`varint_length_from_leading_zeros`). 0 has no set bit, and takes one.
pub fn size(n: u64) -> usize
    ensures { result ≡ length (varint n) }
{
    if n == 0 {
        return 1;
    }
    // The length follows from the leading zeros (R18.1): `varint_length_from_leading_zeros` of
    // proofs/Lengths.antt ties it to the digits.
    let highest = 63 - u64::leading_zeros(n);
    (highest / 7 + 1) as usize
}

// Where there is room.
fn write_fitting(n: u64, out: &mut [u8], at: usize)
    requires { at + length (varint n) ≤ length out.old }
    ensures { out.new ≡ over at (varint n) out.old }
{
    let mut m = n;
    let mut i = at;
    // stays (3): the number ends the loop, and no slice or range does
    while 128 <= m {
        out[i] = ((m % 128) as u8) + 128;
        m /= 128;
        i += 1;
    }
    out[i] = m as u8;
}

// The one form of n in out from the index on, and its length; or 11 and nothing changed.
pub fn write(n: u64, out: &mut [u8], at: usize) -> Result<usize, Refusal>
    ensures { Written at (done (varint n)) out.old out.new result }
{
    let len = size(n);
    if out.len() < at || out.len() - at < len {
        return Err(Refusal::NoRoom);
    }
    write_fitting(n, out, at);
    Ok(len)
}
