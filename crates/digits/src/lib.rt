// Numbers and bytes as digits: a number in decimal, with the line that says a refusal's, and bytes
// in lower-case hex, written and read.
//
// What is written in hex reads back, for all bytes (`hex_back`: digits, Hexes). A number has at
// most three digits, since it is a byte (`length_decimal`: digits, Decimals).
#![tactic(auto)]

ghost use Rattle.std.specs.Prelude.{◌≡◌, true, [], ◌∷◌, ◌+◌, ◌*◌, ◌/◌, ◌≤◌, ◌<◌, length, drop};
ghost use Rattle.wire.specs.Over.{over};
ghost use Rattle.wire.specs.Answer.{done};
ghost use Rattle.wire.specs.Writing.{Written};
ghost use Rattle.digits.specs.Decimal.{decimal as decimal_of, numeral, refused_line};
ghost use Rattle.digits.specs.Hex.{hex_digit, hex_of, hex_value, all_hex, hex_bytes, hex_verdict};

use wire::Refusal;

// ---- decimal

// The decimal digits of n from the index on; nothing changes where they do not fit. The answer is
// how many they are, in either case.
pub fn decimal(out: &mut [u8], at: usize, n: u8) -> usize
    ensures { (result ≡ length (decimal_of n)) × (result ≤ 3) × (out.new ≡ over at (decimal_of n) out.old) }
{
    number(out, at, u64::from(n))
}

// No u64 has more digits.
const MOST_DIGITS: usize = 20;

// The digits of n at the end of room, the last one first. Answers where they begin.
fn spell(n: u64, room: &mut [u8]) -> usize
    requires { length room.old ≡ 20 }
    ensures { (result ≤ 20) × (drop result room.new ≡ numeral n) }
{
    let mut rest = n;
    for i in (0..MOST_DIGITS).rev() {
        room[i] = b'0' + (rest % 10) as u8;
        if rest < 10 {
            return i;
        }
        rest /= 10;
    }
    0
}

// The decimal digits of any u64 from the index on; nothing changes where they do not fit. The
// answer is how many they are, in either case.
pub fn number(out: &mut [u8], at: usize, n: u64) -> usize
    ensures { (result ≡ length (numeral n)) × (result ≤ 20) × (out.new ≡ over at (numeral n) out.old) }
{
    let mut room = [0u8; MOST_DIGITS];
    let i = spell(n, &mut room);
    lend::copy(out, at, &room[i..]);
    MOST_DIGITS - i
}

// The word, three digits and the line feed.
const REFUSED_ROOM: usize = 12;

// The word `refused`, the number and a line feed at the front of out, and their length; or 11 and
// nothing changed.
//
// A collection that is not well formed is told by this line, and so is an input that a program
// refuses.
// stays (1): any number may be told, so `no` is no `Refusal` here
pub fn refused_line(no: u8, out: &mut [u8]) -> Result<usize, Refusal>
    ensures { Written 0 (done (refused_line no)) out.old out.new result }
{
    let mut room = [0u8; REFUSED_ROOM];
    lend::copy(&mut room, 0, b"refused ");
    let feed = 8 + decimal(&mut room, 8, no);
    lend::put(&mut room, feed, b'\n');
    let end = feed + 1;
    lend::give(&room[0..end], out)
}

// ---- hex, written

fn hex_digit(d: u8) -> u8
    requires { d < 16 }
    ensures { result ≡ hex_digit d }
{
    match d {
        0..=9 => b'0' + d,
        _ => b'a' + (d - 10),
    }
}

fn pair(b: u8) -> [u8; 2]
    ensures { result ≡ hex_of (b ∷ []) }
{
    [hex_digit(b / 16), hex_digit(b % 16)]
}

// The digits are put where they stand, without the tests of `lend::copy`: the compiler then makes
// vector code of the loop.
fn hex_fitting(out: &mut [u8], at: usize, src: &[u8])
    requires { at + 2 * length src.now ≤ length out.old }
    ensures { out.new ≡ over at (hex_of src.now) out.old }
{
    for (i, b) in src.iter().enumerate() {
        let two = pair(*b);
        out[at + 2 * i] = two[0];
        out[at + 2 * i + 1] = two[1];
    }
}

// Two lower-case hex digits for each byte of src from the index on. Nothing changes where they do
// not all fit.
pub fn hex(out: &mut [u8], at: usize, src: &[u8])
    ensures { out.new ≡ over at (hex_of src.now) out.old }
{
    if at <= out.len() && src.len() <= (out.len() - at) / 2 {
        hex_fitting(out, at, src);
    }
}

// ---- hex, read

// The value of a lower-case hex digit; 16 for any other byte.
pub fn hex_value(b: u8) -> u8
    ensures { (result ≡ hex_value b) × (result ≤ 16) }
{
    match b {
        b'0'..=b'9' => b - b'0',
        b'a'..=b'f' => b - b'a' + 10,
        _ => 16,
    }
}

// True exactly where each byte is a lower-case hex digit.
pub fn all_hex(s: &[u8]) -> bool
    ensures { result ≡ all_hex s.now }
{
    s.iter().all(|b| hex_value(*b) < 16)
}

// A byte for each two digits, at the front of out.
fn read_fitting(s: &[u8], out: &mut [u8])
    requires { (all_hex s.now ≡ true) × (length s.now / 2 ≤ length out.old) }
    ensures { out.new ≡ over 0 (hex_bytes s.now) out.old }
{
    for i in 0..s.len() / 2 {
        out[i] = hex_value(s[2 * i]) * 16 + hex_value(s[2 * i + 1]);
    }
}

// The bytes that lower-case hex digits say, at the front of out, and their number; or 19 where a
// byte is no such digit or the last digit stands alone, then 11, and nothing changed.
pub fn hex_read(s: &[u8], out: &mut [u8]) -> Result<usize, Refusal>
    ensures { Written 0 (hex_verdict s.now) out.old out.new result }
{
    if s.len() % 2 != 0 || !all_hex(s) {
        return Err(Refusal::OutOfRange);
    }
    let n = s.len() / 2;
    if out.len() < n {
        return Err(Refusal::NoRoom);
    }
    read_fitting(s, out);
    Ok(n)
}
