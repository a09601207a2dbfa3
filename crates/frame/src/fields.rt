// The fields of a frame, from left to right: the first fault decides (R6.4). Each answer is taken
// apart with `let .. else`, and a refusal leaves at once (R18.4).
// stays (1): R18.4 wants `let .. else` of each field, and not `?`
ghost use Rattle.std.specs.Prelude.{◌≡◌, ◌≤◌, length, take, drop};
ghost use Rattle.wire.specs.Number.{big_endian};
ghost use Rattle.wire.specs.Reading.{told, step_told};
ghost use Rattle.lend.specs.Same.{same};
ghost use Rattle.crc.specs.Crc.{crc32};
ghost use Rattle.frame.specs.Frame.{kind_at, id_at, start_of, numbers_at, data_at};
ghost use Rattle.frame.specs.Private.{kind_told};

use crate::Kind;
use wire::Refusal;

// INDEX, TOTAL and DATA_LEN.
#[derive(Clone, Copy)]
pub struct Numbers {
    pub index: u64,
    pub total: u64,
    pub len: u64,
}

fn kind(s: &[u8], at: usize) -> Result<(Kind, usize), Refusal>
    ensures { kind_told result ≡ kind_at s.now at }
{
    if s.len() <= at {
        return Err(Refusal::CutOrLeftOver);
    }
    let b = s[at];
    if b == u8::from(Kind::Main) {
        return Ok((Kind::Main, at + 1));
    }
    if b == u8::from(Kind::Key) {
        return Ok((Kind::Key, at + 1));
    }
    if b == u8::from(Kind::Auth) {
        return Ok((Kind::Auth, at + 1));
    }
    Err(Refusal::BadFrameType)
}

fn id(s: &[u8], at: usize) -> Result<usize, Refusal>
    requires { at ≤ length s.now }
    ensures { step_told result ≡ id_at s.now at }
{
    if s.len() - at < wire::ID_SIZE {
        return Err(Refusal::CutOrLeftOver);
    }
    Ok(at + wire::ID_SIZE)
}

// All before the varints. The magic is a fixed string (R18.2).
pub(super) fn start(s: &[u8]) -> Result<(Kind, usize), Refusal>
    ensures { kind_told result ≡ start_of s.now }
{
    let r1 = mark::read(b"AP", s);
    let Ok(a) = r1 else {
        return Err(r1.unwrap_err());
    };
    let r2 = kind(s, a);
    let Ok((kind, b)) = r2 else {
        return Err(r2.unwrap_err());
    };
    let r3 = id(s, b);
    let Ok(c) = r3 else {
        return Err(r3.unwrap_err());
    };
    Ok((kind, c))
}

pub(super) fn read_numbers(s: &[u8], at: usize) -> Result<(Numbers, usize), Refusal>
    ensures { told result ≡ numbers_at s.now at }
{
    let r1 = varint::read(s, at);
    let Ok((index, a)) = r1 else {
        return Err(r1.unwrap_err());
    };
    let r2 = varint::read(s, a);
    let Ok((total, b)) = r2 else {
        return Err(r2.unwrap_err());
    };
    let r3 = varint::read(s, b);
    let Ok((len, c)) = r3 else {
        return Err(r3.unwrap_err());
    };
    Ok((Numbers { index, total, len }, c))
}

// Whether the checksum of what stands before end is all that stands from there on (R6.5).
fn sum_stands(s: &[u8], end: usize) -> bool
    requires { end ≤ length s.now }
    ensures { result ≡ same (drop end s.now) (big_endian 4 (crc32 (take end s.now))) }
{
    let sum = crc::sum(&s[..end]);
    lend::equal(&s[end..], &sum)
}

// The data, len bytes from at on, and the CRC of all before it (R6.5). A length near 2^64 is
// compared, and never added to.
pub(super) fn data_and_sum(s: &[u8], at: usize, len: u64) -> Result<usize, Refusal>
    requires { at ≤ length s.now }
    ensures { step_told result ≡ data_at s.now at len }
{
    let left = s.len() - at;
    if left < 4 {
        return Err(Refusal::CutOrLeftOver);
    }
    if (left - 4) as u64 != len {
        return Err(Refusal::CutOrLeftOver);
    }
    let end = at + (len as usize);
    if sum_stands(s, end) {
        return Ok(end + 4);
    }
    Err(Refusal::BadChecksum)
}
