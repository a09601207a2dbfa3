// The auth payload, read and written, and the bytes that get signed: section 11 of docs/RULES.md.
//
// What is written reads back, and what is read is exactly the written form of its value
// (`auth_back`, `auth_only`, `auth_once`: auth, Rounds). The payload has 157 bytes (`auth_length`:
// auth, Lengths), so the writer does not look whether it fits a page.
#![tactic(auto)]

ghost use Rattle.std.specs.Prelude.{◌≡◌, ◌≤◌, length};
ghost use Rattle.wire.specs.Over.{over};
ghost use Rattle.wire.specs.Writing.{Written};
ghost use Rattle.auth.specs.Auth.{claim_at, auth_at, auth_of, auth_verdict, signed_of, signed_verdict};
ghost use Rattle.auth.specs.Answer.{claim_told};

use cbor::BYTES;
use wire::Refusal;

// Where pub, sig and hash start, which are 32, 64 and 32 bytes (R11.2), and the position past them.
#[derive(Clone, Copy, Debug, PartialEq, Eq)]
pub struct Claimed {
    pub public: usize,
    pub sig: usize,
    pub hash: usize,
    pub next: usize,
}

// What s begins with, the map's head that the caller gives and the fields pub, sig and hash, and
// the position past them; or the refusal of the first offending item.
pub fn claim(s: &[u8], map: u8) -> Result<Claimed, Refusal>
    ensures { claim_told result ≡ claim_at s.now map }
{
    let at = cbor::read::one_byte(s, 0, map)?;
    let (public, a) = cbor::read::string_field(s, at, b"pub", BYTES, 32, 32, Refusal::OutOfRange)?;
    let (sig, b) = cbor::read::string_field(s, a, b"sig", BYTES, 64, 64, Refusal::OutOfRange)?;
    let (hash, next) = cbor::read::string_field(s, b, b"hash", BYTES, 32, 32, Refusal::OutOfRange)?;
    Ok(Claimed {
        public: public.start,
        sig: sig.start,
        hash: hash.start,
        next,
    })
}

// The claim of the auth payload that s is, and the length of s as the position past it; or the
// refusal of the first offending item.
pub fn read(s: &[u8]) -> Result<Claimed, Refusal>
    ensures { claim_told result ≡ auth_at s.now }
{
    let c = claim(s, 0xA4)?;
    let (_, next) = cbor::read::number_field(s, c.next, b"version", 1, 1)?;
    if next != s.len() {
        return Err(Refusal::CutOrLeftOver);
    }
    Ok(Claimed { next, ..c })
}

fn write_fitting(public: &[u8], sig: &[u8], hash: &[u8], out: &mut [u8])
    requires { length (auth_of public.now sig.now hash.now) ≤ length out.old }
    ensures { out.new ≡ over 0 (auth_of public.now sig.now hash.now) out.old }
{
    let a = cbor::write::fixed(out, 0, b"\xA4");
    let b = cbor::write::string_field(out, a, b"pub", BYTES, public);
    let c = cbor::write::string_field(out, b, b"sig", BYTES, sig);
    let d = cbor::write::string_field(out, c, b"hash", BYTES, hash);
    cbor::write::number_field(out, d, b"version", 1);
}

// The auth payload, of 157 bytes, at the front of out; or 19, then 11, and nothing changed. No
// other number is answered: the payload always fits a page, so there is no 9.
pub fn write(public: &[u8], sig: &[u8], hash: &[u8], out: &mut [u8]) -> Result<usize, Refusal>
    ensures { Written 0 (auth_verdict public.now sig.now hash.now) out.old out.new result }
{
    if public.len() != 32 {
        return Err(Refusal::OutOfRange);
    }
    if sig.len() != 64 {
        return Err(Refusal::OutOfRange);
    }
    if hash.len() != 32 {
        return Err(Refusal::OutOfRange);
    }
    if out.len() < 157 {
        return Err(Refusal::NoRoom);
    }
    write_fitting(public, sig, hash, out);
    Ok(157)
}

// Where there is room. The domain and the keys are fixed strings (R18.2).
fn signed_fitting(public: &[u8], hash: &[u8], out: &mut [u8])
    requires { length (signed_of public.now hash.now) ≤ length out.old }
    ensures { out.new ≡ over 0 (signed_of public.now hash.now) out.old }
{
    let a = cbor::write::fixed(out, 0, b"ETHERNITY-AUTH-V1");
    let b = cbor::write::fixed(out, a, b"\xA3");
    let c = cbor::write::string_field(out, b, b"pub", BYTES, public);
    let d = cbor::write::string_field(out, c, b"hash", BYTES, hash);
    cbor::write::number_field(out, d, b"version", 1);
}

// The 104 bytes that get signed at the front of out; or 19, then 11, and nothing changed.
pub fn signed(public: &[u8], hash: &[u8], out: &mut [u8]) -> Result<usize, Refusal>
    ensures { Written 0 (signed_verdict public.now hash.now) out.old out.new result }
{
    if public.len() != 32 {
        return Err(Refusal::OutOfRange);
    }
    if hash.len() != 32 {
        return Err(Refusal::OutOfRange);
    }
    if out.len() < 104 {
        return Err(Refusal::NoRoom);
    }
    signed_fitting(public, hash, out);
    Ok(104)
}
