// The checksum, the digests and base64 for a C program to call: what bench/run measures. Nothing of
// the product stands on this crate.
#![tactic(auto)]

ghost use Rattle.std.specs.Prelude.{◌≡◌};
ghost use Rattle.wire.specs.Over.{over};
ghost use Rattle.wire.specs.Answer.{done, bytes_after, answer_of};
ghost use Rattle.wire.specs.Writing.{told, writing};
ghost use Rattle.text.specs.Text.{base64, text_of, read_text};
ghost use Rattle.crc.specs.Crc as C;
ghost use Rattle.sha256.specs.Sha as S;
ghost use Rattle.blake2b.specs.Blake2b as B;
ghost use Rattle.speed.specs.Count as N;

use wire::Refusal;

// What `crc::crc32` answers, for a C program.
#[unsafe(no_mangle)]
pub extern "C" fn speed_crc32(s: &[u8]) -> u32
    ensures { result ≡ C.crc32 s.now }
{
    crc::crc32(s)
}

// The SHA-256 of s at the front of out, for a C program. Nothing changes where out is shorter.
#[unsafe(no_mangle)]
pub extern "C" fn speed_sha256(s: &[u8], out: &mut [u8])
    ensures { out.new ≡ over 0 (S.sha256 s.now) out.old }
{
    let digest = sha256::sha256(s);
    lend::copy(out, 0, &digest);
}

// The BLAKE2b of s at the front of out, for a C program. Nothing changes where out is shorter.
#[unsafe(no_mangle)]
pub extern "C" fn speed_blake2b(s: &[u8], out: &mut [u8])
    ensures { out.new ≡ over 0 (B.blake2b s.now) out.old }
{
    let hash = blake2b::blake2b(s);
    lend::copy(out, 0, &hash);
}

// How many bytes stand in the output: none where the call was refused.
fn count(r: Result<usize, Refusal>) -> usize
    ensures { result ≡ N.count (told r) }
{
    r.unwrap_or(0)
}

// What `text::base64_read` does, for a C program: the bytes at the front of out, and their number;
// 0 and nothing changed where the text is refused or does not fit.
#[unsafe(no_mangle)]
pub extern "C" fn speed_base64_read(text: &[u8], out: &mut [u8]) -> usize
    ensures value { result ≡ N.count (answer_of (writing 0 out.old (read_text base64 text.now))) }
    ensures out_after { out.new ≡ bytes_after out.old (writing 0 out.old (read_text base64 text.now)) }
{
    count(text::base64_read(text, out))
}

// What `text::base64_write` does, for a C program: the text at the front of out, and its length; 0
// and nothing changed where it does not fit.
#[unsafe(no_mangle)]
pub extern "C" fn speed_base64_write(s: &[u8], out: &mut [u8]) -> usize
    ensures value { result ≡ N.count (answer_of (writing 0 out.old (done (text_of base64 s.now)))) }
    ensures out_after { out.new ≡ bytes_after out.old (writing 0 out.old (done (text_of base64 s.now))) }
{
    count(text::base64_write(s, out))
}
