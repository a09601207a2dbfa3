// What the crate `speed` does, for a program in C: its functions under the same names, and with the
// same clauses, word for word (tests/promises). A library for C cannot be one for Rattle too.
#![tactic(auto)]

ghost use Rattle.std.specs.Prelude.{◌≡◌};
ghost use Rattle.wire.specs.Over.{over};
ghost use Rattle.wire.specs.Answer.{done, bytes_after, answer_of};
ghost use Rattle.wire.specs.Writing.{writing};
ghost use Rattle.text.specs.Text.{base64, text_of, read_text};
ghost use Rattle.crc.specs.Crc as C;
ghost use Rattle.sha256.specs.Sha as S;
ghost use Rattle.blake2b.specs.Blake2b as B;
ghost use Rattle.speed.specs.Count as N;

// What `crc::crc32` answers, for a C program.
#[unsafe(no_mangle)]
pub extern "C" fn speed_crc32(s: &[u8]) -> u32
    ensures { result ≡ C.crc32 s.now }
{
    speed::speed_crc32(s)
}

// The SHA-256 of s at the front of out, for a C program. Nothing changes where out is shorter.
#[unsafe(no_mangle)]
pub extern "C" fn speed_sha256(s: &[u8], out: &mut [u8])
    ensures { out.new ≡ over 0 (S.sha256 s.now) out.old }
{
    speed::speed_sha256(s, out);
}

// The BLAKE2b of s at the front of out, for a C program. Nothing changes where out is shorter.
#[unsafe(no_mangle)]
pub extern "C" fn speed_blake2b(s: &[u8], out: &mut [u8])
    ensures { out.new ≡ over 0 (B.blake2b s.now) out.old }
{
    speed::speed_blake2b(s, out);
}

// What `text::base64_read` does, for a C program: the bytes at the front of out, and their number;
// 0 and nothing changed where the text is refused or does not fit.
#[unsafe(no_mangle)]
pub extern "C" fn speed_base64_read(text: &[u8], out: &mut [u8]) -> usize
    ensures value { result ≡ N.count (answer_of (writing 0 out.old (read_text base64 text.now))) }
    ensures out_after { out.new ≡ bytes_after out.old (writing 0 out.old (read_text base64 text.now)) }
{
    speed::speed_base64_read(text, out)
}

// What `text::base64_write` does, for a C program: the text at the front of out, and its length; 0
// and nothing changed where it does not fit.
#[unsafe(no_mangle)]
pub extern "C" fn speed_base64_write(s: &[u8], out: &mut [u8]) -> usize
    ensures value { result ≡ N.count (answer_of (writing 0 out.old (done (text_of base64 s.now)))) }
    ensures out_after { out.new ≡ bytes_after out.old (writing 0 out.old (done (text_of base64 s.now))) }
{
    speed::speed_base64_write(s, out)
}
