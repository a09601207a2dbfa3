// Base64 and z-base-32, read and written: section 5 of docs/RULES.md. One code serves both forms: a
// form is the number of bits of a character, w, and its two tables.
//
// Both round trips are in proofs/Round.antt, once for every form: `read_written` (reading what was
// written gives the bytes) and `Written-Read` (a text that is read is, with the skipped characters
// taken out, the written form of its bytes).
#![tactic(auto)]

mod pack;
mod read;
mod tables;
mod write;

ghost use Rattle.std.specs.Prelude.{◌≡◌};
ghost use Rattle.wire.specs.Answer.{done};
ghost use Rattle.wire.specs.Writing.{Written};
ghost use Rattle.text.specs.Text.{base64, zbase32, value, letter, text_of, read_text};

use wire::Refusal;

// The bytes of a base64 text at the front of out, and their number; or 1, then 2, then 11, each
// over the whole text, and nothing changed.
pub fn base64_read(text: &[u8], out: &mut [u8]) -> Result<usize, Refusal>
    ensures { Written 0 (read_text base64 text.now) out.old out.new result }
{
    read::read(&tables::BASE64_VALUES, 6, text, out)
}

// The base64 text of all bytes of src at the front of out, and its length; or 11 and nothing
// changed.
pub fn base64_write(src: &[u8], out: &mut [u8]) -> Result<usize, Refusal>
    ensures { Written 0 (done (text_of base64 src.now)) out.old out.new result }
{
    write::write(&tables::BASE64_LETTERS, 6, src, out)
}

// The bytes of a z-base-32 text at the front of out, and their number; or 1, then 2, then 11, each
// over the whole text, and nothing changed. The alphabet is `ybndrfg8ejkmcpqxot1uwisza345h769`.
// What base64 skips is skipped, and the dash too.
pub fn zbase32_read(text: &[u8], out: &mut [u8]) -> Result<usize, Refusal>
    ensures { Written 0 (read_text zbase32 text.now) out.old out.new result }
{
    read::read(&tables::ZBASE32_VALUES, 5, text, out)
}

// The z-base-32 text of all bytes of src at the front of out, and its length; or 11 and nothing
// changed.
pub fn zbase32_write(src: &[u8], out: &mut [u8]) -> Result<usize, Refusal>
    ensures { Written 0 (done (text_of zbase32 src.now)) out.old out.new result }
{
    write::write(&tables::ZBASE32_LETTERS, 5, src, out)
}

// The value of a z-base-32 character, 0 to 31; 32 for a byte that is none.
pub fn zbase32_value(c: u8) -> u8
    ensures { result ≡ value zbase32 c }
{
    let v = tables::ZBASE32_VALUES[c as usize];
    if v < 32 {
        return v;
    }
    32
}

// The z-base-32 character of a value from 0 to 31; 0 for any other number.
pub fn zbase32_letter(v: u8) -> u8
    ensures { result ≡ letter zbase32 v }
{
    if v < 32 {
        return tables::ZBASE32_LETTERS[v as usize];
    }
    0
}
