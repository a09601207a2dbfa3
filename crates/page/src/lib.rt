// The pages of a document, each as a frame or as one of its two texts: section 7 of docs/RULES.md.
//
// The data of the pages in index order are the ciphertext (`pages_join`), a page before the last
// has its whole size (`page_full`), each has at least one byte (`page_some`), and each reads back
// as its own index, the total, the id and its slice (`page_reads`), also through either text form
// (`page_typed`).
#![tactic(auto)]

ghost use Rattle.std.specs.Prelude.{◌≡◌};
ghost use Rattle.wire.specs.Reading.{told};
ghost use Rattle.wire.specs.Writing.{Written};
ghost use Rattle.text.specs.Text.{Form, base64, zbase32};
ghost use Rattle.page.specs.Page.{count_of, page_verdict, typed};
ghost use Rattle.page.specs.Private.{Spells};

use frame::Kind;
use wire::Refusal;

// How many pages of this size hold a ciphertext of n bytes; or 19, then 9.
pub fn count(n: usize, size: usize) -> Result<usize, Refusal>
    ensures { told result ≡ count_of n size }
{
    if n == 0 || size == 0 {
        return Err(Refusal::OutOfRange);
    }
    if wire::MOST_DATA < size {
        return Err(Refusal::OutOfRange);
    }
    let before_last = (n - 1) / size;
    if wire::MOST_PAGES <= before_last {
        return Err(Refusal::TooLarge);
    }
    Ok(before_last + 1)
}

// Page `number` of the document as a frame at the front of out, and its length; or 19, 9, 8, 11, in
// that order, and nothing changed.
pub fn write(c: &[u8], size: usize, number: usize, out: &mut [u8]) -> Result<usize, Refusal>
    ensures { Written 0 (page_verdict c.now size number) out.old out.new result }
{
    let n = count(c.len(), size)?;
    if n <= number {
        return Err(Refusal::BadPlace);
    }
    // Only at the end of the document is a page shorter than its size (R7.2).
    let start = number * size;
    let end = start + size.min(c.len() - start);
    let id = document_id::of(c);
    frame::lay(
        u8::from(Kind::Main),
        &id,
        number as u64,
        n as u64,
        &c[start..end],
        out,
    )
}

// No frame of a page has more bytes.
const FRAME_ROOM: usize = 512;

// Page `number` of the document as the text that `spell` makes of its frame.
fn write_text<F: FnOnce(&[u8], &mut [u8]) -> Result<usize, Refusal>>(
    spell: F,
    c: &[u8],
    size: usize,
    number: usize,
    out: &mut [u8],
) -> Result<usize, Refusal>
    requires { F.IsAlwaysCallable spell }
    ensures { (f : Form) → Spells f (F.post spell) → Written 0 (typed f (page_verdict c.now size number)) out.old out.new result }
{
    let mut room = [0u8; FRAME_ROOM];
    let len = write(c, size, number, &mut room)?;
    spell(&room[..len], out)
}

// Page `number` of the document as the base64 text of its code square, at the front of out; or 19,
// 9, 8, 11, in that order, and nothing changed.
pub fn write_base64(c: &[u8], size: usize, number: usize, out: &mut [u8]) -> Result<usize, Refusal>
    ensures { Written 0 (typed base64 (page_verdict c.now size number)) out.old out.new result }
{
    write_text(text::base64_write, c, size, number, out)
}

// Page `number` of the document as its z-base-32 text, at the front of out; or 19, 9, 8, 11, in
// that order, and nothing changed.
pub fn write_zbase32(c: &[u8], size: usize, number: usize, out: &mut [u8]) -> Result<usize, Refusal>
    ensures { Written 0 (typed zbase32 (page_verdict c.now size number)) out.old out.new result }
{
    write_text(text::zbase32_write, c, size, number, out)
}
