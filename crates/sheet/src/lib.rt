// A document as it is printed (R15.4). One form is what the small program reads back, the other the
// lines that are typed where no square can be read.
//
// What is printed of a page reads back as its frame (`scan_reads`, `typed_reads`: sheet, Reading),
// no line has a line feed inside, and with `sheet::ROOM` bytes lent 11 is never the answer
// (`scan_room`, `typed_room`, `place_room`: sheet, Lengths; `refusal_room`: sheet, Refusals). The
// id's line reads back as the document's id (`press_id`: promises, Printed).
#![tactic(auto)]

mod below;

ghost use Rattle.std.specs.Prelude.{List, ℕ, ◌≡◌, ◌+◌, ◌*◌, ◌≤◌, ◌<◌, ltb, length};
ghost use Rattle.digits.specs.Private.{Laid};
ghost use Rattle.wire.specs.Over.{over};
ghost use Rattle.wire.specs.Answer.{done, demand};
ghost use Rattle.wire.specs.Sizes.{most_pages};
ghost use Rattle.wire.specs.Writing.{Written};
ghost use Rattle.digits.specs.Decimal.{numeral};
ghost use Rattle.text.specs.Text.{base64, text_of};
ghost use Rattle.page.specs.Page.{count_of, page_frame};
ghost use Rattle.sheet.specs.Sheet.{id_line, place_line, scan_line, scan_verdict, typed_verdict, groups_verdict, typed_lines, place_verdict};
ghost use Rattle.sheet.specs.Private.{There, sheet_of, sheet_verdict};
ghost use Rattle.sheet.specs.Word.{asked_of};
ghost use Rattle.sheet.specs.Words.{given_words, large_words, reason_words, refusal_words};

use wire::Refusal;

// The line of the document id: 16 digits and the line feed.
const ID_LINE: usize = 17;

// No text of a code square has more characters.
const SCAN_ROOM: usize = 667;

// `page 95 of 96` and its line feed.
const PLACE_LINE: usize = 14;

// No page's lines have more bytes.
const PAGE_ROOM: usize = PLACE_LINE + below::ROOM;

// Room for every sheet.
pub const ROOM: usize = ID_LINE + wire::MOST_PAGES * PAGE_ROOM;

// Room for every line of a refusal.
const REFUSAL_ROOM: usize = 200;

// ---- the parts of a line

fn id_line(c: &[u8], out: &mut [u8])
    requires { 17 ≤ length out.old }
    ensures { out.new ≡ over 0 (id_line c.now) out.old }
{
    let id = document_id::of(c);
    digits::hex(out, 0, &id);
    lend::put(out, ID_LINE - 1, b'\n');
}

// `page K of N` (R15.4). Answers the index behind the line, as all functions with an index do here.
fn place(out: &mut [u8], at: usize, k: u8, n: u8) -> usize
    requires { (k < 100) × (n < 100) × (at + 14 ≤ length out.old) }
    ensures { Laid at 14 (place_line k n) out.old out.new result }
{
    lend::copy(out, at, b"page ");
    let after = at + 5 + digits::decimal(out, at + 5, k);
    lend::copy(out, after, b" of ");
    let end = after + 4 + digits::decimal(out, after + 4, n);
    lend::put(out, end, b'\n');
    end + 1
}

// ---- the lines of a page

// The text of the code square of a page that there is, at the front of out, where there is room: so
// it is not refused.
fn square(c: &[u8], size: usize, k: usize, out: &mut [u8]) -> usize
    requires { There c.now size k × (667 ≤ length out.old) }
    ensures { Laid 0 667 (text_of base64 (page_frame c.now size k)) out.old out.new result }
{
    page::write_base64(c, size, k, out).unwrap()
}

fn scan_line(c: &[u8], size: usize, k: usize, out: &mut [u8], at: usize) -> usize
    requires { There c.now size k × (at + 668 ≤ length out.old) }
    ensures { Laid at 668 (scan_line c.now size k) out.old out.new result }
{
    let mut line = [0u8; SCAN_ROOM];
    let len = square(c, size, k, &mut line);
    lend::copy(out, at, &line[0..len]);
    lend::put(out, at + len, b'\n');
    at + len + 1
}

// What is printed of a page, of the n that there are.
trait Lines {
    ghost of: { List ℕ → ℕ → ℕ → List ℕ };

    fn lines(c: &[u8], size: usize, k: usize, n: usize, out: &mut [u8], at: usize) -> usize
        requires { (done n ≡ count_of (length c.now) size) × (k < n) × (at + 994 ≤ length out.old) }
        ensures { Laid at 994 (of c.now size k) out.old out.new result };
}

// The text of its code square, base64 (R15.4).
struct Scanned;

// What is typed that stands below the square: its place, and its typed lines (R15.4).
struct ByHand;

impl Lines for Scanned {
    ghost of = { scan_line };

    fn lines(c: &[u8], size: usize, k: usize, _: usize, out: &mut [u8], at: usize) -> usize {
        scan_line(c, size, k, out, at)
    }
}

impl Lines for ByHand {
    ghost of = { typed_lines };

    fn lines(c: &[u8], size: usize, k: usize, n: usize, out: &mut [u8], at: usize) -> usize {
        let next = place(out, at, k as u8, n as u8);
        below::lines(c, size, k, out, next)
    }
}

// ---- a whole sheet

// The id and all pages, from the front of out on. Answers how many bytes they are.
fn lay<L: Lines>(c: &[u8], size: usize, n: usize, out: &mut [u8]) -> usize
    requires { (done n ≡ count_of (length c.now) size) × (17 + most_pages * 994 ≤ length out.old) }
    ensures { Laid 0 (17 + most_pages * 994) (sheet_of L.of c.now size) out.old out.new result }
{
    id_line(c, out);
    let mut at = ID_LINE;
    for k in 0..n {
        at = L::lines(c, size, k, n, out, at);
    }
    at
}

// The sheet is laid aside first, and given where there is room for all of it.
//
// The room aside is made before anything is tested. With the test in front, the kit's LLVM at -O3
// put the test before the stack frame too, and making so large a frame it overwrote the register
// that held the length of c: every document was too large.
//
// Out of line: each form has a room of its own, and where both were inlined into one caller that
// had 95 kB more of stack in every run, also where it prints neither.
#[inline(never)]
fn sheet<L: Lines>(c: &[u8], size: usize, out: &mut [u8]) -> Result<usize, Refusal>
    ensures { Written 0 (sheet_verdict L.of c.now size) out.old out.new result }
{
    let mut aside = [0u8; ROOM];
    let n = page::count(c.len(), size)?;
    let len = lay::<L>(c, size, n, &mut aside);
    lend::give(&aside[0..len], out)
}

// The lines of page k; 8 where the document has no such page (R7.4).
fn one(c: &[u8], size: usize, k: usize, n: usize, out: &mut [u8]) -> Result<usize, Refusal>
    requires { done n ≡ count_of (length c.now) size }
    ensures { Written 0 (demand (ltb k n) 8 (done (typed_lines c.now size k))) out.old out.new result }
{
    if n <= k {
        return Err(Refusal::BadPlace);
    }
    let mut aside = [0u8; PAGE_ROOM];
    let len = ByHand::lines(c, size, k, n, &mut aside, 0);
    lend::give(&aside[0..len], out)
}

// The document id and a base64 line for each page of this size, at the front of out, and their
// length; or 19, 9, 11, and nothing changed.
pub fn scans(c: &[u8], size: usize, out: &mut [u8]) -> Result<usize, Refusal>
    ensures { Written 0 (scan_verdict c.now size) out.old out.new result }
{
    sheet::<Scanned>(c, size, out)
}

// The typed lines of bytes, each in groups of six characters and with a line feed behind it, at the
// front of out, and their length; or 9 for more than 500 bytes, 11, and nothing changed.
pub fn in_groups(bytes: &[u8], out: &mut [u8]) -> Result<usize, Refusal>
    ensures { Written 0 (groups_verdict bytes.now) out.old out.new result }
{
    below::printed(bytes, out)
}

// The document id, and for each page of this size its place and its typed lines in groups of six
// characters, at the front of out, and their length; or 19, 9, 11, and nothing changed.
pub fn typed(c: &[u8], size: usize, out: &mut [u8]) -> Result<usize, Refusal>
    ensures { Written 0 (typed_verdict c.now size) out.old out.new result }
{
    sheet::<ByHand>(c, size, out)
}

// The place and the typed lines of page k of this size alone, without the id, at the front of out,
// and their length; or 19, 9, 8, 11, and nothing changed.
pub fn typed_page(c: &[u8], size: usize, k: usize, out: &mut [u8]) -> Result<usize, Refusal>
    ensures { Written 0 (place_verdict c.now size k) out.old out.new result }
{
    let n = page::count(c.len(), size)?;
    one(c, size, k, n, out)
}

// The number that a word of decimal digits says, `most` where it is more; none where the word is no
// number (R15.5).
pub fn number_asked(word: &[u8], most: u16) -> Option<u16>
    ensures { result ≡ asked_of most word.now }
{
    if word.len() == 0 {
        return None;
    }
    let mut n: u32 = 0;
    for &b in word {
        if !b.is_ascii_digit() {
            return None;
        }
        n = (n * 10 + u32::from(b - b'0')).min(u32::from(most));
    }
    Some(n as u16)
}

// ---- the words beside a refusal
// stays (1): any number may be told, so `no` is no `Refusal` in this part

fn say(out: &mut [u8], at: usize, words: &[u8]) -> usize
    requires { at + length words.now ≤ length out.old }
    ensures { Laid at (length words.now) words.now out.old out.new result }
{
    lend::copy(out, at, words);
    at + words.len()
}

fn number(out: &mut [u8], at: usize, n: u64) -> usize
    requires { at + 20 ≤ length out.old }
    ensures { Laid at 20 (numeral n) out.old out.new result }
{
    at + digits::number(out, at, n)
}

fn were_given(out: &mut [u8], at: usize, given: u64) -> usize
    requires { at + 43 ≤ length out.old }
    ensures { Laid at 43 (given_words given) out.old out.new result }
{
    if given == 0 {
        return at;
    }
    let after = number(out, at, given);
    say(out, after, b" bytes were given, and ")
}

fn too_large(out: &mut [u8], at: usize, size: u16, given: u64) -> usize
    requires { at + 186 ≤ length out.old }
    ensures { Laid at 186 (large_words size given) out.old out.new result }
{
    let came = say(out, at, b"too large: ");
    let pages = were_given(out, came, given);
    let each = say(out, pages, b"96 pages of ");
    let hold = number(out, each, size as u64);
    let all = say(out, hold, b" bytes hold ");
    let split = number(out, all, size as u64 * 96);
    say(
        out,
        split,
        b": split the ciphertext, and print each part as a document of its own",
    )
}

fn reason(out: &mut [u8], at: usize, no: u8, size: u16, given: u64) -> usize
    requires { at + 186 ≤ length out.old }
    ensures { Laid at 186 (reason_words no size given) out.old out.new result }
{
    if no == u8::from(Refusal::OutOfRange) {
        return say(
            out,
            at,
            b"nothing was read: give the ciphertext on standard input",
        );
    }
    if no == u8::from(Refusal::TooLarge) {
        return too_large(out, at, size, given);
    }
    if no == u8::from(Refusal::BadPlace) {
        return say(
            out,
            at,
            b"no such page: the document has fewer pages, and the first is page 0",
        );
    }
    say(out, at, b"this cannot be printed")
}

fn refused(out: &mut [u8], no: u8, size: u16, given: u64) -> usize
    requires { 200 ≤ length out.old }
    ensures { Laid 0 200 (refusal_words no size given) out.old out.new result }
{
    let number = say(out, 0, b"refused ");
    let colon = number + digits::decimal(out, number, no);
    let why = say(out, colon, b": ");
    let feed = reason(out, why, no, size, given);
    lend::put(out, feed, b'\n');
    feed + 1
}

// The line that tells a refusal of what is printed in pages of this size, and what to do, at the
// front of out, and its length; or 11 and nothing changed. How many bytes were given is 0 where
// nobody knows.
pub fn refusal(no: u8, size: u16, given: u64, out: &mut [u8]) -> Result<usize, Refusal>
    ensures { Written 0 (done (refusal_words no size given)) out.old out.new result }
{
    let mut aside = [0u8; REFUSAL_ROOM];
    let len = refused(&mut aside, no, size, given);
    lend::give(&aside[0..len], out)
}
