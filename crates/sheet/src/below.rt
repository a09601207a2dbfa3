// The lines to type of a page, as they are printed (R15.4): those that `typed` writes, each in
// groups, and a line feed behind each.
ghost use Rattle.std.specs.Prelude.{◌≡◌, ◌+◌, ◌≤◌, length};
ghost use Rattle.digits.specs.Private.{Laid};
ghost use Rattle.typed.specs.Typed.{typed_of};
ghost use Rattle.page.specs.Page.{page_frame};
ghost use Rattle.wire.specs.Writing.{Written};
ghost use Rattle.sheet.specs.Sheet.{printed_lines, to_type, groups_verdict};
ghost use Rattle.sheet.specs.Private.{There, standing, begins, shown, spread};

use wire::Refusal;

// No frame of a page has more bytes, and no typed lines of one.
const FRAME_ROOM: usize = 500;

const TEXT_ROOM: usize = 859;

// Nor have these lines in print: 20 of them, each of 42 characters, 6 spaces and a line feed.
pub(super) const ROOM: usize = 980;

const GROUP: u8 = 6;

// ---- groups

// How many characters of the group stand behind c, where n stood in front of it.
fn stand(n: u8, c: u8) -> u8
    requires { n ≤ 6 }
    ensures { (result ≡ standing n c) × (result ≤ 6) }
{
    if c == b'\n' {
        return 0;
    }
    if n == GROUP {
        return 1;
    }
    n + 1
}

// Whether c begins another group.
fn begins(n: u8, c: u8) -> bool
    ensures { result ≡ begins n c }
{
    c != b'\n' && n == GROUP
}

fn show(out: &mut [u8], at: usize, n: u8, c: u8) -> usize
    requires { at + 2 ≤ length out.old }
    ensures { Laid at 2 (shown n c) out.old out.new result }
{
    if begins(n, c) {
        lend::put(out, at, b' ');
        lend::put(out, at + 1, c);
        return at + 2;
    }
    lend::put(out, at, c);
    at + 1
}

fn groups(text: &[u8], out: &mut [u8], at: usize) -> usize
    requires { at + length (spread 0 text.now) ≤ length out.old }
    ensures { Laid at (length (spread 0 text.now)) (spread 0 text.now) out.old out.new result }
{
    let mut to = at;
    let mut n: u8 = 0;
    for &c in text {
        to = show(out, to, n, c);
        n = stand(n, c);
    }
    lend::put(out, to, b'\n');
    to + 1
}

// ---- the lines of bytes that can be typed, each time where there is room: so nothing is refused

fn spell(bytes: &[u8], out: &mut [u8]) -> usize
    requires { (length bytes.now ≤ 500) × (859 ≤ length out.old) }
    ensures { Laid 0 859 (typed_of bytes.now) out.old out.new result }
{
    typed::write(bytes, out).unwrap()
}

// The lines in print, of any bytes. No bytes are no line, and more than 500 are not typed.
pub(super) fn printed(bytes: &[u8], out: &mut [u8]) -> Result<usize, Refusal>
    ensures { Written 0 (groups_verdict bytes.now) out.old out.new result }
{
    if bytes.len() == 0 {
        return Ok(0);
    }
    if FRAME_ROOM < bytes.len() {
        return Err(Refusal::TooLarge);
    }
    let mut room = [0u8; TEXT_ROOM];
    let mut aside = [0u8; ROOM];
    let len = spell(bytes, &mut room);
    let end = groups(&room[0..len], &mut aside, 0);
    lend::give(&aside[0..end], out)
}

// ---- the lines of a page that there is

fn frame(c: &[u8], size: usize, k: usize, out: &mut [u8]) -> usize
    requires { There c.now size k × (500 ≤ length out.old) }
    ensures { Laid 0 500 (page_frame c.now size k) out.old out.new result }
{
    page::write(c, size, k, out).unwrap()
}

fn text(c: &[u8], size: usize, k: usize, out: &mut [u8]) -> usize
    requires { There c.now size k × (859 ≤ length out.old) }
    ensures { Laid 0 859 (typed_of (page_frame c.now size k)) out.old out.new result }
{
    let mut room = [0u8; FRAME_ROOM];
    let long = frame(c, size, k, &mut room);
    spell(&room[0..long], out)
}

pub(super) fn lines(c: &[u8], size: usize, k: usize, out: &mut [u8], at: usize) -> usize
    requires { There c.now size k × (at + 980 ≤ length out.old) }
    ensures { Laid at 980 (printed_lines (to_type c.now size k)) out.old out.new result }
{
    let mut room = [0u8; TEXT_ROOM];
    let len = text(c, size, k, &mut room);
    groups(&room[0..len], out, at)
}
