// Typed lines are laid aside first, and given where there is room for all of them.
ghost use Rattle.std.specs.Prelude.{◌≡◌, ◌+◌, ◌-◌, ◌≤◌, ◌<◌, min, length, drop};
ghost use Rattle.digits.specs.Private.{Laid};
ghost use Rattle.wire.specs.Answer.{done};
ghost use Rattle.wire.specs.Writing.{Written};
ghost use Rattle.typed.specs.Typed.{rows, with_check, numbered, fed, parted, typed_of};

use super::check;
use wire::Refusal;

// The bytes of a full page's frame, their characters, and the lines of those.
pub(super) const MOST_TYPED: usize = 500;

const TEXT_ROOM: usize = 800;

const LINES_ROOM: usize = 859;

const ROW: usize = 40;

// A line: its data and its check. Answers the index behind it.
fn line(out: &mut [u8], at: usize, number: u8, contents: &[u8]) -> usize
    requires { (length contents.now ≤ 40) × (at + length contents.now + 2 ≤ length out.old) }
    ensures { Laid at 42 (with_check number contents.now) out.old out.new result }
{
    let end = at + contents.len();
    lend::copy(out, at, contents);
    lend::copy(out, end, &check::letters(number, contents));
    end + 2
}

// Where a row ends that begins here.
fn row_end(from: usize, len: usize) -> usize
    requires { from ≤ len }
    ensures { result ≡ from + min 40 (len - from) }
{
    from + ROW.min(len - from)
}

// The lines of the characters from index first on, each behind a line feed. Answers the index
// behind them.
fn further(chars: &[u8], first: usize, out: &mut [u8], start: usize) -> usize
    requires { (length chars.now ≤ 800) × (first ≤ length chars.now) × (first < length chars.now → first ≡ 40) × (start + 1 ≤ 43) × (859 ≤ length out.old) }
    ensures { Laid start 859 (fed (numbered 2 (rows 19 (drop first chars.now)))) out.old out.new result × (result ≤ 859) }
{
    let mut at = start;
    let mut number: u8 = 1;
    for row in chars[first..].chunks(ROW) {
        number += 1;
        lend::put(out, at, b'\n');
        at = line(out, at + 1, number, row);
    }
    at
}

// All lines of so many characters, from the front of out on. Answers how many bytes they are.
fn lines(chars: &[u8], out: &mut [u8]) -> usize
    requires { (length chars.now ≤ 800) × (859 ≤ length out.old) }
    ensures { Laid 0 859 (parted (numbered 1 (rows 20 chars.now))) out.old out.new result }
{
    if chars.is_empty() {
        return 0;
    }
    let first = row_end(0, chars.len());
    let start = line(out, 0, 1, &chars[..first]);
    further(chars, first, out, start)
}

pub(super) fn whole(src: &[u8], out: &mut [u8]) -> Result<usize, Refusal>
    requires { length src.now ≤ 500 }
    ensures { Written 0 (done (typed_of src.now)) out.old out.new result }
{
    let mut chars = [0u8; TEXT_ROOM];
    let len = text::zbase32_write(src, &mut chars)?;
    let mut aside = [0u8; LINES_ROOM];
    let end = lines(&chars[..len], &mut aside);
    lend::give(&aside[..end], out)
}
