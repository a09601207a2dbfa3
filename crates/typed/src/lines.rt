// A text is gone through character by character: first whether it may have each of them (R5.12),
// then line by line.
ghost use Rattle.std.specs.Prelude.{◌≡◌, ◌||◌, [], ◌∷◌, ◌+◌, ◌-◌, ◌^◌, ◌≤◌, ◌<◌, length, take};
ghost use Rattle.wire.specs.Answer.{then};
ghost use Rattle.wire.specs.Every.{every};
ghost use Rattle.wire.specs.Over.{over};
ghost use Rattle.typed.specs.Typed.{skipped, plain};
ghost use Rattle.typed.specs.Private.{typable, possible, Fits, held, wrong_after, closed, stepped, step_told, Going, ran, start, ending, gathered_told, Ample};

use super::check;
use wire::{Refusal, RefusedAt};

// The data of all lines.
pub(super) const DATA_ROOM: usize = 800;

const FEED: u8 = b'\n';

// Whether a text may have this character; a line by itself may have no line feed.
#[tactic(auto, unfolding(crate::specs::Private::typable, crate::specs::Typed::is_letter))]
fn may(c: u8, feeds: bool) -> bool
    ensures { result ≡ (skipped c || typable feeds c) }
{
    super::skipped(c) || feeds && c == FEED || text::zbase32_value(c) < 32
}

// Whether a text may have all its characters.
pub(super) fn spelt(text: &[u8], feeds: bool) -> bool
    ensures { result ≡ every (λ c. skipped c || typable feeds c) text.now }
{
    text.iter().all(|c| may(*c, feeds))
}

// The character is put behind n others, unless it is skipped. Answers how many there are then.
fn keep(kept: &mut [u8], n: usize, c: u8) -> usize
    requires { n + 1 < 2 ^ 64 }
    ensures { (result ≡ n + length (plain (c ∷ []))) × (kept.new ≡ over n (plain (c ∷ [])) kept.old) }
{
    if super::skipped(c) {
        return n;
    }
    lend::put(kept, n, c);
    n + 1
}

// The number of the characters that are not skipped; they stand at the front of kept where there is
// room for all.
pub(super) fn squeeze(text: &[u8], kept: &mut [u8]) -> usize
    ensures { (result ≡ length (plain text.now)) × (result ≤ length kept.new → take result kept.new ≡ plain text.now) }
{
    let mut n = 0;
    for c in text {
        n = keep(kept, n, *c);
    }
    n
}

// Whether a line of this number may have so many characters.
pub(super) fn possible(number: u8, last: bool, n: usize) -> bool
    ensures { result ≡ possible last number n }
{
    if number < 1 {
        return false;
    }
    if super::MOST_LINES < number {
        return false;
    }
    if last {
        return (3 <= n) & (n <= super::FULL_LINE);
    }
    n == super::FULL_LINE
}

// What has been read so far: the number of this line and how many characters it has; the number of
// the first line whose check is wrong, if one is; and how many characters of data the lines before
// have.
#[derive(Clone, Copy)]
pub struct Typing {
    pub n: u8,
    pub at: usize,
    pub wrong: Option<u8>,
    pub made: usize,
}

// The number of the first wrong line, once this one has ended.
fn first_wrong(t: Typing, line: &[u8]) -> Option<u8>
    requires { Fits t × (2 ≤ t.at) × (length line.now ≡ 42) }
    ensures { result ≡ wrong_after t.n t.wrong (take t.at line.now) }
{
    if t.wrong.is_some() {
        return t.wrong;
    }
    if check::right(t.n, &line[..t.at]) {
        return None;
    }
    Some(t.n)
}

// The line ends.
fn close(t: Typing, line: &[u8], contents: &mut [u8]) -> Typing
    requires { Fits t × (2 ≤ t.at) × (length line.now ≡ 42) × (length contents.old ≡ 800) }
    ensures { (held result line.now contents.new ≡ closed (held t line.now contents.old)) × (result.at ≡ 0) × (result.n ≡ t.n + 1) × (result.made ≡ t.made + (t.at - 2)) }
{
    let wrong = first_wrong(t, line);
    let len = t.at - 2;
    lend::copy(contents, t.made, &line[..len]);
    Typing {
        n: t.n + 1,
        at: 0,
        wrong,
        made: t.made + len,
    }
}

// One character more; or 2 for a line that has another number of characters than it may have, or is
// one too many.
fn feed(t: Typing, c: u8, line: &mut [u8], contents: &mut [u8]) -> Result<Typing, Refusal>
    requires { Fits t × (length line.old ≡ 42) × (length contents.old ≡ 800) }
    ensures { (step_told result line.new contents.new ≡ stepped (held t line.old contents.old) c) × Going result }
{
    if c == FEED {
        if t.at < super::FULL_LINE {
            return Err(Refusal::BadTextLength);
        }
        if super::MOST_LINES <= t.n {
            return Err(Refusal::BadTextLength);
        }
        return Ok(close(t, line, contents));
    }
    if super::skipped(c) {
        return Ok(t);
    }
    let at = t.at;
    if super::FULL_LINE <= at {
        return Err(Refusal::BadTextLength);
    }
    line[at] = c;
    Ok(Typing { at: at + 1, ..t })
}

// All characters of the text.
fn run(text: &[u8], line: &mut [u8], contents: &mut [u8]) -> Result<Typing, Refusal>
    requires { (length line.old ≡ 42) × (length contents.old ≡ 800) }
    ensures { (step_told result line.new contents.new ≡ ran (start 1) text.now) × Going result }
{
    let mut t = Typing {
        n: 1,
        at: 0,
        wrong: None,
        made: 0,
    };
    for c in text {
        t = feed(t, *c, line, contents)?;
    }
    Ok(t)
}

// The data of all lines, in front of the buffer, and how many characters they are; or 2, or 23 with
// the number of the first line whose check is wrong.
pub(super) fn gather(text: &[u8], contents: &mut [u8]) -> Result<usize, RefusedAt>
    requires { length contents.old ≡ 800 }
    ensures { (gathered_told result contents.new ≡ then (ran (start 1) text.now) ending) × Ample result }
{
    let mut line = [0u8; super::FULL_LINE];
    let typing = run(text, &mut line, contents)?;
    if typing.at < 3 {
        return Err(RefusedAt::from(Refusal::BadTextLength));
    }
    let end = close(typing, &line, contents);
    match end.wrong {
        Some(first) => Err(RefusedAt {
            why: Refusal::Mistyped,
            place: first,
        }),
        None => Ok(end.made),
    }
}
