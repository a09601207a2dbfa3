// What `wardens` does with what it is given (R15.17 to R15.20): the slips in an input, each of them
// read, and the digits of a key or a signature.
#![tactic(auto)]

mod places;
mod reading;

ghost use Rattle.std.specs.Prelude.{◌≡◌, ◌==◌, ◌+◌, length};
ghost use Rattle.std.specs.List.{position};
ghost use Rattle.wire.specs.Writing.{Written};
ghost use Rattle.slips.specs.Standing.{lines_from, first_line, next_from, feeds};
ghost use Rattle.slips.specs.Slip.{slip_seen, Told};
ghost use Rattle.slips.specs.Repeats.{repeat_of};
ghost use Rattle.slips.specs.Digits.{sized_hex};

use frame::Kind;
use shard::Quorum;
use wire::{Refusal, RefusedAt, Span};

// Where a slip stands in an input, and whether it is typed lines or else a scan.
#[derive(Clone, Copy, Debug, PartialEq, Eq)]
pub struct Slip {
    pub start: usize,
    pub len: usize,
    pub typed: bool,
}

// A slip that was read: how long its frame is, where in it the payload stands, and which share it
// is of how many.
#[derive(Clone, Copy, Debug, PartialEq, Eq)]
pub struct Share {
    pub len: usize,
    pub payload: Span,
    pub quorum: Quorum,
}

// What a text is that should be a slip, and is none.
#[derive(Clone, Copy, Debug, PartialEq, Eq)]
pub enum NoSlip {
    // No text: 1 or 2, or 23 with the mistyped line, from 1; or 11 where it has more bytes than any
    // frame.
    Text(RefusedAt),
    // No frame.
    Frame(Refusal),
    // A frame of another type than a slip's.
    Other(Kind),
    // A key frame with no shard in it.
    Shard(Refusal),
    // A slip, but the lent output is too short for its frame.
    Short,
}

// Where the line ends that begins at the index: at its line feed, or with the input.
pub fn line_end(s: &[u8], at: usize) -> usize
    ensures { result ≡ at + length (first_line (lines_from s.now at)) }
{
    places::line_end(s, at)
}

// The first slip from the index on, where a line begins. A line without characters that count parts
// slips, typed lines that follow each other are one slip, and a longer line is a scan.
pub fn next(s: &[u8], at: usize) -> Option<Slip>
    ensures { result ≡ next_from s.now at }
{
    places::next(s, at)
}

// How many line feeds there are: what stands behind these bytes is on a line with this number, from
// 0 on.
pub fn feeds(s: &[u8]) -> usize
    ensures { result ≡ feeds s.now }
{
    s.iter().filter(|c| **c == b'\n').count()
}

// The frame of a slip at the front of out, and where in it the payload stands; or what the text is
// instead, and nothing changed. What is no text, no frame, no key frame and no shard is told in
// this order, and a short output last.
pub fn read(text: &[u8], typed: bool, out: &mut [u8]) -> Result<Share, NoSlip>
    ensures { Told (slip_seen typed text.now) out.old out.new result }
{
    reading::read(text, typed, out)
}

// The first place of a number.
fn place(s: &[u8], x: u8) -> Option<usize>
    ensures { result ≡ position (λ y. x == y) s.now }
{
    s.iter().position(|y| x == *y)
}

// The first number of a list that was there before: where that was first, and where it is again.
pub fn repeated(s: &[u8]) -> Option<(usize, usize)>
    ensures { result ≡ repeat_of s.now }
{
    for (j, x) in s.iter().enumerate() {
        if let Some(i) = place(&s[..j], *x) {
            return Some((i, j));
        }
    }
    None
}

// So many bytes, as lower-case hex digits say them, at the front of out; or 19 where they are not
// exactly so many digits, then 11, and nothing changed.
pub fn hex(text: &[u8], size: usize, out: &mut [u8]) -> Result<usize, Refusal>
    ensures { Written 0 (sized_hex size text.now) out.old out.new result }
{
    if text.len() / 2 != size {
        return Err(Refusal::OutOfRange);
    }
    digits::hex_read(text, out)
}
