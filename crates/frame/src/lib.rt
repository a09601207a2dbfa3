// A single frame, how it is read and how one is laid out: section 6 of docs/RULES.md.
//
// A laid-out frame reads back as its parts (`reads_back`), and a frame that is read is exactly the
// layout of its parts (`only_layouts`).
#![tactic(auto)]

mod fields;
mod form;

ghost use Rattle.std.specs.Prelude.{◌≡◌, ◌+◌};
ghost use Rattle.wire.specs.Answer.{done};
ghost use Rattle.wire.specs.Writing.{Written};
ghost use Rattle.frame.specs.Frame.{frame_of, judged, in_place, in_size};
ghost use Rattle.frame.specs.Kind.{type_byte};
ghost use Rattle.frame.specs.Layout.{layout};
ghost use Rattle.frame.specs.Answer.{told};

use fields::Numbers;
use wire::{Refusal, Span};

// What a frame carries (R6.2).
#[derive(Clone, Copy, Debug, PartialEq, Eq)]
pub enum Kind {
    Main,
    Key,
    Auth,
}

// The type byte.
impl From<Kind> for u8 {
    ghost from_gives = { λ kind b. b ≡ type_byte kind };

    fn from(kind: Kind) -> u8 {
        match kind {
            Kind::Main => 0x44,
            Kind::Key => 0x4B,
            Kind::Auth => 0x41,
        }
    }
}

// Where the id stands in a frame that was read (R6.1).
pub const ID_AT: usize = 4;

pub const ID_END: usize = ID_AT + wire::ID_SIZE;

// What is read of a frame, and where its data stand in the input; the id always stands at ID_AT
// (R6.1).
#[derive(Clone, Copy, Debug, PartialEq, Eq)]
pub struct Frame {
    pub kind: Kind,
    pub index: u64,
    pub total: u64,
    pub at: Span,
}

// Whether the frame is one of its total (R6.6).
fn in_place(kind: Kind, index: u64, total: u64) -> bool
    ensures { result ≡ in_place (type_byte kind) index total }
{
    index < total && (matches!(kind, Kind::Main) || total == 1)
}

// Whether the house takes so many pages, and so much data (R6.7).
fn in_size(total: u64, len: u64) -> bool
    ensures { result ≡ in_size total len }
{
    total <= wire::MOST_PAGES as u64 && len <= wire::MOST_DATA as u64
}

// What is left to judge once every field is there and the CRC is right; the data start at index at.
fn judge(kind: Kind, n: Numbers, at: usize) -> Result<Frame, Refusal>
    ensures { told result ≡ judged (type_byte kind) n at (at + n.len + 4) }
{
    if !in_place(kind, n.index, n.total) {
        return Err(Refusal::BadPlace);
    }
    if !in_size(n.total, n.len) {
        return Err(Refusal::TooLarge);
    }
    Ok(Frame {
        kind,
        index: n.index,
        total: n.total,
        at: Span {
            start: at,
            len: n.len as usize,
        },
    })
}

// Of the frame that s is its type, INDEX, TOTAL and where its data stand; or the first fault from
// left to right, which is 4, then 5 or 7, then 6, then 7, with 3 where s ends too soon or too late;
// after these 10, 8, 9.
pub fn read(s: &[u8]) -> Result<Frame, Refusal>
    ensures { told result ≡ frame_of s.now }
{
    // stays (1): R18.4 wants `let .. else` of the fields, and not `?`
    let r1 = fields::start(s);
    let Ok((kind, a)) = r1 else {
        return Err(r1.unwrap_err());
    };
    let r2 = fields::read_numbers(s, a);
    let Ok((n, b)) = r2 else {
        return Err(r2.unwrap_err());
    };
    let r3 = fields::data_and_sum(s, b, n.len);
    let Ok(_) = r3 else {
        return Err(r3.unwrap_err());
    };
    judge(kind, n, b)
}

// The frame of these parts, whatever they are, at the front of out, and its length; or 11 and
// nothing changed.
//
// stays (1): any byte may be laid as the type, so `kind` is no `Kind` here
pub fn lay(
    kind: u8,
    id: &[u8; wire::ID_SIZE],
    index: u64,
    total: u64,
    contents: &[u8],
    out: &mut [u8],
) -> Result<usize, Refusal>
    ensures { Written 0 (done (layout kind id.now index total contents.now)) out.old out.new result }
{
    form::lay(kind, id, index, total, contents, out)
}
