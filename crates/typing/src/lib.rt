// What `typist` does with the typed lines of one page (R15.14, R15.15): the scan of the page that
// they are, or what is wrong with them and on which line.
//
// What is told has the number that `typing::scan` answers (`told_number`), and a line that is told
// as mistyped is the one that the reader names with 23 (`mistyped_line`: typing, Numbers).
#![tactic(auto)]

mod faults;
mod lay;

ghost use Rattle.std.specs.Prelude.{◌≡◌, ◌≤◌, length};
ghost use Rattle.wire.specs.Answer.{done};
ghost use Rattle.wire.specs.Writing.{Written};
ghost use Rattle.typed.specs.Typed.{ReadLines};
ghost use Rattle.frame.specs.Frame.{frame_of};
ghost use Rattle.typing.specs.Typing.{scan_of, frame_fault, fault_of, line_fault};
ghost use Rattle.typing.specs.Words.{fault_words};
ghost use Rattle.typing.specs.Private.{framed};

use wire::{Refusal, RefusedAt};

// What is wrong with the lines of a page, or with one line (R15.14).
#[derive(Clone, Copy)]
pub enum Fault {
    // Nothing: the page is a good frame, the line a right one.
    //
    // stays (1): `words` takes it and has no words, and `fault_of` and `told_number` speak of it.
    Good,
    // There are no lines.
    Nothing,
    // The line has a character that is neither of the alphabet nor skipped.
    Letter { line: usize },
    // The line has so many characters, and may not have so many: as the last one of the page, or as
    // one that another follows.
    Count { line: u8, count: usize, last: bool },
    // There is a 21st line.
    Surplus,
    // The line's check is wrong.
    Mistyped { line: u8 },
    // Each line is right, but the bytes of all are no good frame, or the lines do not end as bytes
    // do: the number of the refusal.
    // stays (1): `frame_fault` and `told_number` speak of any number, and no `Refusal` has each
    Whole { no: u8 },
}

// No page has more characters of data, nor a frame that is typed more bytes.
const ROOM: usize = 800;

// Room for every scan: the text of so many bytes in base64, and the line feed.
pub const SCAN_ROOM: usize = 1068;

// Room for all words of a fault.
pub const WORDS_ROOM: usize = 160;

// The scan of bytes that are a frame.
fn framed(bytes: &[u8], out: &mut [u8]) -> Result<usize, RefusedAt>
    requires { length bytes.now ≤ 800 }
    ensures { ReadLines (framed bytes.now) out.old out.new result }
{
    let _frame = frame::read(bytes)?;
    let mut scan = [0u8; SCAN_ROOM];
    let len = lay::scan(bytes, &mut scan);
    let given = lend::give(&scan[..len], out)?;
    Ok(given)
}

// The scan of the page whose typed lines these are, base64 and a line feed, at the front of out,
// and its length; or the refusal of `typed::read`, with its line, then that of `frame::read`, then
// 11, and nothing changed.
pub fn scan(text: &[u8], out: &mut [u8]) -> Result<usize, RefusedAt>
    ensures { ReadLines (scan_of text.now) out.old out.new result }
{
    let mut bytes = [0u8; ROOM];
    let len = typed::read(text, &mut bytes)?;
    framed(&bytes[..len], out)
}

fn whole(bytes: &[u8]) -> Fault
    ensures { result ≡ frame_fault (frame_of bytes.now) }
{
    match frame::read(bytes) {
        Ok(_) => Fault::Good,
        Err(why) => Fault::Whole { no: u8::from(why) },
    }
}

// What is wrong with the lines of a page, of the first kind that there is, and on which line.
pub fn page_fault(text: &[u8]) -> Fault
    ensures { result ≡ fault_of text.now }
{
    if text.is_empty() {
        return Fault::Nothing;
    }
    let mut bytes = [0u8; ROOM];
    match typed::read(text, &mut bytes) {
        Ok(len) => whole(&bytes[..len]),
        Err(refused) => match refused.why {
            Refusal::BadCharacter => Fault::Letter {
                line: faults::odd_line(text),
            },
            Refusal::BadTextLength => faults::count(text),
            _ => Fault::Mistyped {
                line: refused.place,
            },
        },
    }
}

// What is wrong with one line, which has this number and may be the last of its page.
pub fn line_fault(text: &[u8], number: u8) -> Fault
    ensures { result ≡ line_fault number text.now }
{
    match typed::line(text, number, true) {
        Ok(()) => Fault::Good,
        Err(r) => match r.why {
            Refusal::BadCharacter => Fault::Letter {
                line: usize::from(number),
            },
            Refusal::BadTextLength => Fault::Count {
                line: number,
                count: typed::counted(text),
                last: true,
            },
            _ => Fault::Mistyped { line: r.place },
        },
    }
}

// What is wrong, in words, as one line at the front of out, and its length; or 11 and nothing
// changed. Where nothing is wrong there are no words.
pub fn words(fault: Fault, out: &mut [u8]) -> Result<usize, Refusal>
    ensures { Written 0 (done (fault_words fault)) out.old out.new result }
{
    let mut aside = [0u8; WORDS_ROOM];
    let len = lay::words(fault, &mut aside);
    lend::give(&aside[..len], out)
}
