// Typed lines: what a person types where no square can be read (R5.8 to R5.14). Each line ends with
// two characters of its own that check the others and the line's place, so a slip of the hand is
// told with the line that it is on.
//
// Both round trips are in proofs/Round.antt (`read_written`, `Written-Read`). Which slips are
// always found is in proofs/Slips.antt: one character for another, two exchanged, and two lines in
// each other's place.
#![tactic(auto)]

mod check;
mod lay;
mod lines;

ghost use Rattle.std.specs.Prelude.{◌≡◌, length};
ghost use Rattle.wire.specs.Reading.{told_at};
ghost use Rattle.wire.specs.Writing.{Written};
ghost use Rattle.typed.specs.Typed.{skipped, plain, read_typed, read_line, write_typed, ReadLines};

use wire::{Refusal, RefusedAt};

// A page has at most so many lines.
pub const MOST_LINES: u8 = 20;

// A full line has so many characters, its check among them.
pub const FULL_LINE: usize = 42;

// Whether a character between the others is skipped: the space, the tab and the dash are.
#[tactic(auto, unfolding(crate::specs::Typed::skipped))]
pub fn skipped(c: u8) -> bool
    ensures { result ≡ skipped c }
{
    matches!(c, b' ' | b'\t' | b'-')
}

// The bytes of typed lines at the front of out, and their number; or, each over the whole text, 1
// for a character, 2 for a line that is too long or too short and for a 21st, 23 with the number of
// the first line whose check is wrong; then 2 where the data does not end as bytes do, 11; and
// nothing changed.
pub fn read(text: &[u8], out: &mut [u8]) -> Result<usize, RefusedAt>
    ensures { ReadLines (read_typed text.now) out.old out.new result }
{
    if text.is_empty() {
        return Ok(0);
    }
    if !lines::spelt(text, true) {
        return Err(RefusedAt::from(Refusal::BadCharacter));
    }
    let mut contents = [0u8; lines::DATA_ROOM];
    let len = lines::gather(text, &mut contents)?;
    let written = text::zbase32_read(&contents[..len], out)?;
    Ok(written)
}

// The typed lines of all bytes of src at the front of out, and their length; or 9 for more than 500
// bytes, 11, and nothing changed.
pub fn write(src: &[u8], out: &mut [u8]) -> Result<usize, Refusal>
    ensures { Written 0 (write_typed src.now) out.old out.new result }
{
    if lay::MOST_TYPED < src.len() {
        return Err(Refusal::TooLarge);
    }
    lay::whole(src, out)
}

// Whether a text is the line of this number, as the last of its page or as one that another
// follows; or 1, 2 or 23 as `typed::read` judges it. No line has the number 0 or one above 20: 2.
pub fn line(text: &[u8], number: u8, last: bool) -> Result<(), RefusedAt>
    ensures { told_at result ≡ read_line last number text.now }
{
    if !lines::spelt(text, false) {
        return Err(RefusedAt::from(Refusal::BadCharacter));
    }
    let mut kept = [0u8; FULL_LINE];
    let n = lines::squeeze(text, &mut kept);
    if !lines::possible(number, last, n) {
        return Err(RefusedAt::from(Refusal::BadTextLength));
    }
    if !check::right(number, &kept[..n]) {
        return Err(RefusedAt {
            why: Refusal::Mistyped,
            place: number,
        });
    }
    Ok(())
}

// How many characters of a text count: all but spaces, tabs and dashes.
pub fn counted(text: &[u8]) -> usize
    ensures { result ≡ length (plain text.now) }
{
    let mut none = [0u8; 0];
    lines::squeeze(text, &mut none)
}
