// What the pantry says to a person, line by line, beside the status line (R15.9, R15.10): which
// pages are missing or disputed, how many lines came to what, and what a refusal means. Each public
// function takes any arguments.
#![tactic(auto)]

pub mod pages;
pub mod words;

ghost use Rattle.std.specs.Prelude.{◌≡◌, ◌+◌, ◌≤◌, length, get_or};
ghost use Rattle.wire.specs.Answer.{done};
ghost use Rattle.wire.specs.Writing.{Written};
ghost use Rattle.digits.specs.Private.{Laid};
ghost use Rattle.told.specs.Lines.{counted, counts_line};

use wire::Refusal;

// Room for the line of the counts: the names, five numbers and the line feed.
const ROOM: usize = 180;

fn at(notes: &[u64], k: usize) -> u64
    ensures { result ≡ get_or notes.now k 0 }
{
    notes.get(k).copied().unwrap_or(0)
}

// A name and a number of the notes, from index `from` on. Answers the index behind them.
fn named(out: &mut [u8], from: usize, name: &[u8], notes: &[u64], k: usize) -> usize
    requires { from + length name.now + 20 ≤ length out.old }
    ensures { Laid from (length name.now + 20) (counted name.now notes.now k) out.old out.new result }
{
    lend::copy(out, from, name);
    let number = from + name.len();
    number + digits::number(out, number, at(notes, k))
}

// How many lines came to what, as notes say it, at the front of out, and the line's length; or 11
// and nothing changed.
pub fn lines(notes: &[u64], out: &mut [u8]) -> Result<usize, Refusal>
    ensures { Written 0 (done (counts_line notes.now)) out.old out.new result }
{
    let mut room = [0u8; ROOM];
    let a = named(&mut room, 0, b"lines: taken ", notes, 0);
    let b = named(&mut room, a, b", seen before ", notes, 1);
    let d = named(&mut room, b, b", of another document ", notes, 2);
    let e = named(&mut room, d, b", unreadable ", notes, 3);
    let f = named(&mut room, e, b", too long ", notes, 4);
    lend::put(&mut room, f, b'\n');
    let end = f + 1;
    lend::give(&room[0..end], out)
}
