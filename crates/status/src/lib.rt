// Where a collection stands: as a line, R9.12 and R9.13, and as numbers (standing, R16.3).
#![tactic(auto)]

pub mod standing;

ghost use Rattle.std.specs.Prelude.{◌≡◌, ◌+◌, ◌≤◌, length};
ghost use Rattle.wire.specs.Over.{over};
ghost use Rattle.wire.specs.Answer.{done};
ghost use Rattle.wire.specs.Writing.{Written};
ghost use Rattle.book.specs.Read.{read_pages};
ghost use Rattle.status.specs.Line.{field, first_field, pages_line, status_line};

use block::PageState;
use book::tally;
use digits::refused_line;
use wire::Refusal;

// Room for the longest line.
const ROOM: usize = 64;

// A name and a number, from index at on. Answers the index behind them.
fn named(out: &mut [u8], at: usize, name: &[u8], n: u8) -> usize
    requires { at + length name.now + 3 ≤ length out.old }
    ensures { (result ≡ at + length (field name.now n)) × (result ≤ at + length name.now + 3) × (out.new ≡ over at (field name.now n) out.old) }
{
    lend::copy(out, at, name);
    let number = at + name.len();
    number + digits::decimal(out, number, n)
}

// The lowest missing page, or a dash (R9.12), from index at on. Answers the index behind it.
fn first(out: &mut [u8], at: usize, lowest: u8, total: u8) -> usize
    requires { at + 10 ≤ length out.old }
    ensures { (result ≡ at + length (first_field lowest total)) × (result ≤ at + 10) × (out.new ≡ over at (first_field lowest total) out.old) }
{
    if lowest < total {
        return named(out, at, b" first ", lowest);
    }
    lend::copy(out, at, b" first -");
    at + 8
}

// The line of a collection that has pages (R9.12).
fn pages_line(c: &[u8], total: u8, out: &mut [u8]) -> Result<usize, Refusal>
    ensures { Written 0 (done (pages_line total (read_pages 0 total c.now))) out.old out.new result }
{
    let n = standing::below(c, total);
    let lowest = tally::lowest(c, total, u8::from(PageState::Absent));
    let mut room = [0u8; ROOM];
    // stays (6): no heap, so no String; a struct of the room and its length would need a clause on
    // what stands in front at each call, and here each position is the next one's argument.
    let a = named(&mut room, 0, b"pages ", total);
    let b = named(&mut room, a, b" held ", n.held);
    let d = named(&mut room, b, b" missing ", n.missing);
    let e = named(&mut room, d, b" disputed ", n.disputed);
    let f = first(&mut room, e, lowest, total);
    lend::put(&mut room, f, b'\n');
    let end = f + 1;
    lend::give(&room[0..end], out)
}

// The status line of c, whatever its bytes are, at the front of out, and its length; or 11 and
// nothing changed.
pub fn status(c: &[u8], out: &mut [u8]) -> Result<usize, Refusal>
    ensures { Written 0 (done (status_line c.now)) out.old out.new result }
{
    if let Err(why) = book::judge(c) {
        return refused_line(u8::from(why), out);
    }
    match book::state(c) {
        book::EMPTY => lend::give(b"empty\n", out),
        book::COLLECTING => pages_line(c, book::total(c), out),
        _ => lend::give(b"totals disagree\n", out),
    }
}
