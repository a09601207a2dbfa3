// Which pages of a collection are missing, and which are disputed (R15.9).
ghost use Rattle.std.specs.Prelude.{◌≡◌, ◌++◌, ◌+◌, ◌≤◌, length};
ghost use Rattle.wire.specs.Answer.{done};
ghost use Rattle.wire.specs.Sizes.{most_pages};
ghost use Rattle.wire.specs.Writing.{Written};
ghost use Rattle.digits.specs.Private.{Laid};
ghost use Rattle.block.specs.Block.{state_number};
ghost use Rattle.block.specs.Read.{read_slot};
ghost use Rattle.book.specs.Read.{page_at, read_pages, book_in};
ghost use Rattle.book.specs.Tally.{in_state};
ghost use Rattle.told.specs.Pages.{entry as entry_of, listed, list_line, list_of, missing_line, disputed_line};

use block::PageState;
use book::tally;
use wire::Refusal;

// Room for a name, 96 pages and the line feed.
const ROOM: usize = 400;

// A space and the number of page k where it is in this state, from index at on. Answers the index
// behind them.
fn entry(c: &[u8], k: u8, state: PageState, out: &mut [u8], at: usize) -> usize
    requires { at + 4 ≤ length out.old }
    ensures { Laid at 4 (entry_of (in_state (state_number state) (read_slot (page_at k c.now))) k) out.old out.new result }
{
    if block::state(c, book::place(k)) != state {
        return at;
    }
    lend::put(out, at, b' ');
    let number = at + 1;
    number + digits::decimal(out, number, k)
}

// The name and the numbers of all pages in this state, from the front on. Answers how many bytes
// they are.
fn entries(c: &[u8], total: u8, state: PageState, name: &[u8], out: &mut [u8]) -> usize
    requires { (total ≤ most_pages) × (length name.now ≤ 9) × (length out.old ≡ 400) }
    ensures { Laid 0 393 (name.now ++ listed (in_state (state_number state)) 0 (read_pages 0 total c.now)) out.old out.new result }
{
    lend::copy(out, 0, name);
    let mut at = name.len();
    for k in 0..total {
        at = entry(c, k, state, out, at);
    }
    at
}

// The line of a collection that has pages; nothing where none is in this state.
fn below(
    c: &[u8],
    total: u8,
    state: PageState,
    name: &[u8],
    out: &mut [u8],
) -> Result<usize, Refusal>
    requires { (total ≤ most_pages) × (length name.now ≤ 9) }
    ensures { Written 0 (done (list_line name.now (in_state (state_number state)) (read_pages 0 total c.now))) out.old out.new result }
{
    if tally::count(c, total, u8::from(state)) == 0 {
        return lend::give(b"", out);
    }
    let mut room = [0u8; ROOM];
    let feed = entries(c, total, state, name, &mut room);
    lend::put(&mut room, feed, b'\n');
    let end = feed + 1;
    lend::give(&room[0..end], out)
}

// The line of any bytes; nothing where they are no collection that has pages.
fn list(c: &[u8], state: PageState, name: &[u8], out: &mut [u8]) -> Result<usize, Refusal>
    requires { length name.now ≤ 9 }
    ensures { Written 0 (done (list_of name.now (in_state (state_number state)) (book_in c.now))) out.old out.new result }
{
    let Ok(_) = book::judge(c) else {
        return lend::give(b"", out);
    };
    if book::state(c) != book::COLLECTING {
        return lend::give(b"", out);
    }
    below(c, book::total(c), state, name, out)
}

// The numbers of all missing pages as a line at the front of out, nothing where no page is missing,
// and its length; or 11 and nothing changed.
pub fn missing(c: &[u8], out: &mut [u8]) -> Result<usize, Refusal>
    ensures { Written 0 (done (missing_line c.now)) out.old out.new result }
{
    list(c, PageState::Absent, b"missing:", out)
}

// The numbers of all disputed pages as a line at the front of out, nothing where no page is
// disputed, and its length; or 11 and nothing changed.
pub fn disputed(c: &[u8], out: &mut [u8]) -> Result<usize, Refusal>
    ensures { Written 0 (done (disputed_line c.now)) out.old out.new result }
{
    list(c, PageState::Disputed, b"disputed:", out)
}
