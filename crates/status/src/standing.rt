// Where a collection stands, as numbers, and how each of its pages stands: R16.3.
ghost use Rattle.std.specs.Prelude.{◌≡◌, map, ◌≤◌, length};
ghost use Rattle.wire.specs.Answer.{Kept};
ghost use Rattle.wire.specs.Over.{over};
ghost use Rattle.wire.specs.Sizes.{most_pages};
ghost use Rattle.block.specs.Block.{state_of};
ghost use Rattle.book.specs.Read.{read_pages};
ghost use Rattle.wire.specs.Reading.{told};
ghost use Rattle.status.specs.Numbers as N;

use block::PageState;
use book::tally;
use wire::Refusal;

// What an offer answers of totals that disagree (R9.5), said of the collection.
const DISAGREE: u8 = 3;

#[derive(Clone, Copy, Debug, PartialEq, Eq)]
pub struct Numbers {
    // stays (1): `NumbersAre` of Demand 3 and C speak of this number.
    //
    // 3 where the totals disagree, else 0.
    pub stands: u8,
    pub total: u8,
    // Of the pages below the total.
    pub held: u8,
    pub missing: u8,
    pub disputed: u8,
}

// The pages below the total, counted by their state.
pub(super) fn below(c: &[u8], total: u8) -> Numbers
    ensures { result ≡ N.below total (read_pages 0 total c.now) }
{
    Numbers {
        stands: 0,
        total,
        held: tally::count(c, total, u8::from(PageState::Held)),
        missing: tally::count(c, total, u8::from(PageState::Absent)),
        disputed: tally::count(c, total, u8::from(PageState::Disputed)),
    }
}

// The state of each page in front of out.
fn states(c: &[u8], out: &mut [u8])
    requires { most_pages ≤ length out.old }
    ensures { out.new ≡ over 0 (map state_of (read_pages 0 most_pages c.now)) out.old }
{
    for k in 0..book::PAGES {
        lend::put(
            out,
            usize::from(k),
            u8::from(block::state(c, book::place(k))),
        );
    }
}

// The total of c and how many pages below it are held, missing and disputed, or that its totals
// disagree; and in the first 96 bytes of out how each page stands. Or 13, then 11, and nothing
// changed.
pub fn of(c: &[u8], out: &mut [u8]) -> Result<Numbers, Refusal>
    ensures { Kept (N.standing c.now out.old) out.old out.new (told result) }
{
    book::judge(c)?;
    if out.len() < wire::MOST_PAGES {
        return Err(Refusal::NoRoom);
    }
    states(c, out);
    let mut numbers = below(c, book::total(c));
    if book::state(c) == book::DISAGREE {
        numbers.stands = DISAGREE;
    }
    Ok(numbers)
}
