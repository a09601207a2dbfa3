// The pages of a collection by their state. Each function takes any arguments: an index that has no
// block is absent.
ghost use Rattle.std.specs.Prelude.{◌≡◌};
ghost use Rattle.model.specs.Finish.{lowest, count};
ghost use Rattle.book.specs.Read.{read_pages};
ghost use Rattle.book.specs.Tally.{in_state};

// stays (1): state is any byte, since a PageState would ask more of callers.

// The lowest index below the total whose page is in this state; the total where there is none.
pub fn lowest(c: &[u8], total: u8, state: u8) -> u8
    ensures { result ≡ lowest (in_state state) (read_pages 0 total c.now) }
{
    for k in 0..total {
        if u8::from(block::state(c, super::place(k))) == state {
            return k;
        }
    }
    total
}

// How many pages below the total are in this state.
pub fn count(c: &[u8], total: u8, state: u8) -> u8
    ensures { result ≡ count (in_state state) (read_pages 0 total c.now) }
{
    let mut n: u8 = 0;
    for i in 0..total {
        if u8::from(block::state(c, super::place(i))) == state {
            n += 1;
        }
    }
    n
}
