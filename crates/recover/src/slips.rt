// The slips as they are lent: their payloads stand in `pool` where `starts` and `lens` say. Of a
// longer one of these two the rest is not looked at. Contracts see the list of the payloads.
ghost use Rattle.std.specs.Prelude.{◌≡◌, ◌<◌, ℕ, List, [], length, get_or};
ghost use Rattle.recover.specs.Recover.{slips_at};

use std::marker::Model;
use wire::Span;

#[derive(Drop)]
pub(super) struct Slips<'a> {
    pool: &'a [u8],
    starts: &'a [usize],
    lens: &'a [usize],
}

impl<'a> Model for Slips<'a> {
    ghost Value = { List (List ℕ) };

    ghost view = { λ l. slips_at l.pool.now l.starts.now l.lens.now };
}

impl<'a> Slips<'a> {
    pub(super) fn new(pool: &'a [u8], starts: &'a [usize], lens: &'a [usize]) -> Slips<'a>
        ensures { result ≡ slips_at pool.now starts.now lens.now }
    {
        Slips { pool, starts, lens }
    }

    // How many there are.
    pub(super) fn count(&self) -> usize
        ensures { result ≡ length self.now }
    {
        self.starts.len().min(self.lens.len())
    }

    // The payload of slip i.
    pub(super) fn payload(&self, i: usize) -> &'a [u8]
        requires { i < length self.now }
        ensures { result.now ≡ get_or self.now i [] }
    {
        let starts = self.starts;
        let lens = self.lens;
        let place = Span {
            start: starts[i],
            len: lens[i],
        };
        lend::part(self.pool, place)
    }
}
