// Mend, for a damaged file (R9.11). What it leaves is well formed, what was well formed is
// untouched, and nothing is invented (mend, Mends).
#![tactic(auto)]

ghost use Rattle.std.specs.Prelude.{◌≡◌, true, ◌++◌, ◌+◌, ◌*◌, take};
ghost use Rattle.wire.specs.Answer.{choose, Kept};
ghost use Rattle.wire.specs.Reading.{told};
ghost use Rattle.wire.specs.Sizes.{block_size, most_pages};
ghost use Rattle.model.specs.Book.{absent};
ghost use Rattle.block.specs.Block.{with_page};
ghost use Rattle.book.specs.Head.{read_head, has_head};
ghost use Rattle.book.specs.Read.{page_at, ok_at};
ghost use Rattle.mend.specs.Mend.{mended_pages, bad_pages, mending};

use wire::Refusal;

// Makes the page block of index k absent where it is not well formed under the head (R9.11).
// Answers 1 then, else 0.
fn page(c: &mut [u8], id: &[u8], k: u8) -> u8
    ensures { (result ≡ choose (ok_at (read_head c.old) k (page_at k c.old)) 0 1) × (c.new ≡ choose (ok_at (read_head c.old) k (page_at k c.old)) c.old (with_page (block_size + block_size * k) id.now k absent c.old)) }
{
    if book::page_ok(c, k) {
        return 0;
    }
    block::vacate(c, book::place(k), id, k);
    1
}

// Every page block under a head that is well formed.
fn pages(c: &mut [u8]) -> u8
    requires { has_head c.old ≡ true }
    ensures { (result ≡ bad_pages (read_head c.old) 0 most_pages c.old) × (c.new ≡ take block_size c.old ++ mended_pages (read_head c.old) 0 most_pages c.old) }
{
    let id = book::id_copy(&c[..]);
    let mut count: u8 = 0;
    for k in 0..book::PAGES {
        count += page(c, &id, k);
    }
    count
}

// Each page block of c that is not well formed made absent, and how many they were; or 13 and
// nothing changed.
//
// Mend forgets pages and disputes: what it leaves is no longer what was offered.
pub fn mend(c: &mut [u8]) -> Result<u8, Refusal>
    ensures { Kept (mending c.old) c.old c.new (told result) }
{
    book::judge_head(&c[..])?;
    Ok(pages(c))
}
