// Finish: the ciphertext of a complete collection (R9.10). When a set of pages gives it is said in
// the crate model.
#![tactic(auto)]

ghost use Rattle.std.specs.Prelude.{◌≡◌, ◌≤◌, length};
ghost use Rattle.wire.specs.Answer.{done};
ghost use Rattle.wire.specs.Over.{over};
ghost use Rattle.wire.specs.Sizes.{most_pages, most_ciphertext};
ghost use Rattle.document_id.specs.Id.{document_id_of};
ghost use Rattle.model.specs.Finish.{joined, finish_pages};
ghost use Rattle.book.specs.Read.{id_of, read_pages};
ghost use Rattle.finish.specs.Finish.{vouched, finished, Closed};
ghost use Rattle.finish.specs.Private.{data_at, Pulls};

use block::PageState;
use book::tally;
use wire::{Refusal, RefusedAt};

// The bytes of a block of BLAKE2b.
const BLOCK: usize = 128;

// A place in the data of the pages: the bytes of a page before at are passed.
#[derive(Drop)]
struct Cursor {
    page: u8,
    at: usize,
}

// The first pages of a collection, as many as its total.
#[derive(Clone, Copy)]
struct Pages<'a> {
    c: &'a [u8],
    total: u8,
    ghost most: { total ≤ most_pages },
}

impl<'a> Pages<'a> {
    // The data of one of them.
    fn contents(&self, page: u8) -> &'a [u8]
        ensures { result.now ≡ data_at self.now.c.now page }
    {
        block::contents(self.c, book::place(page))
    }

    // How many bytes their data are.
    fn size(&self) -> usize
        ensures { (result ≡ length (joined (read_pages 0 self.now.total self.now.c.now))) × (result ≤ most_ciphertext) }
    {
        let mut len: usize = 0;
        for page in 0..self.total {
            len += self.contents(page).len();
        }
        len
    }

    // As much of the data from the cursor on as a block has room for, at the front of b. Answers
    // the cursor behind it.
    fn pull(&self, from: Cursor, b: &mut [u8]) -> Cursor
        requires { (length b.old ≡ 128) × (from.at ≤ length (data_at self.now.c.now from.page)) }
        ensures { Pulls self.now.c.now self.now.total from.page from.at b.old b.new result.page result.at }
    {
        let first = from.page;
        let mut at = from.at;
        let mut n: usize = 0;
        for page in first..self.total {
            let bytes = self.contents(page);
            let end = (at + (BLOCK - n)).min(bytes.len());
            lend::copy(b, n, &bytes[at..end]);
            if end < bytes.len() {
                return Cursor { page, at: end };
            }
            n += end - at;
            at = 0;
        }
        Cursor {
            page: self.total,
            at: 0,
        }
    }

    // The id of the data, which are len bytes. They are hashed where they stand: a copy of them all
    // would need much of a phone's stack.
    fn id_of_data(&self, len: usize) -> [u8; wire::ID_SIZE]
        requires { (len ≡ length (joined (read_pages 0 self.now.total self.now.c.now))) × (len ≤ most_ciphertext) }
        ensures { result ≡ document_id_of (joined (read_pages 0 self.now.total self.now.c.now)) }
    {
        let mut h = blake2b::start();
        let mut cursor = Cursor { page: 0, at: 0 };
        let mut end = BLOCK;
        // stays (3): the last block is hashed by another call, so a `for` would never reach its
        // end.
        loop {
            let mut b = [0u8; BLOCK];
            let next = self.pull(cursor, &mut b);
            if len <= end {
                return document_id::of_digest(blake2b::last(h, &b, len as u64));
            }
            cursor = next;
            let state = blake2b::block(h, &b, end as u64);
            h = state;
            end += BLOCK;
        }
    }

    // The data, one page after another, from the front of out on (R9.10).
    fn gather(&self, out: &mut [u8])
        requires { length (joined (read_pages 0 self.now.total self.now.c.now)) ≤ length out.old }
        ensures { out.new ≡ over 0 (joined (read_pages 0 self.now.total self.now.c.now)) out.old }
    {
        let mut len: usize = 0;
        for page in 0..self.total {
            let bytes = self.contents(page);
            lend::copy(out, len, bytes);
            len += bytes.len();
        }
    }

    // No page is lacking. The data are judged before any of them is written, so that a refusal
    // changes nothing of out (R1.2).
    fn deliver(&self, out: &mut [u8]) -> Result<usize, RefusedAt>
        ensures { Closed (vouched (id_of self.now.c.now) out.old (done (joined (read_pages 0 self.now.total self.now.c.now)))) out.old out.new result }
    {
        let len = self.size();
        if out.len() < len {
            return Err(RefusedAt::from(Refusal::NoRoom));
        }
        let id = self.id_of_data(len);
        if !lend::equal(&id, book::id(self.c)) {
            return Err(RefusedAt::from(Refusal::OtherCiphertext));
        }
        self.gather(out);
        Ok(len)
    }

    // The lowest page that is disputed is named before the lowest that is missing (R9.10).
    fn judged(&self, out: &mut [u8]) -> Result<usize, RefusedAt>
        ensures { Closed (vouched (id_of self.now.c.now) out.old (finish_pages (read_pages 0 self.now.total self.now.c.now))) out.old out.new result }
    {
        let disputed = tally::lowest(self.c, self.total, u8::from(PageState::Disputed));
        if disputed < self.total {
            return Err(RefusedAt {
                why: Refusal::PageDisputed,
                place: disputed,
            });
        }
        let missing = tally::lowest(self.c, self.total, u8::from(PageState::Absent));
        if missing < self.total {
            return Err(RefusedAt {
                why: Refusal::PageMissing,
                place: missing,
            });
        }
        self.deliver(out)
    }
}

// The ciphertext at the front of out, and its length; or 13, 14, 15 and 16 with their place, 11,
// 17, and nothing changed.
pub fn finish(c: &[u8], out: &mut [u8]) -> Result<usize, RefusedAt>
    ensures { Closed (finished c.now out.old) out.old out.new result }
{
    book::judge(c)?;
    let state = book::state(c);
    match state {
        book::EMPTY => Err(RefusedAt::from(Refusal::PageMissing)),
        book::COLLECTING => {
            let pages = Pages {
                c,
                total: book::total(c),
            };
            pages.judged(out)
        }
        _ => Err(RefusedAt::from(Refusal::TotalsDisagree)),
    }
}
