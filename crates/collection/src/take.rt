// One page, taken into a well-formed collection (R9.4).
ghost use Rattle.std.specs.Prelude.{◌≡◌, ◌≤◌, length};
ghost use Rattle.wire.specs.Sizes.{most_data};
ghost use Rattle.model.specs.Book.{absent, held, disagree};
ghost use Rattle.model.specs.Take.{join_slot, take_page};
ghost use Rattle.block.specs.Block.{with_page};
ghost use Rattle.book.specs.Head.{read_head};
ghost use Rattle.book.specs.Encode.{encode};
ghost use Rattle.book.specs.Read.{read_book};
ghost use Rattle.collection.specs.Collection.{good_page};
ghost use Rattle.collection.specs.Private.{page as a_page, page_told, Fits, BlockOf, slot_at, Slotted, Became};
ghost use Rattle.collection.specs.Answer.{stands_number};
ghost use Rattle.collection.specs.Built.{Of};

use super::Stands;
use block::PageState;
use frame::Kind;
use wire::{Refusal, Span};

// What a good page says, and where its data stand in the frame.
#[derive(Clone, Copy, Debug, PartialEq, Eq)]
pub(super) struct PageAt {
    pub index: u8,
    pub total: u8,
    pub at: Span,
}

// The page of a raw frame, where it is a good page of the document (R9.2).
pub(super) fn good_page(id: &[u8], raw: &[u8]) -> Result<PageAt, Refusal>
    ensures { page_told raw.now result ≡ good_page id.now raw.now }
{
    let f = frame::read(raw)?;
    if f.kind != Kind::Main {
        return Err(Refusal::OtherDocument);
    }
    if !lend::equal(id, &raw[frame::ID_AT..frame::ID_END]) {
        return Err(Refusal::OtherDocument);
    }
    Ok(PageAt {
        index: f.index as u8,
        total: f.total as u8,
        at: f.at,
    })
}

// The data of a page into its block, from index at on. The same data again, or further data for a
// disputed page, write nothing (R9.4). No data are data too (R9.9).
pub(super) fn slot(c: &mut [u8], at: usize, id: &[u8], index: u8, bytes: &[u8]) -> Stands
    requires block_of { BlockOf id.now at index c.old }
    requires bytes_len_bound { length bytes.now ≤ most_data }
    ensures { Slotted id.now at index (join_slot (slot_at at c.old) (held bytes.now)) c.old c.new (stands_number result) }
{
    match block::state(&c[..], at) {
        PageState::Absent => {
            block::hold(c, at, id, index, bytes);
            Stands::Held
        }
        PageState::Held => {
            if block::holds(&c[..], at, bytes) {
                return Stands::Held;
            }
            block::dispute(c, at, id, index);
            Stands::Disputed
        }
        PageState::Disputed => Stands::Disputed,
    }
}

// The block of a page that becomes absent; one that is so already is not written.
fn vacate(c: &mut [u8], at: usize, id: &[u8], index: u8)
    requires { BlockOf id.now at index c.old }
    ensures { c.new ≡ with_page at id.now index absent c.old }
{
    if block::state(&c[..], at) != PageState::Absent {
        block::vacate(c, at, id, index);
    }
}

// stays (5): `Of id c` stands in six contracts here and in merge, but of a lent buffer that is not
// well formed in the middle of a call, so no type's invariant can hold it.
//
// Totals disagree: the head says so, and every page becomes absent (R9.4).
pub(super) fn annul(c: &mut [u8], id: &[u8])
    requires { Of id.now c.old }
    ensures { c.new ≡ encode id.now disagree }
{
    for k in 0..book::PAGES {
        vacate(c, book::place(k), id, k);
    }
    book::write_head(c, id, book::DISAGREE, 0);
}

// A page of a collection that has pages: another total annuls it (R9.4).
fn further(c: &mut [u8], id: &[u8], index: u8, total: u8, bytes: &[u8]) -> Stands
    requires of { Of id.now c.old × ((read_head c.old).state ≡ 1) }
    requires fits { Fits index total bytes.now }
    ensures { Became id.now index (take_page (a_page index total bytes.now) (read_book c.old)) c.new (stands_number result) }
{
    if book::total(&c[..]) != total {
        annul(c, id);
        return Stands::Disagree;
    }
    slot(c, book::place(index), id, index, bytes)
}

// The first page fixes the total (R9.4).
pub(super) fn page(c: &mut [u8], id: &[u8], index: u8, total: u8, bytes: &[u8]) -> Stands
    requires of { Of id.now c.old }
    requires fits { Fits index total bytes.now }
    ensures { Became id.now index (take_page (a_page index total bytes.now) (read_book c.old)) c.new (stands_number result) }
{
    let state = book::state(&c[..]);
    if state == book::DISAGREE {
        return Stands::Disagree;
    }
    if state == book::EMPTY {
        book::write_head(c, id, book::COLLECTING, total);
        return slot(c, book::place(index), id, index, bytes);
    }
    further(c, id, index, total, bytes)
}
