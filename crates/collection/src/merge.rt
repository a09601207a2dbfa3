// A well-formed collection joined into another of the same document, page for page (R9.7).
ghost use Rattle.std.specs.Prelude.{◌≡◌};
ghost use Rattle.model.specs.Take.{join_slot, join_book};
ghost use Rattle.block.specs.Block.{with_page};
ghost use Rattle.book.specs.Head.{read_head};
ghost use Rattle.book.specs.Encode.{encode};
ghost use Rattle.book.specs.Read.{read_book};
ghost use Rattle.collection.specs.Private.{OneTotal, BlockOf, slot_at};
ghost use Rattle.collection.specs.Built.{Of};

use super::take;
use block::PageState;

// The block of o from index at on into that of c, which is written only where it changes.
fn slot(c: &mut [u8], at: usize, id: &[u8], index: u8, o: &[u8])
    requires { BlockOf id.now at index c.old }
    ensures { c.new ≡ with_page at id.now index (join_slot (slot_at at c.old) (slot_at at o.now)) c.old }
{
    match block::state(o, at) {
        PageState::Absent => {}
        PageState::Held => {
            let _ = take::slot(c, at, id, index, block::contents(o, at));
        }
        PageState::Disputed => {
            if block::state(&c[..], at) != PageState::Disputed {
                block::dispute(c, at, id, index);
            }
        }
    }
}

// Every page, where both are collecting with one total.
fn pages(c: &mut [u8], id: &[u8], o: &[u8])
    requires of { Of id.now c.old }
    requires of_2 { Of id.now o.now }
    requires one_total { OneTotal c.old o.now }
    ensures { c.new ≡ encode id.now (join_book (read_book c.old) (read_book o.now)) }
{
    for k in 0..book::PAGES {
        slot(c, book::place(k), id, k, o);
    }
}

// The other has pages. An empty collection takes its total (R9.8), and two totals annul it (R9.7).
fn collecting(c: &mut [u8], id: &[u8], o: &[u8])
    requires of { Of id.now c.old }
    requires of_2 { Of id.now o.now × ((read_head o.now).state ≡ 1) }
    ensures { c.new ≡ encode id.now (join_book (read_book c.old) (read_book o.now)) }
{
    let ours = book::state(&c[..]);
    if ours == book::DISAGREE {
        return;
    }
    let total = book::total(o);
    if ours == book::EMPTY {
        book::write_head(c, id, book::COLLECTING, total);
        pages(c, id, o);
        return;
    }
    if book::total(&c[..]) != total {
        take::annul(c, id);
        return;
    }
    pages(c, id, o);
}

// An empty collection adds nothing (R9.8), and totals that disagree annul any other (R9.7).
pub(super) fn books(c: &mut [u8], id: &[u8], o: &[u8])
    requires of { Of id.now c.old }
    requires of_2 { Of id.now o.now }
    ensures { c.new ≡ encode id.now (join_book (read_book c.old) (read_book o.now)) }
{
    let theirs = book::state(o);
    if theirs == book::EMPTY {
        return;
    }
    if theirs == book::DISAGREE {
        take::annul(c, id);
        return;
    }
    collecting(c, id, o);
}
