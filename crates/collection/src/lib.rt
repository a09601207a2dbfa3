// Open, offer and join over the bytes of a collection, which are also the saved file: R9.1 to R9.8.
// Each public function takes any arguments. Nothing is written before every check has passed, and
// then only the blocks that change.
//
// Whatever is offered and joined, in any order and grouping, with repeats, bad scans and strangers'
// pages, the saved bytes are those of the set (`saved`, `saved_set`, `list_saved`, `list_joined`:
// collection, Demand). Open, offer and join leave a collection well formed (collection, Keeps).
#![tactic(auto)]

mod merge;
mod take;

ghost use Rattle.std.specs.Prelude.{◌≡◌};
ghost use Rattle.wire.specs.Answer.{Kept};
ghost use Rattle.collection.specs.Collection.{opening, offering, joining};
ghost use Rattle.collection.specs.Answer.{told, told_kind, stands_number};

use wire::Refusal;

// How a page stands after its offer (R9.5).
#[derive(Clone, Copy, Debug, PartialEq, Eq)]
pub enum Stands {
    Held,
    Disputed,
    Disagree,
}

// The number of R9.5.
impl From<Stands> for u8 {
    ghost from_gives = { λ stands n. n ≡ stands_number stands };

    fn from(stands: Stands) -> u8 {
        match stands {
            Stands::Held => 1,
            Stands::Disputed => 2,
            Stands::Disagree => 3,
        }
    }
}

// The empty collection of a document over all of c; or 19, then 11, and nothing changed.
pub fn open(id: &[u8], c: &mut [u8]) -> Result<(), Refusal>
    ensures { Kept (opening id.now c.old) c.old c.new (told result) }
{
    if id.len() != wire::ID_SIZE {
        return Err(Refusal::OutOfRange);
    }
    if c.len() != wire::COLLECTION_SIZE {
        return Err(Refusal::NoRoom);
    }
    book::write_head(c, id, book::EMPTY, 0);
    book::blank(c, id);
    Ok(())
}

// The collection c with the good page of one raw frame taken, and how that page stands: 1 held, 2
// disputed, 3 the totals disagree; or 13, the frame's own refusal, 12, and nothing changed.
pub fn offer(c: &mut [u8], raw: &[u8]) -> Result<Stands, Refusal>
    ensures { Kept (offering c.old raw.now) c.old c.new (told_kind result) }
{
    book::judge(&c[..])?;
    let id = book::id_copy(&c[..]);
    let page = take::good_page(&id, raw)?;
    let start = page.at.start;
    let end = start + page.at.len;
    Ok(take::page(c, &id, page.index, page.total, &raw[start..end]))
}

// The union of c and o, two collections of one document, in c; or 13 for c, 13 for o, 12, and
// nothing changed.
pub fn join(c: &mut [u8], o: &[u8]) -> Result<(), Refusal>
    ensures { Kept (joining c.old o.now) c.old c.new (told result) }
{
    book::judge(&c[..])?;
    book::judge(o)?;
    let id = book::id_copy(&c[..]);
    if !lend::equal(&id, book::id(o)) {
        return Err(Refusal::OtherDocument);
    }
    merge::books(c, &id, o);
    Ok(())
}
