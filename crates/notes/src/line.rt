// What one line is: a scan to a collection, or a first line that should be the document's id.
ghost use Rattle.std.specs.Prelude.{◌≡◌, eqb};
ghost use Rattle.wire.specs.Answer.{choose};
ghost use Rattle.lend.specs.Same.{same};
ghost use Rattle.collection.specs.Collection.{offering};
ghost use Rattle.wire.specs.Refusal.{number};
ghost use Rattle.notes.specs.Line.{kind_number, flaw_number, offered_kind, line_kind, byte_fault, id_fault};
ghost use Rattle.notes.specs.Line.{strange as strange_in};

use crate::Kind;
use wire::Refusal;

// A longer line is passed over (R15.2).
const LINE_MOST: usize = 1024;

// What is wrong with a first line: it is not 16 digits long, or has a byte that is no digit.
#[derive(Clone, Copy, Debug, PartialEq, Eq)]
pub(super) enum Flaw {
    Nothing,
    Length,
    Return,
    Blank,
    Capital,
    Beyond,
    Strange,
}

// The number of a flaw, as the notes have it.
impl From<Flaw> for u64 {
    ghost from_gives = { λ flaw n. n ≡ flaw_number flaw };

    fn from(flaw: Flaw) -> u64 {
        match flaw {
            Flaw::Nothing => 0,
            Flaw::Length => 1,
            Flaw::Return => 2,
            Flaw::Blank => 3,
            Flaw::Capital => 4,
            Flaw::Beyond => 5,
            Flaw::Strange => 6,
        }
    }
}

// The same bytes: the page was there before.
fn seen(after: &[u8], c: &[u8]) -> Kind
    ensures { kind_number result ≡ choose (same after.now c.now) 1 0 }
{
    if lend::equal(after, c) {
        return Kind::Seen;
    }
    Kind::Taken
}

fn refused(why: Refusal) -> Kind
    ensures { kind_number result ≡ choose (eqb (number why) 12) 2 3 }
{
    match why {
        Refusal::OtherDocument => Kind::Other,
        _ => Kind::Unreadable,
    }
}

// What a collection makes of a frame, which is offered to a copy of it.
fn offered(raw: &[u8], c: &[u8]) -> Kind
    ensures { kind_number result ≡ offered_kind c.now (offering c.now raw.now) }
{
    if c.len() != wire::COLLECTION_SIZE {
        return Kind::Unreadable;
    }
    let mut aside = [0u8; wire::COLLECTION_SIZE];
    lend::copy(&mut aside, 0, c);
    match collection::offer(&mut aside, raw) {
        Ok(_) => seen(&aside, c),
        Err(why) => refused(why),
    }
}

// A line behind the first, to the collection c.
pub(super) fn kind(line: &[u8], c: &[u8]) -> Kind
    ensures { kind_number result ≡ line_kind c.now line.now }
{
    if LINE_MOST < line.len() {
        return Kind::Long;
    }
    let mut raw = [0u8; LINE_MOST];
    let read = text::base64_read(line, &mut raw);
    let Ok(len) = read else {
        return Kind::Unreadable;
    };
    offered(&raw[0..len], c)
}

// The first byte that is no digit; a digit where there is none.
fn strange(line: &[u8]) -> u8
    ensures { result ≡ strange_in line.now }
{
    for b in line {
        if 15 < digits::hex_value(*b) {
            return *b;
        }
    }
    b'0'
}

fn byte_fault(b: u8) -> Flaw
    ensures { flaw_number result ≡ byte_fault b }
{
    match b {
        b'\r' => Flaw::Return,
        b'\t'..=b' ' => Flaw::Blank,
        b'A'..=b'F' => Flaw::Capital,
        0x80.. => Flaw::Beyond,
        _ => Flaw::Strange,
    }
}

// The first line, where the document's id is due.
pub(super) fn fault(line: &[u8]) -> Flaw
    ensures { flaw_number result ≡ id_fault line.now }
{
    let b = strange(line);
    if 15 < digits::hex_value(b) {
        return byte_fault(b);
    }
    if line.len() == 16 {
        return Flaw::Nothing;
    }
    Flaw::Length
}
