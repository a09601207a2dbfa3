// The functions that the phone app, written in C, calls: section 16 of docs/RULES.md.
// include/stiltbasket.h declares them and takes their one number apart. A slice passes as a pointer
// and a length.
#![tactic(auto)]

ghost use Rattle.std.specs.Prelude.{◌≡◌, ◌<◌};
ghost use Rattle.wire.specs.Answer.{bytes_after, answer_of};
ghost use Rattle.wire.specs.Refusal.{number};
ghost use Rattle.wire.specs.Writing.{writing};
ghost use Rattle.text.specs.Text.{base64, read_text};
ghost use Rattle.typed.specs.Typed.{read_typed};
ghost use Rattle.collection.specs.Collection.{opening, offering, joining};
ghost use Rattle.collection.specs.Answer.{told};
ghost use Rattle.finish.specs.Finish as F;
ghost use Rattle.status.specs.Numbers.{standing};
ghost use Rattle.phone.specs.Packed.{packed, packed_answer, packed_kind, packed_finish, packed_numbers, seeing, packed_frame, packed_text, packed_typed};

use wire::{Refusal, RefusedAt};

// What a count may be, in 48 bits.
const COUNTS: u64 = 0x1000000000000;

// Bits 0 to 7, 8 to 15, and 16 to 63 (R16.2).
fn pack(number: u8, place: u8, count: u64) -> u64
    requires { count < 0x1000000000000 }
    ensures { result ≡ packed number place count }
{
    u64::from(number) + 256 * u64::from(place) + 65536 * count
}

fn refused(why: Refusal) -> u64
    ensures { result ≡ packed (number why) 0 0 }
{
    pack(u8::from(why), 0, 0)
}

fn refused_at(e: RefusedAt) -> u64
    ensures { result ≡ packed (number e.why) e.place 0 }
{
    pack(u8::from(e.why), e.place, 0)
}

fn answer(r: Result<(), Refusal>) -> u64
    ensures { result ≡ packed_answer (told r) }
{
    match r {
        Ok(_) => 0,
        Err(why) => refused(why),
    }
}

// What `collection::open` does, for C: its answer as one number, and the bytes that it leaves in c.
#[unsafe(no_mangle)]
pub extern "C" fn stilt_open(id: &[u8], c: &mut [u8]) -> u64
    ensures value { result ≡ packed_answer (answer_of (opening id.now c.old)) }
    ensures c_after { c.new ≡ bytes_after c.old (opening id.now c.old) }
{
    answer(collection::open(id, c))
}

// What `collection::offer` does, for C: its answer, with how the page stands, as one number, and
// the bytes that it leaves in c.
#[unsafe(no_mangle)]
pub extern "C" fn stilt_offer(c: &mut [u8], frame: &[u8]) -> u64
    ensures value { result ≡ packed_kind (answer_of (offering c.old frame.now)) }
    ensures c_after { c.new ≡ bytes_after c.old (offering c.old frame.now) }
{
    match collection::offer(c, frame) {
        Ok(stands) => pack(0, u8::from(stands), 0),
        Err(why) => refused(why),
    }
}

// What `collection::join` does, for C: its answer as one number, and the bytes that it leaves in
// the first collection.
#[unsafe(no_mangle)]
pub extern "C" fn stilt_join(into: &mut [u8], from: &[u8]) -> u64
    ensures value { result ≡ packed_answer (answer_of (joining into.old from.now)) }
    ensures into_after { into.new ≡ bytes_after into.old (joining into.old from.now) }
{
    answer(collection::join(into, from))
}

// What `finish::finish` does, for C: its answer, with the length or the place, as one number, and
// the bytes that it leaves in out.
#[unsafe(no_mangle)]
pub extern "C" fn stilt_finish(c: &[u8], out: &mut [u8]) -> u64
    ensures value { result ≡ packed_finish (answer_of (F.finishing c.now out.old)) }
    ensures out_after { out.new ≡ bytes_after out.old (F.finishing c.now out.old) }
{
    match finish::finish(c, out) {
        Ok(len) => pack(0, 0, len as u64),
        Err(e) => refused_at(e),
    }
}

// Where the collection c stands, as `status::standing::of` says it, for C: its numbers, a byte
// each, as one, and the bytes that it leaves in pages.
#[unsafe(no_mangle)]
pub extern "C" fn stilt_status(c: &[u8], pages: &mut [u8]) -> u64
    ensures value { result ≡ packed_numbers (answer_of (standing c.now pages.old)) }
    ensures pages_after { pages.new ≡ bytes_after pages.old (standing c.now pages.old) }
{
    match status::standing::of(c, pages) {
        Ok(n) => pack(
            0,
            n.stands,
            u64::from(u32::from_le_bytes([n.total, n.held, n.missing, n.disputed])),
        ),
        Err(fault) => refused(fault),
    }
}

// What `frame::read` says of a scanned frame, for C: its index, its total and its type as one
// number, and in front of id the id of its document; or its refusal, then 11, and nothing changed.
#[unsafe(no_mangle)]
pub extern "C" fn stilt_frame(s: &[u8], id: &mut [u8]) -> u64
    ensures value { result ≡ packed_frame (answer_of (seeing s.now id.old)) }
    ensures id_after { id.new ≡ bytes_after id.old (seeing s.now id.old) }
{
    let f = match frame::read(s) {
        Ok(f) => f,
        Err(why) => return refused(why),
    };
    if id.len() < wire::ID_SIZE {
        return refused(Refusal::NoRoom);
    }
    lend::copy(id, 0, &s[frame::ID_AT..frame::ID_END]);
    pack(
        0,
        f.index as u8,
        f.total + 0x100 * u64::from(u8::from(f.kind)),
    )
}

// What `text::base64_read` does, for C: its answer, with the length, as one number, and the bytes
// that it leaves in out.
#[unsafe(no_mangle)]
pub extern "C" fn stilt_base64(text: &[u8], out: &mut [u8]) -> u64
    ensures value { result ≡ packed_text (answer_of (writing 0 out.old (read_text base64 text.now))) }
    ensures out_after { out.new ≡ bytes_after out.old (writing 0 out.old (read_text base64 text.now)) }
{
    match text::base64_read(text, out) {
        Ok(len) => pack(0, 0, (len as u64) % COUNTS),
        Err(flaw) => refused(flaw),
    }
}

// What `typed::read` does, for C: its answer, with the length or the line's number, as one number,
// and the bytes that it leaves in out.
#[unsafe(no_mangle)]
pub extern "C" fn stilt_typed(text: &[u8], out: &mut [u8]) -> u64
    ensures value { result ≡ packed_typed (answer_of (writing 0 out.old (read_typed text.now))) }
    ensures out_after { out.new ≡ bytes_after out.old (writing 0 out.old (read_typed text.now)) }
{
    match typed::read(text, out) {
        Ok(n) => pack(0, 0, n as u64),
        Err(line) => refused_at(line),
    }
}
