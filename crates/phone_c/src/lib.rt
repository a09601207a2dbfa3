// What the crate `phone` does, for a program in C: its eight functions under the same names, and
// with the same clauses, word for word (tests/promises). A library for C cannot be one for Rattle
// too.
#![tactic(auto)]

ghost use Rattle.std.specs.Prelude.{◌≡◌};
ghost use Rattle.wire.specs.Answer.{bytes_after, answer_of};
ghost use Rattle.wire.specs.Writing.{writing};
ghost use Rattle.text.specs.Text.{base64, read_text};
ghost use Rattle.typed.specs.Typed.{read_typed};
ghost use Rattle.collection.specs.Collection.{opening, offering, joining};
ghost use Rattle.finish.specs.Finish as F;
ghost use Rattle.status.specs.Numbers.{standing};
ghost use Rattle.phone.specs.Packed.{packed_answer, packed_kind, packed_finish, packed_numbers, seeing, packed_frame, packed_text, packed_typed};

// What `collection::open` does, for C: its answer as one number, and the bytes that it leaves in c.
#[unsafe(no_mangle)]
pub extern "C" fn stilt_open(id: &[u8], c: &mut [u8]) -> u64
    ensures value { result ≡ packed_answer (answer_of (opening id.now c.old)) }
    ensures c_after { c.new ≡ bytes_after c.old (opening id.now c.old) }
{
    phone::stilt_open(id, c)
}

// What `collection::offer` does, for C: its answer, with how the page stands, as one number, and
// the bytes that it leaves in c.
#[unsafe(no_mangle)]
pub extern "C" fn stilt_offer(c: &mut [u8], frame: &[u8]) -> u64
    ensures value { result ≡ packed_kind (answer_of (offering c.old frame.now)) }
    ensures c_after { c.new ≡ bytes_after c.old (offering c.old frame.now) }
{
    phone::stilt_offer(c, frame)
}

// What `collection::join` does, for C: its answer as one number, and the bytes that it leaves in
// the first collection.
#[unsafe(no_mangle)]
pub extern "C" fn stilt_join(into: &mut [u8], from: &[u8]) -> u64
    ensures value { result ≡ packed_answer (answer_of (joining into.old from.now)) }
    ensures into_after { into.new ≡ bytes_after into.old (joining into.old from.now) }
{
    phone::stilt_join(into, from)
}

// What `finish::finish` does, for C: its answer, with the length or the place, as one number, and
// the bytes that it leaves in out.
#[unsafe(no_mangle)]
pub extern "C" fn stilt_finish(c: &[u8], out: &mut [u8]) -> u64
    ensures value { result ≡ packed_finish (answer_of (F.finishing c.now out.old)) }
    ensures out_after { out.new ≡ bytes_after out.old (F.finishing c.now out.old) }
{
    phone::stilt_finish(c, out)
}

// Where the collection c stands, as `status::standing::of` says it, for C: its numbers, a byte
// each, as one, and the bytes that it leaves in pages.
#[unsafe(no_mangle)]
pub extern "C" fn stilt_status(c: &[u8], pages: &mut [u8]) -> u64
    ensures value { result ≡ packed_numbers (answer_of (standing c.now pages.old)) }
    ensures pages_after { pages.new ≡ bytes_after pages.old (standing c.now pages.old) }
{
    phone::stilt_status(c, pages)
}

// What `frame::read` says of a scanned frame, for C: its index, its total and its type as one
// number, and in front of id the id of its document; or its refusal, then 11, and nothing changed.
#[unsafe(no_mangle)]
pub extern "C" fn stilt_frame(s: &[u8], id: &mut [u8]) -> u64
    ensures value { result ≡ packed_frame (answer_of (seeing s.now id.old)) }
    ensures id_after { id.new ≡ bytes_after id.old (seeing s.now id.old) }
{
    phone::stilt_frame(s, id)
}

// What `text::base64_read` does, for C: its answer, with the length, as one number, and the bytes
// that it leaves in out.
#[unsafe(no_mangle)]
pub extern "C" fn stilt_base64(text: &[u8], out: &mut [u8]) -> u64
    ensures value { result ≡ packed_text (answer_of (writing 0 out.old (read_text base64 text.now))) }
    ensures out_after { out.new ≡ bytes_after out.old (writing 0 out.old (read_text base64 text.now)) }
{
    phone::stilt_base64(text, out)
}

// What `typed::read` does, for C: its answer, with the length or the line's number, as one number,
// and the bytes that it leaves in out.
#[unsafe(no_mangle)]
pub extern "C" fn stilt_typed(text: &[u8], out: &mut [u8]) -> u64
    ensures value { result ≡ packed_typed (answer_of (writing 0 out.old (read_typed text.now))) }
    ensures out_after { out.new ≡ bytes_after out.old (writing 0 out.old (read_typed text.now)) }
{
    phone::stilt_typed(text, out)
}
