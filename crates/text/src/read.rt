// A text is gone through twice: once to judge all of it (R5.5), and only then to write.
ghost use Rattle.std.specs.Prelude.{◌≡◌, true, ◌+◌, ◌-◌, ◌^◌, ◌≤◌, ◌<◌, length};
ghost use Rattle.wire.specs.Every.{within};
ghost use Rattle.wire.specs.Over.{over};
ghost use Rattle.wire.specs.Writing.{Written};
ghost use Rattle.text.specs.Text.{read_text, values};
ghost use Rattle.text.specs.Private.{Narrow, form_of, Sorted, fed, stepped, judged, decoded, emitted};

use super::{pack, tables};
use wire::Refusal;

// What has been read so far: the bits that are not yet a byte and their number, how many bytes were
// made, and the one that the last character made, if it made one.
#[derive(Clone, Copy)]
pub struct Seen {
    pub bits: u32,
    pub count: u32,
    pub made: usize,
    pub byte: Option<u8>,
}

// Before the first character.
const NOTHING: Seen = Seen {
    bits: 0,
    count: 0,
    made: 0,
    byte: None,
};

// One value more. Each makes at most one byte, since a character has at most eight bits.
fn feed(w: u32, s: Seen, v: u8) -> Seen
    requires { Narrow w × (s.bits < 2 ^ s.count) × (s.count < 8) × (v < 2 ^ w) × (s.made + 1 < 2 ^ 64) }
    ensures { result ≡ fed w s v }
{
    let bits = pack::joined(s.bits, w, v);
    let count = s.count + w;
    if count < 8 {
        return Seen {
            bits,
            count,
            made: s.made,
            byte: None,
        };
    }
    let left = count - 8;
    Seen {
        bits: pack::low(bits, left),
        count: left,
        made: s.made + 1,
        byte: Some(pack::top(bits, left)),
    }
}

// One character more; none where it is not allowed.
fn take(table: &[u8; 256], w: u32, s: Seen, c: u8) -> Option<Seen>
    requires { Narrow w × Sorted w table.now × (s.bits < 2 ^ s.count) × (s.count < 8) × (s.made + 1 < 2 ^ 64) }
    ensures { result ≡ stepped w s c }
{
    let v = table[c as usize];
    if v == tables::SKIPPED {
        return Some(Seen { byte: None, ..s });
    }
    if v == tables::NOT_ALLOWED {
        return None;
    }
    Some(feed(w, s, v))
}

// Of a whole text, the bits left over, their number, and how many bytes it has.
#[derive(Clone, Copy)]
pub struct Judged {
    pub bits: u32,
    pub count: u32,
    pub made: usize,
}

// None where a character is not allowed.
fn judge(table: &[u8; 256], w: u32, text: &[u8]) -> Option<Judged>
    requires { Narrow w × Sorted w table.now }
    ensures { result ≡ judged w text.now }
{
    let mut s = NOTHING;
    for c in text {
        s = take(table, w, s, *c)?;
    }
    Some(Judged {
        bits: s.bits,
        count: s.count,
        made: s.made,
    })
}

// The byte, where there is one.
fn emit(out: &mut [u8], at: usize, byte: Option<u8>)
    requires { at + length (emitted byte) ≤ length out.old }
    ensures { out.new ≡ over at (emitted byte) out.old }
{
    if let Some(b) = byte {
        out[at] = b;
    }
}

fn decode(table: &[u8; 256], w: u32, text: &[u8], out: &mut [u8])
    requires { Narrow w × Sorted w table.now × (within (2 ^ w) (values (form_of w) text.now) ≡ true) × (length (decoded w text.now) ≤ length out.old) }
    ensures { out.new ≡ over 0 (decoded w text.now) out.old }
{
    let mut s = NOTHING;
    for c in text {
        let Some(seen) = take(table, w, s, *c) else {
            return;
        };
        emit(out, s.made, seen.byte);
        s = seen;
    }
}

pub(super) fn read(table: &[u8; 256], w: u32, text: &[u8], out: &mut [u8]) -> Result<usize, Refusal>
    requires { Narrow w × Sorted w table.now }
    ensures { Written 0 (read_text (form_of w) text.now) out.old out.new result }
{
    let Some(Judged { bits, count, made }) = judge(table, w, text) else {
        return Err(Refusal::BadCharacter);
    };
    // A whole character left over: no bytes fill so many (R5.6).
    if w <= count {
        return Err(Refusal::BadTextLength);
    }
    if bits != 0 {
        return Err(Refusal::BadTextLength);
    }
    if out.len() < made {
        return Err(Refusal::NoRoom);
    }
    decode(table, w, text, out);
    Ok(made)
}
