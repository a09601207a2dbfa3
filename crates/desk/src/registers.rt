// The verbs of collections. Before a call that may change a register it is copied, so that the desk
// can tell what the call changed (D3.8).
use crate::reply::Output;
use crate::values;
use crate::words::Call;
use crate::words::Kind::{self, Bytes, Loaded, Room};
use wire::{Refusal, Span};

// `a` to `d` (D3.1).
pub(crate) const COUNT: usize = 4;

// As many bytes as a line of load may bring (D3.2), and a line of open may ask for (D1.6).
const SIZE: usize = 65_536;

// Room for the status line.
const STATUS_ROOM: usize = 64;

#[derive(Clone, Copy)]
pub(crate) struct Register {
    bytes: [u8; SIZE],
    len: usize,
}

pub(crate) type Registers = [Register; COUNT];

impl Register {
    pub(crate) fn new() -> Register {
        Register {
            bytes: [0; SIZE],
            len: 0,
        }
    }

    fn held(&self) -> &[u8] {
        &self.bytes[..self.len.min(SIZE)]
    }

    fn hold(&mut self, s: &[u8]) {
        lend::copy(&mut self.bytes, 0, s);
        self.len = s.len();
    }

    // The reply of a call that may change the register: where it refused, the register must be what
    // it was before (D3.8).
    fn change<T: Drop, F: FnOnce(&mut [u8]) -> Result<T, Refusal>, V: FnOnce(&mut Output, T)>(
        &mut self,
        out: &mut Output,
        call: F,
        values: V,
    )
        requires calls { F.IsAlwaysCallable call }
        requires tells { V.IsAlwaysCallable values }
    {
        let before = *self;
        let Some(book) = self.bytes.get_mut(..self.len) else {
            return;
        };
        let answer = call(book);
        let refused = answer.is_err();
        out.told(answer, values);
        if refused && !lend::equal(self.held(), before.held()) {
            out.put(b" spilled");
        }
    }
}

// The register that a word names.
fn named<'a>(registers: &'a mut Registers, word: &[u8]) -> Option<&'a mut Register> {
    registers.get_mut(values::register(word)?)
}

// The second register is read from a copy, so that one register may be joined with itself (D3.5).
fn join(call: Call, registers: &mut Registers, out: &mut Output) {
    let Some(other) = named(registers, call.word(2)) else {
        return;
    };
    let other = *other;
    let Some(r) = named(registers, call.word(1)) else {
        return;
    };
    r.change(out, |book| collection::join(book, other.held()), |_, ()| {});
}

// The status line is the whole answer, without `0` (D3.7). It has its own line feed, which is the
// reply's.
fn status(book: &[u8], out: &mut Output) {
    let mut line = [0u8; STATUS_ROOM];
    match status::status(book, &mut line) {
        Ok(len) => {
            let words = Span {
                start: 0,
                len: len.saturating_sub(1),
            };
            out.put(lend::part(&line, words));
        }
        Err(why) => out.refused(why),
    }
}

// The reply to a line of this group; false for any other line.
pub(crate) fn call(
    call: Call,
    registers: &mut Registers,
    room: &mut [u8],
    out: &mut Output,
) -> bool {
    let bytes = call.bytes(2);
    if matches!(call.word(0), b"join") && call.has(&[Kind::Register, Kind::Register]) {
        join(call, registers, out);
        return true;
    }
    let Some(r) = named(registers, call.word(1)) else {
        return false;
    };
    match call.word(0) {
        // No call is made: the bytes are taken and printed as they are (D3.2).
        b"load" if call.has(&[Kind::Register, Loaded]) => {
            r.hold(bytes);
            out.done();
        }
        b"save" if call.has(&[Kind::Register]) => {
            out.done();
            out.bytes(r.held());
        }
        // The register is first made to hold the room, ROOM bytes of A5 (D3.3).
        b"open" if call.has(&[Kind::Register, Bytes, Room]) => {
            r.hold(room);
            r.change(out, |book| collection::open(bytes, book), |_, ()| {});
        }
        // KIND is the library's 1, 2 or 3 (D3.4).
        b"offer" if call.has(&[Kind::Register, Bytes]) => r.change(
            out,
            |book| collection::offer(book, bytes),
            |out, stands| out.number(u64::from(u8::from(stands))),
        ),
        // COUNT is the number of blocks that were mended (D3.6).
        b"mend" if call.has(&[Kind::Register]) => r.change(
            out,
            |book| mend::mend(book),
            |out, count| out.number(u64::from(count)),
        ),
        // The room is lent to finish as to any writer (D3.6).
        b"finish" if call.has(&[Kind::Register, Room]) => {
            out.wrote(finish::finish(r.held(), room), room)
        }
        b"status" if call.has(&[Kind::Register]) => status(r.held(), out),
        _ => return false,
    }
    true
}
