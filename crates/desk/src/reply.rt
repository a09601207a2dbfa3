// The replies, and what of them is not written out yet. Each function puts its part behind what is
// there; what does not fit is left out. (The longest reply fits.)
ghost use Rattle.std.specs.Prelude.{◌≡◌, length, replicate};
ghost use Rattle.lend.specs.Same.{same};

use entry::Integer;
use wire::{Refusal, RefusedAt, Span};

// What the room holds before a call. A byte that a call may not change holds it afterwards (D1.6).
pub(crate) const UNTOUCHED: u8 = 0xA5;

// Where more than this waits, it is written out before the next reply.
const WAITING_MOST: usize = 100_000;

// No reply is longer.
const MOST: usize = 300_000;

#[derive(Drop)]
pub(crate) struct Output {
    bytes: [u8; WAITING_MOST + MOST],
    len: usize,
}

impl Output {
    pub(crate) fn new() -> Output {
        Output {
            bytes: [0; WAITING_MOST + MOST],
            len: 0,
        }
    }

    pub(crate) fn len(&self) -> usize {
        self.len
    }

    // Writes all of it out; false where that failed.
    pub(crate) fn write(&mut self, rt: HostRuntime) -> bool {
        let all = Span {
            start: 0,
            len: self.len,
        };
        self.len = 0;
        edge::print(rt, lend::part(&self.bytes, all)).is_ok()
    }

    // Makes room for one more reply.
    pub(crate) fn make_space(&mut self, rt: HostRuntime) {
        if self.len > WAITING_MOST {
            self.write(rt);
        }
    }

    pub(crate) fn put(&mut self, s: &[u8]) {
        if self.len <= self.bytes.len() && s.len() <= self.bytes.len() - self.len {
            lend::copy(&mut self.bytes, self.len, s);
            self.len += s.len();
        }
    }

    // An answer of 0, which its values follow (D1.7).
    pub(crate) fn done(&mut self) {
        self.put(b"0");
    }

    fn decimal(&mut self, n: u64) {
        let mut text = [0u8; 20];
        let k = io::decimal(n, &mut text);
        self.put(&text[..k]);
    }

    // A space stands before each value (D1.7).
    pub(crate) fn number(&mut self, n: u64) {
        self.put(b" ");
        self.decimal(n);
    }

    // The number n, or -1 - n where it is negative.
    pub(crate) fn signed(&mut self, v: Integer) {
        if !v.negative {
            return self.decimal(v.n);
        }
        self.put(b"-");
        match v.n.checked_add(1) {
            Some(n) => self.decimal(n),
            None => self.put(b"18446744073709551616"),
        }
    }

    // A number in width hex digits.
    pub(crate) fn hex_digits(&mut self, n: u64, width: usize) {
        let mut text = [0u8; 16];
        let k = io::hex(n, width, &mut text);
        self.put(&text[..k]);
    }

    // A number as bytes, big-endian: width hex digits.
    pub(crate) fn digits(&mut self, n: u64, width: usize) {
        self.put(b" ");
        self.hex_digits(n, width);
    }

    fn hex(&mut self, s: &[u8]) {
        if self.len <= self.bytes.len() && s.len() <= (self.bytes.len() - self.len) / 2 {
            digits::hex(&mut self.bytes, self.len, s);
            self.len += 2 * s.len();
        }
    }

    // No bytes are `-` (D1.3).
    pub(crate) fn bytes(&mut self, s: &[u8]) {
        self.put(b" ");
        if s.is_empty() {
            self.put(b"-");
        }
        self.hex(s);
    }

    // The bytes at a place of s.
    pub(crate) fn part(&mut self, s: &[u8], at: Span) {
        self.bytes(lend::part(s, at));
    }

    // Ends the reply's line, which began at this index; a reply of no bytes is that of a line which
    // is not understood: `?` (D1.5).
    pub(crate) fn end_line(&mut self, start: usize) {
        if self.len == start {
            self.put(b"?");
        }
        self.put(b"\n");
    }

    // A refusal without a place is its number alone (D1.7).
    pub(crate) fn refused(&mut self, why: Refusal) {
        self.decimal(u64::from(u8::from(why)));
    }

    // A refusal that may have a place: 15, 16, 21 and 23 have one (D1.7).
    pub(crate) fn refused_at(&mut self, r: RefusedAt) {
        self.refused(r.why);
        if matches!(
            r.why,
            Refusal::PageDisputed | Refusal::PageMissing | Refusal::BadContents | Refusal::Mistyped
        ) {
            self.number(u64::from(r.place));
        }
    }

    // The reply to a call that writes nothing: the values behind an answer of 0, or a
    // refusal.
    pub(crate) fn told<T: Drop, E: Into<RefusedAt>, F: FnOnce(&mut Output, T)>(
        &mut self,
        answer: Result<T, E>,
        values: F,
    )
        requires { F.IsAlwaysCallable values }
    {
        match answer {
            Ok(v) => {
                self.done();
                values(self, v);
            }
            Err(why) => self.refused_at(why.into()),
        }
    }

    // Ends a reply: of the room, all but the first len bytes were lent and may not have changed
    // (D1.6).
    fn end(&mut self, len: usize, room: &[u8]) {
        match room.get(len..) {
            Some(rest) if is_untouched(rest) => {}
            _ => self.put(b" spilled"),
        }
    }

    // The reply to a call that writes into the room. A length above ROOM gives no bytes, and has
    // spilled (D1.8).
    pub(crate) fn wrote<E: Into<RefusedAt>>(&mut self, answer: Result<usize, E>, room: &[u8]) {
        match answer {
            Ok(len) => {
                self.done();
                self.bytes(room.get(..len).unwrap_or(b""));
                self.end(len, room);
            }
            // No byte of the room may have changed (D1.6).
            Err(why) => {
                self.refused_at(why.into());
                self.end(0, room);
            }
        }
    }
}

// Whether all of s is as it was lent (D1.6). Nothing that the libraries print shows a wrong answer
// of this one, so its contract is whole.
//
// stays (3): with `iter().all(..)` the proof of that contract did not close.
fn is_untouched(s: &[u8]) -> bool
    ensures { result ≡ same s.now (replicate (length s.now) 0xA5) }
{
    for &b in s {
        if b != UNTOUCHED {
            return false;
        }
    }
    true
}
