// A session of `pier` or `pantry`, fed with the bytes of its input in parts of any length.
ghost use Rattle.std.specs.Prelude.{◌≡◌, []};
ghost use Rattle.wire.specs.Answer.{done};
ghost use Rattle.wire.specs.Writing.{Written};
ghost use Rattle.scan.specs.Id.{id_verdict};
ghost use Rattle.scan.specs.Session.{scanned, line_of, started, ended, longer, next, fed, closed, reported, at};

use wire::Refusal;

// stays (1): `feed`, `close` and `report` take a session of any phase, and `session_refused`
// (Inputs) says of it what it is not.
//
// The phases. The first line has not ended:
pub const WAITING: u8 = 0;

pub const COLLECTING: u8 = 1;

// The first line was no document id (R15.1):
pub const REFUSED: u8 = 2;

// A longer line is passed over (R15.2).
const LINE_MOST: usize = 1024;

// As many bytes as a session asks of the line buffer: one more than a line may have.
pub const LINE_BUFFER: usize = LINE_MOST + 1;

// Where a session is: its phase, and how many bytes of the line buffer are those of the line that
// has not ended. The line buffer and the collection are lent beside it.
#[derive(Clone, Copy)]
pub struct Session {
    pub phase: u8,
    pub len: usize,
}

// The collection c after the scan of one line. A bad scan, or a line above 1,024 bytes, changes
// nothing.
pub fn scan(line: &[u8], c: &mut [u8])
    ensures { c.new ≡ scanned c.old line.now }
{
    if LINE_MOST < line.len() {
        return;
    }
    let mut raw = [0u8; LINE_MOST];
    let read = text::base64_read(line, &mut raw);
    let Ok(len) = read else {
        return;
    };
    let _ = collection::offer(c, &raw[0..len]);
}

// The bytes of the line that has not ended, in the line buffer; none where the buffer is shorter.
pub fn line_of(s: Session, line: &[u8]) -> &[u8]
    ensures { result.now ≡ line_of (at s line.now []) }
{
    let len = s.len;
    if len <= line.len() {
        return &line[0..len];
    }
    &line[0..0]
}

// stays (5): the buffers stand beside the session, since `feed` and `close` are lent them anew.

// The first line opens the collection (R15.1).
fn start(first: &[u8], s: Session, c: &mut [u8]) -> Session
    ensures { at result [] c.new ≡ started (at s [] c.old) (id_verdict first.now) }
{
    let mut id = [0u8; wire::ID_SIZE];
    let read = super::id(first, &mut id);
    let Ok(_) = read else {
        return Session {
            phase: REFUSED,
            len: 0,
        };
    };
    let _ = collection::open(&id, c);
    Session {
        phase: COLLECTING,
        len: 0,
    }
}

fn end_line(s: Session, line: &[u8], c: &mut [u8]) -> Session
    ensures { at result line.now c.new ≡ ended (at s line.now c.old) }
{
    let phase = s.phase;
    if phase == WAITING {
        return start(line_of(s, line), s, c);
    }
    if phase == COLLECTING {
        scan(line_of(s, line), c);
    }
    Session { phase, len: 0 }
}

// Of a line that is too long no more is counted than shows that it is (R15.2).
fn push(b: u8, s: Session, line: &mut [u8]) -> Session
    ensures { at result line.new [] ≡ longer (at s line.old []) b }
{
    let len = s.len;
    lend::put(line, len, b);
    if len <= LINE_MOST {
        return Session {
            phase: s.phase,
            len: len + 1,
        };
    }
    s
}

// A line feed ends the line and is no part of it (R15.3).
fn byte(b: u8, s: Session, line: &mut [u8], c: &mut [u8]) -> Session
    ensures { at result line.new c.new ≡ next (at s line.old c.old) b }
{
    if b == b'\n' {
        return end_line(s, &line[..], c);
    }
    push(b, s, line)
}

// The session after the next bytes of its input, however the input is cut into parts.
pub fn feed(part: &[u8], s: Session, line: &mut [u8], c: &mut [u8]) -> Session
    ensures { at result line.new c.new ≡ fed (at s line.old c.old) part.now }
{
    let mut now = s;
    for b in part {
        now = byte(*b, now, line, c);
    }
    now
}

// The session after the end of its input, where the last line may lack its line feed.
pub fn close(s: Session, line: &[u8], c: &mut [u8]) -> Session
    ensures { at result line.now c.new ≡ closed (at s line.now c.old) }
{
    if s.len == 0 {
        return s;
    }
    end_line(s, line, c)
}

// The one status line, or `refused 19` where the session does not collect, at the front of out, and
// its length; or 11 and nothing changed.
pub fn report(s: Session, c: &[u8], out: &mut [u8]) -> Result<usize, Refusal>
    ensures { Written 0 (done (reported s.phase c.now)) out.old out.new result }
{
    if s.phase == COLLECTING {
        return status::status(c, out);
    }
    digits::refused_line(u8::from(Refusal::OutOfRange), out)
}
