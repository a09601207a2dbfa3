// What the pantry tells of a session beside its status: how many lines came to what, and what is
// wrong with a first line that is no document id (R15.9, R15.10). A session of `scan` runs as it
// does, and the notes are taken beside it.
#![tactic(auto)]

ghost use Rattle.std.specs.Prelude.{◌≡◌};
ghost use Rattle.scan.specs.Session.{fed, closed, at};
ghost use Rattle.notes.specs.Line.{kind_number};
ghost use Rattle.notes.specs.Notes.{raised, noted, noted_next, noted_all, noted_last};

mod line;

use scan::session;
use scan::session::Session;

// What a line came to. Its number is its index among the notes.
#[derive(Clone, Copy, Debug, PartialEq, Eq)]
pub enum Kind {
    Taken,
    Seen,
    Other,
    Unreadable,
    Long,
}

// The index of a kind among the notes.
impl From<Kind> for usize {
    ghost from_gives = { λ kind n. n ≡ kind_number kind };

    fn from(kind: Kind) -> usize {
        match kind {
            Kind::Taken => 0,
            Kind::Seen => 1,
            Kind::Other => 2,
            Kind::Unreadable => 3,
            Kind::Long => 4,
        }
    }
}

// The index of the fault of the first line.
pub const FAULT: usize = 5;

// How many numbers the notes are.
pub const SIZE: usize = 6;

// A number that is full stays as it is.
fn raise(notes: &mut [u64], k: usize)
    ensures { notes.new ≡ raised notes.old k }
{
    if k < notes.len() {
        notes[k] = notes[k].saturating_add(1);
    }
}

// stays (5): the buffers stand beside the session, as in `session::feed` and `session::close`.

// Notes what the line that now ends is, before the session takes it.
fn note(s: Session, line: &[u8], c: &[u8], notes: &mut [u64])
    ensures { notes.new ≡ noted (at s line.now c.now) notes.old }
{
    let phase = s.phase;
    if phase == session::WAITING {
        let fault = line::fault(session::line_of(s, line));
        if FAULT < notes.len() {
            notes[FAULT] = u64::from(fault);
        }
        return;
    }
    if phase == session::COLLECTING {
        let kind = line::kind(session::line_of(s, line), c);
        raise(notes, usize::from(kind));
    }
}

// A line feed ends a line (R15.3).
fn note_byte(b: u8, s: Session, line: &[u8], c: &[u8], notes: &mut [u64])
    ensures { notes.new ≡ noted_next (at s line.now c.now) notes.old b }
{
    if b != b'\n' {
        return;
    }
    note(s, line, c, notes);
}

// The last line may lack its line feed (R15.3).
fn note_last(s: Session, line: &[u8], c: &[u8], notes: &mut [u64])
    ensures { notes.new ≡ noted_last (at s line.now c.now) notes.old }
{
    if s.len == 0 {
        return;
    }
    note(s, line, c, notes);
}

// The session after the next bytes of its input, as `session::feed` has it, with the notes of the
// lines that ended.
pub fn feed(part: &[u8], s: Session, line: &mut [u8], c: &mut [u8], notes: &mut [u64]) -> Session
    ensures { (at result line.new c.new ≡ fed (at s line.old c.old) part.now) × (notes.new ≡ noted_all (at s line.old c.old) notes.old part.now) }
{
    let mut now = s;
    for b in part {
        note_byte(*b, now, &line[..], &c[..], notes);
        now = session::feed(&[*b], now, line, c);
    }
    now
}

// The session after the end of its input, as `session::close` has it, with the notes of its last
// line.
pub fn close(s: Session, line: &[u8], c: &mut [u8], notes: &mut [u64]) -> Session
    ensures { (at result line.now c.new ≡ closed (at s line.now c.old)) × (notes.new ≡ noted_last (at s line.now c.old) notes.old) }
{
    note_last(s, line, &c[..], notes);
    session::close(s, line, c)
}
