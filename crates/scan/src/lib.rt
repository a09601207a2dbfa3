// What the small program does with the lines that it reads: R15.1 to R15.3.
//
// It is a session, byte by byte, so that where its input is cut into parts cannot matter
// (`fed_append`: scan, Inputs). Of a whole input it is said what the rules say (scan, Input): which
// id its first line names, and which raw frames its other lines say. A session ends with the
// collection of these scans (`session_collects`), or, where no id is named, with nothing changed
// (`session_refused`), and its line is the status line of that (`session_prints`, `prints_set`). A
// session's collection is well formed whatever its input was (`fed_sound`, `closed_sound`: scan,
// Sound).
#![tactic(auto)]

pub mod session;

ghost use Rattle.wire.specs.Writing.{Written};
ghost use Rattle.scan.specs.Id.{id_verdict};

use wire::Refusal;

// The 8 bytes of the document id that a line of 16 lower-case hex digits says, at the front of out;
// or 19, then 11, and nothing changed.
pub fn id(line: &[u8], out: &mut [u8]) -> Result<usize, Refusal>
    ensures { Written 0 (id_verdict line.now) out.old out.new result }
{
    if line.len() != 16 {
        return Err(Refusal::OutOfRange);
    }
    digits::hex_read(line, out)
}
