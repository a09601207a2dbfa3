// What a refusal means and what to do, in words (R15.9, R15.10).
ghost use Rattle.std.specs.Prelude.{◌+◌, ◌*◌, ◌≤◌, length};
ghost use Rattle.wire.specs.Answer.{done};
ghost use Rattle.wire.specs.Writing.{Written};
ghost use Rattle.digits.specs.Private.{Laid};
ghost use Rattle.digits.specs.Hex.{hex_of};
ghost use Rattle.book.specs.Read.{id_of};
ghost use Rattle.told.specs.Words.{advice as advice_of, first_advice, stranger_line};

use wire::Refusal;

// Room for the line of two ids.
const ROOM: usize = 128;

// stays (1): no and fault are any number, since an enum would ask more of callers.

// What finish or the kept file answered, 0 or a refusal's number, as a line at the front of out,
// and its length; or 11 and nothing changed.
pub fn advice(no: u8, out: &mut [u8]) -> Result<usize, Refusal>
    ensures { Written 0 (done (advice_of no)) out.old out.new result }
{
    match no {
        0 => lend::give(
            b"complete: every page is here, and together they are the document\n",
            out,
        ),
        11 => lend::give(
            b"refused 11: the file named above cannot be read or written: mend that, and run pantry again on the same scans\n",
            out,
        ),
        13 => lend::give(
            b"refused 13: the kept file is damaged, or no collection, and stays as it is: move it away, and scan every page again\n",
            out,
        ),
        14 => lend::give(
            b"refused 14: the pages name different totals, so some are of another print: scan into a new collection without those\n",
            out,
        ),
        15 => lend::give(
            b"refused 15: a disputed page was read in two versions: scan every page into a new collection, and these with care\n",
            out,
        ),
        16 => lend::give(
            b"refused 16: not complete: scan the pages that are missing\n",
            out,
        ),
        17 => lend::give(
            b"refused 17: every page is here, but they are not the document of this id: compare the id, and scan into a new collection\n",
            out,
        ),
        _ => digits::refused_line(no, out),
    }
}

// What is wrong with the first line, as the notes of a session say it, or that there is none, as a
// line at the front of out, and its length; or 11 and nothing changed.
pub fn first_advice(fault: u64, out: &mut [u8]) -> Result<usize, Refusal>
    ensures { Written 0 (done (first_advice fault)) out.old out.new result }
{
    match fault {
        0 => lend::give(
            b"refused 19: the input is empty: the first line is the document's id, and each further one a scan\n",
            out,
        ),
        1 => lend::give(
            b"refused 19: the first line is not 16 digits long: it must be the document's id\n",
            out,
        ),
        2 => lend::give(
            b"refused 19: the first line has a carriage return: the document's id ends with a line feed alone\n",
            out,
        ),
        3 => lend::give(
            b"refused 19: the first line has a blank: the document's id is 16 digits and nothing else\n",
            out,
        ),
        4 => lend::give(
            b"refused 19: the first line has a capital letter: the document's id is in small letters\n",
            out,
        ),
        5 => lend::give(
            b"refused 19: the first line has a sign beyond ASCII, perhaps a byte order mark in front: it must be the document's id alone\n",
            out,
        ),
        _ => lend::give(
            b"refused 19: the first line is not the document's id, which is 16 digits of 0 to 9 and a to f\n",
            out,
        ),
    }
}

// An id in hex, from the index on. Answers the index behind it.
fn id(out: &mut [u8], at: usize, c: &[u8]) -> usize
    requires { at + 16 ≤ length out.old }
    ensures { Laid at 16 (hex_of (id_of c.now)) out.old out.new result }
{
    let id = book::id(c);
    digits::hex(out, at, id);
    at + 2 * id.len()
}

// A text, from the index on. Answers the index behind it.
fn text(out: &mut [u8], at: usize, words: &[u8]) -> usize
    requires { at + length words.now ≤ length out.old }
    ensures { Laid at (length words.now) words.now out.old out.new result }
{
    lend::copy(out, at, words);
    at + words.len()
}

// That the kept file and what was scanned are of two documents, by their ids, as a line at the
// front of out, and its length; or 11 and nothing changed.
pub fn stranger(kept: &[u8], scanned: &[u8], out: &mut [u8]) -> Result<usize, Refusal>
    ensures { Written 0 (done (stranger_line (id_of kept.now) (id_of scanned.now))) out.old out.new result }
{
    let mut room = [0u8; ROOM];
    let a = text(&mut room, 0, b"refused 12: the kept file is of document ");
    let b = id(&mut room, a, kept);
    let d = text(&mut room, b, b", and this input of ");
    let e = id(&mut room, d, scanned);
    let end = text(&mut room, e, b": name another file\n");
    lend::give(&room[0..end], out)
}
