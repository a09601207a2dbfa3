// A scan and the words of a fault, laid out one part after another. Each function answers the index
// behind what it laid.
ghost use Rattle.std.specs.Prelude.{◌++◌, ◌+◌, ◌≤◌, length};
ghost use Rattle.digits.specs.Decimal.{line_feed};
ghost use Rattle.digits.specs.Private.{Laid};
ghost use Rattle.text.specs.Text.{base64, text_of};
ghost use Rattle.typing.specs.declared.Fault.TheVariants.{Count, Whole};
ghost use Rattle.typing.specs.Words.{of_line, count_words, belong_words, fault_words};

use crate::Fault;

const FULL_LINE: usize = 42;

// The text of bytes, where there is room for it: so it is not refused.
fn encode(bytes: &[u8], out: &mut [u8]) -> usize
    requires { (length bytes.now ≤ 800) × (1068 ≤ length out.old) }
    ensures { Laid 0 1067 (text_of base64 bytes.now) out.old out.new result }
{
    let Ok(len) = text::base64_write(bytes, out) else {
        return 0;
    };
    len
}

// The line of a scan.
pub(super) fn scan(bytes: &[u8], out: &mut [u8]) -> usize
    requires { (length bytes.now ≤ 800) × (1068 ≤ length out.old) }
    ensures { Laid 0 1068 (text_of base64 bytes.now ++ line_feed) out.old out.new result }
{
    let len = encode(bytes, out);
    lend::put(out, len, b'\n');
    len + 1
}

fn say(out: &mut [u8], at: usize, words: &[u8]) -> usize
    requires { at + length words.now ≤ length out.old }
    ensures { Laid at (length words.now) words.now out.old out.new result }
{
    lend::copy(out, at, words);
    at + words.len()
}

// `line N`, and what is wrong with it.
fn of_line(out: &mut [u8], line: usize, words: &[u8]) -> usize
    requires { 25 + length words.now ≤ length out.old }
    ensures { Laid 0 (25 + length words.now) (of_line line words.now) out.old out.new result }
{
    let number = say(out, 0, b"line ");
    let behind = number + digits::number(out, number, line as u64);
    say(out, behind, words)
}

fn has(out: &mut [u8], line: usize, count: usize) -> usize
    requires { 51 ≤ length out.old }
    ensures { Laid 0 51 (of_line line (count_words count)) out.old out.new result }
{
    if count < FULL_LINE {
        return of_line(out, line, b" has too few characters: ");
    }
    of_line(out, line, b" has too many characters: ")
}

fn belong(out: &mut [u8], at: usize, count: usize, last: bool) -> usize
    requires { at + 30 ≤ length out.old }
    ensures { Laid at 30 (belong_words count last ++ line_feed) out.old out.new result }
{
    if last {
        if count < FULL_LINE {
            return say(out, at, b", and at least 3 belong there\n");
        }
        return say(out, at, b", and at most 42 belong there\n");
    }
    say(out, at, b", and 42 belong there\n")
}

fn count(out: &mut [u8], line: usize, count: usize, last: bool) -> usize
    requires { 101 ≤ length out.old }
    ensures { Laid 0 101 (fault_words (Count line count last)) out.old out.new result }
{
    let number = has(out, line, count);
    let behind = number + digits::number(out, number, count as u64);
    belong(out, behind, count, last)
}

fn whole(out: &mut [u8], no: u8) -> usize
    requires { 95 ≤ length out.old }
    ensures { Laid 0 95 (fault_words (Whole no)) out.old out.new result }
{
    let number = say(out, 0, b"these lines are no good frame: refused ");
    let behind = number + digits::decimal(out, number, no);
    say(
        out,
        behind,
        b": see that all lines of one page are there, in order\n",
    )
}

pub(super) fn words(fault: Fault, out: &mut [u8]) -> usize
    requires { 160 ≤ length out.old }
    ensures { Laid 0 160 (fault_words fault) out.old out.new result }
{
    match fault {
        Fault::Good => 0,
        Fault::Nothing => say(
            out,
            0,
            b"no line was given: type the lines of one page, or give them on standard input\n",
        ),
        Fault::Letter { line } => of_line(
            out,
            line,
            b" has a character that is not in the alphabet, which has no capitals, no l, v, 0 or 2, and no carriage return\n",
        ),
        Fault::Count {
            line,
            count: n,
            last,
        } => count(out, usize::from(line), n, last),
        Fault::Surplus => say(out, 0, b"line 21 is one too many: a page has at most 20\n"),
        Fault::Mistyped { line } => of_line(out, usize::from(line), b" was mistyped\n"),
        Fault::Whole { no } => whole(out, no),
    }
}
