// The search for the line that is wrong, character by character.
ghost use Rattle.std.specs.Prelude.{◌≡◌, ◌≤◌, ◌<◌, length};
ghost use Rattle.typed.specs.Typed.{count_right, lines_of};
ghost use Rattle.typing.specs.Typing.{may_stand, line_after, odd_line, count_fault};
ghost use Rattle.typing.specs.Private.{stepped, ended};

use crate::Fault;
use wire::Refusal;

const FEED: u8 = b'\n';

// ---- a character that may not stand there

#[tactic(auto, unfolding(crate::specs::Typing::may_stand, typed::specs::Typed::is_letter))]
fn may_stand(c: u8) -> bool
    ensures { result ≡ may_stand c }
{
    c == FEED || typed::skipped(c) || text::zbase32_value(c) < 32
}

fn line_after(n: usize, c: u8) -> usize
    requires { n < 0xFFFFFFFFFFFFFFFF }
    ensures { result ≡ line_after n c }
{
    if c == FEED {
        return n + 1;
    }
    n
}

// The number of the line with the first character that no line may have; 0 where there is none.
// stays (1): so the definition of that name has it, by which `fault_of` tells the line
pub(super) fn odd_line(text: &[u8]) -> usize
    ensures { result ≡ odd_line 1 text.now }
{
    let mut n = 1;
    for c in text {
        if !may_stand(*c) {
            return n;
        }
        n = line_after(n, *c);
    }
    0
}

// ---- counts

// A line, and how many of its characters have passed.
#[derive(Clone, Copy)]
pub struct At {
    pub n: u8,
    pub count: usize,
}

// Whether a line may have so many characters, as the last one or not.
fn fits(count: usize, last: bool) -> bool
    ensures { result ≡ count_right last count }
{
    if last {
        3 <= count && count <= typed::FULL_LINE
    } else {
        count == typed::FULL_LINE
    }
}

// The line ends, and another follows; or it has another count than it may have, or is the 20th.
fn close(a: At) -> Result<At, Fault>
    requires { a.n ≤ 20 }
    ensures { result ≡ stepped a 10 }
{
    if !fits(a.count, false) {
        return Err(Fault::Count {
            line: a.n,
            count: a.count,
            last: false,
        });
    }
    if a.n == typed::MOST_LINES {
        return Err(Fault::Surplus);
    }
    Ok(At {
        n: a.n + 1,
        count: 0,
    })
}

fn feed(a: At, c: u8) -> Result<At, Fault>
    requires { (a.n ≤ 20) × (a.count < 0xFFFFFFFFFFFFFFFF) }
    ensures { result ≡ stepped a c }
{
    if c == FEED {
        return close(a);
    }
    if typed::skipped(c) {
        return Ok(a);
    }
    Ok(At {
        count: a.count + 1,
        ..a
    })
}

fn end(a: At) -> Fault
    ensures { result ≡ ended a }
{
    if fits(a.count, true) {
        return Fault::Whole {
            no: u8::from(Refusal::BadTextLength),
        };
    }
    Fault::Count {
        line: a.n,
        count: a.count,
        last: true,
    }
}

// The first line of a text that has not as many characters as it may, or the 21st.
pub(super) fn count(text: &[u8]) -> Fault
    requires { 1 ≤ length text.now }
    ensures { result ≡ count_fault 1 (lines_of text.now) }
{
    let mut a = At { n: 1, count: 0 };
    for c in text {
        match feed(a, *c) {
            Ok(at) => a = at,
            Err(fault) => return fault,
        }
    }
    end(a)
}
