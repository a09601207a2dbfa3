// The lines of an input, and where the slips among them stand (R15.18).
ghost use Rattle.std.specs.Prelude.{◌≡◌, ◌+◌, ◌≤◌, length};
ghost use Rattle.slips.specs.Standing.{lines_from, first_line, is_typed, run_on, next_from};
ghost use Rattle.slips.specs.Private.{behind};

use crate::{Slip, place};

const FEED: u8 = b'\n';

pub(super) fn line_end(s: &[u8], at: usize) -> usize
    ensures { result ≡ at + length (first_line (lines_from s.now at)) }
{
    if s.len() <= at {
        return at;
    }
    at + place(&s[at..], FEED).unwrap_or(s.len() - at)
}

fn is_typed(line: &[u8]) -> bool
    ensures { result ≡ is_typed line.now }
{
    let n = typed::counted(line);
    0 < n && n <= typed::FULL_LINE
}

// Where the typed lines of a slip end, of which the first ends at this index.
fn typed_end(s: &[u8], end: usize) -> usize
    requires { end ≤ length s.now }
    ensures { result ≡ end + run_on (behind s.now end) }
{
    let mut last = end;
    // stays (3): a turn goes on by a line, whose end the next begins at
    while last < s.len() {
        let from = last + 1;
        let stop = line_end(s, from);
        if !is_typed(&s[from..stop]) {
            return last;
        }
        last = stop;
    }
    last
}

pub(super) fn next(s: &[u8], at: usize) -> Option<Slip>
    ensures { result ≡ next_from s.now at }
{
    let mut from = at;
    // stays (3): a turn goes on by a line
    while from < s.len() {
        let end = line_end(s, from);
        let n = typed::counted(&s[from..end]);
        if typed::FULL_LINE < n {
            return Some(Slip {
                start: from,
                len: end - from,
                typed: false,
            });
        }
        if 0 < n {
            return Some(Slip {
                start: from,
                len: typed_end(s, end) - from,
                typed: true,
            });
        }
        if s.len() <= end {
            return None;
        }
        from = end + 1;
    }
    None
}
