// The verb that recovers a secret from the wardens' slips (D2.14).
ghost use Rattle.std.specs.Prelude.{◌≤◌, length};

use crate::reply::Output;
use crate::words::Call;
use crate::words::Kind::{Bytes, Room};
use wire::{Refusal, Span};

// The most slips of a line (D2.14).
const MOST: usize = 300;

// The words before the first slip: the verb and ROOM.
const BEFORE_SLIPS: usize = 2;

// Where the bytes of each slip stand in the pool, and how many they are.
//
// stays (6): `recover::recover` takes two tables.
fn find(call: Call, starts: &mut [usize], lens: &mut [usize]) {
    for (i, (start, len)) in starts.iter_mut().zip(lens.iter_mut()).enumerate() {
        let slip = call.place(BEFORE_SLIPS + i);
        *start = slip.start;
        *len = slip.len;
    }
}

fn recover(call: Call, n: usize, room: &mut [u8]) -> Result<usize, Refusal>
    requires { n ≤ 300 }
{
    let mut starts = [0usize; MOST];
    let mut lens = [0usize; MOST];
    find(call, &mut starts, &mut lens);
    recover::recover(call.pool(), &starts[..n], &lens[..n], room)
}

// The reply to a line of recover; false for any other line.
pub(crate) fn call(call: Call, room: &mut [u8], out: &mut Output) -> bool {
    if !matches!(call.word(0), b"recover") || !call.fits(1, &[Room]) {
        return false;
    }
    let n = call.count().saturating_sub(BEFORE_SLIPS);
    if n > MOST || !call.fits(BEFORE_SLIPS, &[Bytes; MOST][..n]) {
        return false;
    }
    out.wrote(recover(call, n, room), room);
    true
}
