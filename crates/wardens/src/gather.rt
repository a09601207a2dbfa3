// The slips of an input, each read and kept in a cell of its own (R15.18, R15.19).
ghost use Rattle.std.specs.Prelude.{◌≤◌};

use crate::{Failed, told};
use slips::{NoSlip, Share, Slip};
use wire::Span;

// No input has more slips; no secret has more than 255.
pub(crate) const MOST: usize = 300;

// Room for the frame of a slip.
pub(crate) const CELL: usize = 512;

// The slips that were kept, n of them: for each where it began in the input, where its payload
// stands among the cells, how long that is, and the number of its share.
//
// stays (6): there is no heap, so n says how much of each is meant; `recover::recover` takes where
// the payloads start and how long they are as two lists, and `slips::repeated` takes the numbers as
// one.
#[derive(Clone, Copy)]
pub(crate) struct Slips {
    pub(crate) n: usize,
    pub(crate) places: [usize; MOST],
    pub(crate) starts: [usize; MOST],
    pub(crate) lens: [usize; MOST],
    pub(crate) numbers: [u8; MOST],
    ghost few: { n ≤ 300 },
}

pub(crate) fn none() -> Slips {
    Slips {
        n: 0,
        places: [0; MOST],
        starts: [0; MOST],
        lens: [0; MOST],
        numbers: [0; MOST],
    }
}

// The number at a place; 0 where there is none.
pub(crate) fn at(list: &[usize], i: usize) -> usize {
    list.get(i).copied().unwrap_or(0)
}

// Where the payload of slip i stands.
pub(crate) fn payload(slips: &Slips, i: usize) -> Span {
    Span {
        start: at(&slips.starts, i),
        len: at(&slips.lens, i),
    }
}

// How many line feeds stand in front of an index.
pub(crate) fn feeds(input: &[u8], start: usize) -> usize {
    slips::feeds(lend::part(
        input,
        Span {
            start: 0,
            len: start,
        },
    ))
}

// One more slip, which began at this place of the input: where its payload stands among the cells,
// and which share it is.
fn keep(slips: &mut Slips, place: usize, share: Share) -> Result<(), Failed> {
    let n = slips.n;
    if MOST <= n || CELL < share.payload.start {
        return Err(Failed {});
    }
    let Ok(number) = u8::try_from(share.quorum.index) else {
        return Err(Failed {});
    };
    slips.places[n] = place;
    slips.starts[n] = n * CELL + share.payload.start;
    slips.lens[n] = share.payload.len;
    slips.numbers[n] = number;
    slips.n = n + 1;
    Ok(())
}

// What a text is instead of a slip.
fn tell(rt: HostRuntime, feeds: usize, typed: bool, why: NoSlip) {
    match why {
        NoSlip::Text(why) => told::text(rt, feeds, why, typed),
        NoSlip::Frame(why) => told::frame(rt, feeds, why),
        NoSlip::Other(kind) => told::other(rt, feeds, kind),
        NoSlip::Shard(why) => told::shard(rt, feeds, why),
        NoSlip::Short => told::short(rt, feeds),
    }
}

// The next slip, which stands there in the input.
fn one(
    rt: HostRuntime,
    input: &[u8],
    slip: Slip,
    cells: &mut [u8],
    slips: &mut Slips,
) -> Result<(), Failed> {
    let mut room = [0u8; CELL];
    let text = lend::part(
        input,
        Span {
            start: slip.start,
            len: slip.len,
        },
    );
    match slips::read(text, slip.typed, &mut room) {
        Ok(share) => {
            lend::copy(cells, slips.n * CELL, &room);
            keep(slips, slip.start, share)
        }
        Err(why) => {
            tell(rt, feeds(input, slip.start), slip.typed, why);
            Err(Failed {})
        }
    }
}

// All slips of an input: their frames in the cells, and where they stand. The first that is none is
// told, and so is one too many.
pub(crate) fn all(
    rt: HostRuntime,
    input: &[u8],
    cells: &mut [u8],
    slips: &mut Slips,
) -> Result<(), Failed> {
    let mut from = 0;
    for _ in 0..MOST {
        let Some(slip) = slips::next(input, from) else {
            return Ok(());
        };
        one(rt, input, slip, cells, slips)?;
        from = slip.start.saturating_add(slip.len);
    }
    if slips::next(input, from).is_some() {
        told::too_many(rt);
        return Err(Failed {});
    }
    Ok(())
}
