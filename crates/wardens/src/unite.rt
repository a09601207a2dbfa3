// The secret of slips, or why they give none (R15.19).
use crate::gather::Slips;
use crate::{Failed, deliver, gather, told};
use wire::{Refusal, Span};

// One more than the most that are needed (R11.6).
const TRIED: usize = 256;

// The payload of slip i.
fn payload<'a>(slips: &Slips, cells: &'a [u8], i: usize) -> &'a [u8] {
    lend::part(cells, gather::payload(slips, i))
}

// How many slips are needed, as the first one says.
fn needed(slips: &Slips, cells: &[u8]) -> u64 {
    match shard::read(payload(slips, cells, 0)) {
        Ok(shard) => shard.quorum.threshold,
        Err(_) => 0,
    }
}

fn too_few(rt: HostRuntime, slips: &Slips, cells: &[u8]) {
    if slips.n < 1 {
        told::no_slip(rt);
        return;
    }
    told::too_few(rt, slips.n, needed(slips, cells));
}

// The first slip that is none of the first one's secret; where there is none, how many there are.
fn stranger(slips: &Slips, cells: &[u8]) -> usize {
    for i in 1..slips.n {
        if !recover::alike(payload(slips, cells, 0), payload(slips, cells, i)) {
            return i;
        }
    }
    slips.n.max(1)
}

// Where in the input, as a line, slip i began.
fn line(slips: &Slips, input: &[u8], i: usize) -> usize {
    gather::feeds(input, gather::at(&slips.places, i))
}

fn twice(rt: HostRuntime, slips: &Slips, input: &[u8]) {
    let n = slips.n;
    let Some((first, second)) = slips::repeated(&slips.numbers[..n]) else {
        return;
    };
    told::twice(rt, line(slips, input, first), line(slips, input, second));
}

// Whether the slips at these places are refused since one does not fit.
fn off(cells: &[u8], starts: &[usize], lens: &[usize]) -> bool {
    let mut secret = [0u8; wire::MOST_SHARE];
    let r = recover::recover(cells, starts, lens, &mut secret);
    lend::clear(&mut secret, 0, wire::MOST_SHARE);
    r == Err(Refusal::OffTheCurve)
}

// The first of them, so many, go to the front of others.
fn front(from: &[usize], n: usize, others: &mut [usize]) {
    for (to, x) in others.iter_mut().zip(from).take(n) {
        *to = *x;
    }
}

// The first slip that does not fit the needed ones before it; where there is none, how many there
// are.
fn misfit(slips: &Slips, cells: &[u8], needed: usize) -> usize {
    let mut starts = [0usize; TRIED];
    let mut lens = [0usize; TRIED];
    front(&slips.starts, needed, &mut starts);
    front(&slips.lens, needed, &mut lens);
    for i in needed..slips.n {
        if TRIED <= needed {
            return slips.n;
        }
        starts[needed] = gather::at(&slips.starts, i);
        lens[needed] = gather::at(&slips.lens, i);
        if off(cells, &starts[..needed + 1], &lens[..needed + 1]) {
            return i;
        }
    }
    slips.n.max(needed)
}

// Why these slips give no secret.
fn tell(rt: HostRuntime, why: Refusal, slips: &Slips, input: &[u8], cells: &[u8]) {
    match why {
        Refusal::TooFewSlips => too_few(rt, slips, cells),
        Refusal::UnlikeSlips => {
            told::unlike(rt, line(slips, input, stranger(slips, cells)));
        }
        Refusal::SlipTwice => twice(rt, slips, input),
        Refusal::OffTheCurve => {
            let i = misfit(slips, cells, needed(slips, cells) as usize);
            told::misfit(rt, line(slips, input, i));
        }
        Refusal::BadPadding => told::damaged(rt),
        _ => told::refusal(rt, why),
    }
}

// The secret goes to standard output. Its bytes are cleared at the end; the compiler may leave that
// out, since nobody reads them any more, and nothing is proved of it.
fn give(rt: HostRuntime, len: usize, secret: &mut [u8]) -> Result<(), Failed> {
    let done = deliver(rt, lend::part(secret, Span { start: 0, len }));
    lend::clear(secret, 0, wire::MOST_SHARE);
    done
}

pub(crate) fn recover(
    rt: HostRuntime,
    slips: &Slips,
    input: &[u8],
    cells: &[u8],
) -> Result<(), Failed> {
    let mut secret = [0u8; wire::MOST_SHARE];
    let n = slips.n;
    match recover::recover(cells, &slips.starts[..n], &slips.lens[..n], &mut secret) {
        Ok(len) => give(rt, len, &mut secret),
        Err(why) => {
            tell(rt, why, slips, input, cells);
            Err(Failed {})
        }
    }
}
