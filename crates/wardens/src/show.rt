// Slips as they are typed: for each which it is, and its lines (R15.21).
use crate::gather::Slips;
use crate::{Failed, closed, gather, wrote};
use shard::Quorum;
use wire::Span;

// Twenty lines, each of 42 characters, 6 spaces and a line feed.
const LINES_ROOM: usize = 980;

// `slip 255 of 255` and its line feed.
const TITLE_ROOM: usize = 16;

// A frame ends with its checksum, four bytes behind its data.
const SUM: usize = 4;

fn share(payload: &[u8]) -> Quorum {
    match shard::read(payload) {
        Ok(shard) => shard.quorum,
        Err(_) => Quorum {
            threshold: 0,
            count: 0,
            index: 0,
        },
    }
}

// `slip I of N`.
fn title(rt: HostRuntime, q: Quorum) -> Result<(), Failed> {
    let mut line = [0u8; TITLE_ROOM];
    let (Ok(index), Ok(count)) = (u8::try_from(q.index), u8::try_from(q.count)) else {
        return Err(Failed {});
    };
    lend::copy(&mut line, 0, b"slip ");
    let after = 5 + digits::decimal(&mut line, 5, index);
    lend::copy(&mut line, after, b" of ");
    let end = after + 4 + digits::decimal(&mut line, after + 4, count);
    lend::put(&mut line, end, b'\n');
    wrote(rt, &line[..end + 1])
}

fn lines(rt: HostRuntime, frame: &[u8]) -> Result<(), Failed> {
    let mut out = [0u8; LINES_ROOM];
    let Ok(len) = sheet::in_groups(frame, &mut out) else {
        return Err(Failed {});
    };
    wrote(rt, lend::part(&out, Span { start: 0, len }))
}

// Where the frame of slip n stands in its cell, whose payload stands there too.
fn framed(n: usize, payload: Span) -> Span {
    let none = Span { start: 0, len: 0 };
    if gather::MOST <= n {
        return none;
    }
    let cell = n * gather::CELL;
    if payload.start < cell {
        return none;
    }
    let front = payload.start - cell;
    if gather::CELL < front || gather::CELL < payload.len {
        return none;
    }
    Span {
        start: cell,
        len: front + payload.len + SUM,
    }
}

fn one(rt: HostRuntime, n: usize, cells: &[u8], payload: Span) -> Result<(), Failed> {
    if 0 < n {
        wrote(rt, b"\n")?;
    }
    title(rt, share(lend::part(cells, payload)))?;
    lines(rt, lend::part(cells, framed(n, payload)))
}

// All slips, with an empty line between two.
pub(crate) fn typed(rt: HostRuntime, slips: &Slips, cells: &[u8]) -> Result<(), Failed> {
    for i in 0..slips.n {
        one(rt, i, cells, gather::payload(slips, i))?;
    }
    closed(rt)
}
