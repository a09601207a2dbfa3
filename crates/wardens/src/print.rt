// One slip of a split: what is to be signed of it, and the slip itself, a line each (R15.20).
use crate::deal::Deal;
use crate::{Failed, told, wrote};
use shard::Quorum;
use wire::{Refusal, Span};

// More than the bytes that get signed, a payload, or a frame have.
const ROOM: usize = 512;

// Such bytes as hex, or as base64, and a line feed.
const LINE: usize = 1_025;

fn quorum(d: &Deal, i: usize) -> Quorum {
    Quorum {
        threshold: d.threshold,
        count: d.count,
        index: (i % 255) as u64 + 1,
    }
}

fn kind(seed: bool) -> &'static [u8] {
    if seed { b"signing-seed" } else { b"passphrase" }
}

// What was written at the front of a buffer; or why it was not, which is told.
fn made(rt: HostRuntime, out: &[u8], r: Result<usize, Refusal>) -> Result<&[u8], Failed> {
    match r {
        Ok(len) => Ok(lend::part(out, Span { start: 0, len })),
        Err(why) => {
            told::not_split(rt, why);
            Err(Failed {})
        }
    }
}

// A line of hex.
fn hex_line(rt: HostRuntime, bytes: &[u8]) -> Result<(), Failed> {
    let mut line = [0u8; LINE];
    if ROOM < bytes.len() {
        return Err(Failed {});
    }
    let len = 2 * bytes.len();
    digits::hex(&mut line, 0, bytes);
    lend::put(&mut line, len, b'\n');
    wrote(rt, &line[..len + 1])
}

// What is to be signed of slip i, of a secret of so many bytes, as a line.
pub(crate) fn ask(
    rt: HostRuntime,
    d: &Deal,
    i: usize,
    len: usize,
    share: &[u8],
) -> Result<(), Failed> {
    let mut out = [0u8; ROOM];
    let r = shard::signed(
        d.key,
        d.document,
        kind(d.seed),
        share,
        len as u64,
        quorum(d, i),
        &mut out,
    );
    hex_line(rt, made(rt, &out, r)?)
}

// A slip's line.
fn scan_line(rt: HostRuntime, frame: &[u8]) -> Result<(), Failed> {
    let mut line = [0u8; LINE];
    let Ok(len) = text::base64_write(frame, &mut line) else {
        return Err(Failed {});
    };
    if LINE <= len {
        return Err(Failed {});
    }
    lend::put(&mut line, len, b'\n');
    wrote(rt, &line[..len + 1])
}

fn frame_line(rt: HostRuntime, document: &[u8], payload: &[u8]) -> Result<(), Failed> {
    let mut out = [0u8; ROOM];
    let id = lend::part(
        document,
        Span {
            start: 0,
            len: wire::ID_SIZE,
        },
    );
    let r = payload_frame::key(id, payload, &mut out);
    scan_line(rt, made(rt, &out, r)?)
}

// Slip i, with its signature, as a line.
pub(crate) fn slip(
    rt: HostRuntime,
    d: &Deal,
    i: usize,
    len: usize,
    share: &[u8],
    signature: &[u8],
) -> Result<(), Failed> {
    let mut out = [0u8; ROOM];
    let r = shard::write(
        d.key,
        signature,
        d.document,
        kind(d.seed),
        share,
        len as u64,
        quorum(d, i),
        &mut out,
    );
    frame_line(rt, d.document, made(rt, &out, r)?)
}
