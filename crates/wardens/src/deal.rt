// A secret, split among the wardens (R15.20). What is to be signed goes out before the signatures
// come in: whoever signs is at the other end of both pipes.
ghost use Rattle.std.specs.Prelude.{◌≤◌};

use crate::{Failed, closed, print, told};
use std::random::RandomSource;
use wire::Span;

// The secret, and a line of 129 bytes for each of 255 signatures, have fewer.
const INPUT: usize = 65_536;

// As much is drawn from the system at once.
const DRAWN: usize = 256;

// 14 blocks of 16 bytes, for each of the 254 powers above 0.
const COEFFICIENTS: usize = 56_896;

// 255 shares of 224 bytes.
const SHARES: usize = 57_120;

const SEED_SIZE: usize = 32;

const SIGNATURE: usize = 64;

// 255 signatures.
const SIGNATURES: usize = 16_320;

// What all slips of a split share: how many give the secret back, how many there are, whether the
// secret is a seed, the key that signs, and the digest of the document.
#[derive(Clone, Copy)]
pub(crate) struct Deal<'a> {
    pub(crate) threshold: u64,
    pub(crate) count: u64,
    pub(crate) seed: bool,
    pub(crate) key: &'a [u8],
    pub(crate) document: &'a [u8],
}

// Reads until there are so many lines, and not further than what comes with their last line feed;
// or to the end of the input, or until the buffer is full. How many bytes there are then, those
// held before among them. A fault is told.
//
// stays (3): how far a turn comes, the read says, so it is no `for`.
fn fill(rt: HostRuntime, input: &mut [u8], held: usize, lines: usize) -> Result<usize, Failed> {
    if input.len() < held {
        return Err(Failed {});
    }
    let mut len = held;
    while len < input.len() {
        if lines <= slips::feeds(&input[..len]) {
            return Ok(len);
        }
        match edge::read(rt, &mut input[len..]) {
            Ok(0) => return Ok(len),
            Ok(n) => len += n,
            Err(error) => {
                edge::fail(rt, b"standard input", error);
                return Err(Failed {});
            }
        }
    }
    Ok(len)
}

// How long the secret is that the first line says.
fn secret_in(line: &[u8], seed: bool, secret: &mut [u8]) -> Option<usize> {
    if seed {
        return slips::hex(line, SEED_SIZE, secret).ok();
    }
    if line.is_empty() || wire::MOST_SHARE < line.len() {
        return None;
    }
    lend::copy(secret, 0, line);
    Some(line.len())
}

// Random bytes.
fn draw(rt: HostRuntime, out: &mut [u8]) -> Result<(), Failed> {
    for some in out.chunks_mut(DRAWN) {
        if rt.fill_bytes(some).is_err() {
            told::no_chance(rt);
            return Err(Failed {});
        }
    }
    Ok(())
}

// ---- all slips

// How many bytes a share of a secret of so many bytes has (R11.5).
fn padded(len: usize) -> usize
    ensures { result ≤ 224 }
{
    (len % 225 + 15) / 16 * 16
}

// For each slip of the split its number, from 0 on, and its share.
fn each<F: FnMut(usize, &[u8]) -> Result<(), Failed> + Drop>(
    d: &Deal,
    len: usize,
    shares: &[u8],
    mut say: F,
) -> Result<(), Failed>
    requires { F.IsAlwaysCallable say }
{
    let size = padded(len);
    let mut at: usize = 0;
    for i in 0..d.count as usize {
        say(
            i,
            lend::part(
                shares,
                Span {
                    start: at,
                    len: size,
                },
            ),
        )?;
        at = at.saturating_add(size);
    }
    Ok(())
}

// Where the signature of slip i stands among them.
fn signature(i: usize) -> Span {
    Span {
        start: (i % 255) * SIGNATURE,
        len: SIGNATURE,
    }
}

// Signature i, which is this line.
fn sign(i: usize, line: &[u8], signatures: &mut [u8]) -> bool {
    let mut out = [0u8; SIGNATURE];
    if slips::hex(line, SIGNATURE, &mut out).is_err() {
        return false;
    }
    lend::copy(signatures, signature(i).start, &out);
    true
}

// Where the next line begins, behind one that ends at this index.
fn past(input: &[u8], end: usize) -> usize {
    if end < input.len() {
        return end + 1;
    }
    end
}

// The signatures of all slips, a line each, from this index of the input on. The first that lacks
// or is none is told.
fn sign_all(
    rt: HostRuntime,
    count: usize,
    input: &[u8],
    from: usize,
    signatures: &mut [u8],
) -> Result<(), Failed> {
    let mut at = from;
    for i in 0..count {
        if input.len() <= at {
            told::no_signature(rt, i, false);
            return Err(Failed {});
        }
        let end = slips::line_end(input, at);
        let line = lend::part(
            input,
            Span {
                start: at,
                len: end.saturating_sub(at),
            },
        );
        if !sign(i, line, signatures) {
            told::no_signature(rt, i, true);
            return Err(Failed {});
        }
        at = past(input, end);
    }
    Ok(())
}

// ---- the whole

// The shares of a secret, from random coefficients: for each power above 0 as many bytes as the
// secret's blocks have.
fn shares_of(rt: HostRuntime, d: &Deal, secret: &[u8], shares: &mut [u8]) -> Result<(), Failed> {
    let mut coefficients = [0u8; COEFFICIENTS];
    let powers = d.threshold.saturating_sub(1) as usize;
    let need = padded(secret.len())
        .saturating_mul(powers)
        .min(COEFFICIENTS);
    draw(rt, &mut coefficients[..need])?;
    let r = split::split(secret, d.threshold, d.count, &coefficients[..need], shares);
    lend::clear(&mut coefficients, 0, COEFFICIENTS);
    match r {
        Ok(_) => Ok(()),
        Err(why) => {
            told::not_split(rt, why);
            Err(Failed {})
        }
    }
}

// The signatures, and then the slips. The input holds so many bytes, of which the secret's line
// ends at this index.
fn finish(
    rt: HostRuntime,
    d: &Deal,
    len: usize,
    shares: &[u8],
    input: &mut [u8],
    held: usize,
    end: usize,
) -> Result<(), Failed> {
    let mut signatures = [0u8; SIGNATURES];
    let taken = fill(rt, input, held, (d.count % 256) as usize + 1)?;
    let all = lend::part(
        input,
        Span {
            start: 0,
            len: taken,
        },
    );
    sign_all(rt, d.count as usize, all, past(all, end), &mut signatures)?;
    each(d, len, shares, |i, share| {
        print::slip(rt, d, i, len, share, lend::part(&signatures, signature(i)))
    })?;
    closed(rt)
}

// Splits, once the secret is there.
fn split_up(
    rt: HostRuntime,
    d: &Deal,
    secret: &[u8],
    input: &mut [u8],
    held: usize,
    end: usize,
) -> Result<(), Failed> {
    let len = secret.len();
    let mut shares = [0u8; SHARES];
    shares_of(rt, d, secret, &mut shares)?;
    each(d, len, &shares, |i, share| print::ask(rt, d, i, len, share))?;
    let done = finish(rt, d, len, &shares, input, held, end);
    lend::clear(&mut shares, 0, SHARES);
    done
}

// What held the secret, its shares and the coefficients is cleared at the end; the compiler may
// leave that out, since nobody reads it any more, and nothing is proved of it.
pub(crate) fn run(rt: HostRuntime, d: Deal) -> Result<(), Failed> {
    let mut input = [0u8; INPUT];
    let mut secret = [0u8; wire::MOST_SHARE];
    told::waiting(rt, false);
    let held = fill(rt, &mut input, 0, 1)?;
    let first = lend::part(
        &input,
        Span {
            start: 0,
            len: held,
        },
    );
    let end = slips::line_end(first, 0);
    let line = lend::part(first, Span { start: 0, len: end });
    let Some(len) = secret_in(line, d.seed, &mut secret) else {
        told::no_secret(rt, d.seed);
        return Err(Failed {});
    };
    let said = lend::part(&secret, Span { start: 0, len });
    let done = split_up(rt, &d, said, &mut input, held, end);
    lend::clear(&mut input, 0, INPUT);
    lend::clear(&mut secret, 0, wire::MOST_SHARE);
    done
}
