// The shard payload, read and written, and the bytes that get signed: section 11 of docs/RULES.md.
//
// What is written reads back, and what is read is exactly the written form of its value, which the
// writer accepts (`shard_back`, `shard_only`, `shard_once`: shard, Rounds).
//
// A shard never overflows a page (Ticket 11). The payload of values that the rules allow has at
// most 456 bytes, where a page holds 480 (`shard_most`: shard, Lengths, a law of the encoding: the
// lengths of its fields added up), and some have 456 (`shard_longest`). So the writer does not look
// whether its payload fits.
#![tactic(auto)]

mod fields;
mod form;
mod judge;

ghost use Rattle.std.specs.Prelude.{◌≡◌};
ghost use Rattle.wire.specs.Writing.{Written};
ghost use Rattle.shard.specs.Shard.{body_at, shard_at, shard_verdict, signed_verdict};
ghost use Rattle.shard.specs.Answer.{shard_told};

use auth::Claimed;
use wire::{Refusal, Span};

// What is shared: its type, this share of it, and how many bytes the whole has.
#[derive(Clone, Copy, Debug, PartialEq, Eq)]
pub struct Content {
    pub kind: Span,
    pub share: Span,
    pub length: u64,
}

// How many shares give the whole back, how many there are, and which of them this is.
#[derive(Clone, Copy, Debug, PartialEq, Eq)]
pub struct Quorum {
    pub threshold: u64,
    pub count: u64,
    pub index: u64,
}

// What a shard says: where pub, sig and hash start, which are 32, 64 and 32 bytes (R11.2), and the
// rest. The payload ends at next, the length of the input.
#[derive(Clone, Copy, Debug, PartialEq, Eq)]
pub struct Shard {
    pub public: usize,
    pub sig: usize,
    pub hash: usize,
    pub content: Content,
    pub quorum: Quorum,
    pub next: usize,
}

// What the payload and the signed bytes have in common: the values from `hash` on.
#[derive(Clone, Copy)]
struct Rest<'a> {
    hash: &'a [u8],
    kind: &'a [u8],
    share: &'a [u8],
    len: u64,
    quorum: Quorum,
}

// All behind the claim.
fn body(s: &[u8], claim: Claimed) -> Result<Shard, Refusal>
    ensures { shard_told result ≡ body_at s.now claim.next (record { public = claim.public; sig = claim.sig; hash = claim.hash }) }
{
    let (content, a) = fields::content(s, claim.next)?;
    let (_, b) = cbor::read::number_field(s, a, b"version", 1, 1)?;
    let (quorum, next) = fields::quorum(s, b)?;
    if next != s.len() {
        return Err(Refusal::CutOrLeftOver);
    }
    Ok(Shard {
        public: claim.public,
        sig: claim.sig,
        hash: claim.hash,
        content,
        quorum,
        next,
    })
}

// The shard payload that s is, all of s; or the refusal of the first offending item.
pub fn read(s: &[u8]) -> Result<Shard, Refusal>
    ensures { shard_told result ≡ shard_at s.now }
{
    let claim = auth::claim(s, 0xAA)?;
    body(s, claim)
}

// The payload of these values, of at most 456 bytes, at the front of out; or 19, then 11, and
// nothing changed. No other number is answered: the payload always fits a page, so there is no 9.
pub fn write(
    public: &[u8],
    sig: &[u8],
    hash: &[u8],
    kind: &[u8],
    share: &[u8],
    length: u64,
    quorum: Quorum,
    out: &mut [u8],
) -> Result<usize, Refusal>
    ensures { Written 0 (shard_verdict public.now sig.now hash.now kind.now share.now length quorum) out.old out.new result }
{
    if public.len() != 32 {
        return Err(Refusal::OutOfRange);
    }
    if sig.len() != 64 {
        return Err(Refusal::OutOfRange);
    }
    let rest = Rest {
        hash,
        kind,
        share,
        len: length,
        quorum,
    };
    if !judge::rest_fits(rest) {
        return Err(Refusal::OutOfRange);
    }
    let len = form::PAYLOAD_FRONT + form::rest_size(rest);
    if out.len() < len {
        return Err(Refusal::NoRoom);
    }
    form::payload(out, public, sig, rest);
    Ok(len)
}

// The bytes that get signed for these values, at the front of out; or 19, then 11, and nothing
// changed.
pub fn signed(
    public: &[u8],
    hash: &[u8],
    kind: &[u8],
    share: &[u8],
    length: u64,
    quorum: Quorum,
    out: &mut [u8],
) -> Result<usize, Refusal>
    ensures { Written 0 (signed_verdict public.now hash.now kind.now share.now length quorum) out.old out.new result }
{
    if public.len() != 32 {
        return Err(Refusal::OutOfRange);
    }
    let rest = Rest {
        hash,
        kind,
        share,
        len: length,
        quorum,
    };
    if !judge::rest_fits(rest) {
        return Err(Refusal::OutOfRange);
    }
    let len = form::MESSAGE_FRONT + form::rest_size(rest);
    if out.len() < len {
        return Err(Refusal::NoRoom);
    }
    form::message(out, public, rest);
    Ok(len)
}
