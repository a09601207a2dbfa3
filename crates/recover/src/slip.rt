// One slip: its payload, and what it says. A payload is read again wherever something of it is
// needed: that takes little beside the work on the field, and nothing has to be kept of a slip.
ghost use Rattle.std.specs.Prelude.{◌≡◌, ◌&&◌, ◌<◌, ◌≤◌, eqb, take, drop};
ghost use Rattle.wire.specs.Span.{part_at};
ghost use Rattle.lend.specs.Same.{same};
ghost use Rattle.field.specs.Element.{joined};
ghost use Rattle.recover.specs.Recover.{slip_of, alike, block_of};
ghost use Rattle.recover.specs.Private.{shard_in, slip_in, said_shard};

use shard::{Content, Quorum, Shard};
use wire::Span;

// How many slips give its secret, and how many bytes that has.
#[derive(Drop)]
pub(super) struct Needs {
    pub threshold: usize,
    pub len: usize,
}

// Zeros where it is no slip.
pub(super) fn said(payload: &[u8]) -> Shard
    ensures { said_shard result ≡ shard_in payload.now }
{
    shard::read(payload).unwrap_or(Shard {
        public: 0,
        sig: 0,
        hash: 0,
        content: Content {
            kind: Span { start: 0, len: 0 },
            share: Span { start: 0, len: 0 },
            length: 0,
        },
        quorum: Quorum {
            threshold: 0,
            count: 0,
            index: 0,
        },
        next: 0,
    })
}

fn same_parts(a: &[u8], p: Span, b: &[u8], q: Span) -> bool
    ensures { result ≡ same (part_at a.now p) (part_at b.now q) }
{
    lend::equal(lend::part(a, p), lend::part(b, q))
}

fn same_numbers(v: &Shard, w: &Shard) -> bool
    ensures { result ≡ (eqb v.now.quorum.threshold w.now.quorum.threshold && (eqb v.now.quorum.count w.now.quorum.count && eqb v.now.content.length w.now.content.length)) }
{
    v.quorum.threshold == w.quorum.threshold
        && v.quorum.count == w.quorum.count
        && v.content.length == w.content.length
}

fn same_digests(a: &[u8], i: usize, b: &[u8], j: usize) -> bool
    ensures { result ≡ same (take 32 (drop i a.now)) (take 32 (drop j b.now)) }
{
    same_parts(a, Span { start: i, len: 32 }, b, Span { start: j, len: 32 })
}

fn same_claims(a: &[u8], v: &Shard, b: &[u8], w: &Shard) -> bool
    ensures { result ≡ (same (take 32 (drop v.now.hash a.now)) (take 32 (drop w.now.hash b.now)) && same (take 32 (drop v.now.public a.now)) (take 32 (drop w.now.public b.now))) }
{
    same_digests(a, v.hash, b, w.hash) && same_digests(a, v.public, b, w.public)
}

fn say_the_same(a: &[u8], v: &Shard, b: &[u8], w: &Shard) -> bool
    ensures { result ≡ alike (slip_of a.now (said_shard v.now)) (slip_of b.now (said_shard w.now)) }
{
    same_parts(a, v.content.kind, b, w.content.kind)
        && same_numbers(v, w)
        && same_claims(a, v, b, w)
}

// Whether two payloads say the same of their secret.
pub(super) fn agree(a: &[u8], b: &[u8]) -> bool
    ensures { result ≡ alike (slip_in a.now) (slip_in b.now) }
{
    let v = said(a);
    let w = said(b);
    say_the_same(a, &v, b, &w)
}

// The number of the slip.
pub(super) fn index(payload: &[u8]) -> u8
    ensures { (result ≡ (slip_in payload.now).index) × (result < 256) }
{
    let v = said(payload);
    v.quorum.index as u8
}

// Block k of its share.
//
// stays (5): a type of its own for a number below 14, which five contracts ask for, would be taken
// apart at each use, and is no plainer.
pub(super) fn block(payload: &[u8], k: usize) -> [u64; 2]
    requires { k < 14 }
    ensures { joined result ≡ block_of k (slip_in payload.now) }
{
    let v = said(payload);
    let share = lend::part(payload, v.content.share);
    field::load(lend::part(
        share,
        Span {
            start: k * 16,
            len: 16,
        },
    ))
}

pub(super) fn terms(payload: &[u8]) -> Needs
    ensures { (result.threshold ≡ (slip_in payload.now).threshold) × (result.len ≡ (slip_in payload.now).len) × (result.threshold ≤ 255) × (result.len ≤ 224) }
{
    let v = said(payload);
    Needs {
        threshold: v.quorum.threshold as usize,
        len: v.content.length as usize,
    }
}
