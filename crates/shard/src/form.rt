// The written form of a shard, where there is room for it.
ghost use Rattle.std.specs.Prelude.{◌≡◌, ◌+◌, ◌≤◌, length};
ghost use Rattle.wire.specs.Sizes.{most_share};
ghost use Rattle.wire.specs.Over.{over};
ghost use Rattle.cbor.specs.Form.{head_size};
ghost use Rattle.cbor.specs.Put.{Put};
ghost use Rattle.shard.specs.Shard.{content_of, quorum_of, rest_of, shard_of, signed_of};

use super::{Quorum, Rest};
use cbor::{BYTES, TEXT};

// What stands before `hash`: in the payload the head of the map, `pub` and `sig`; in the signed
// bytes the domain string, the head of the map and `pub` (R11.7).
pub(super) const PAYLOAD_FRONT: usize = 109;

pub(super) const MESSAGE_FRONT: usize = 57;

// How long the head of a number is.
fn size(n: u64) -> usize
    ensures { (result ≡ head_size n) × (result ≤ 9) }
{
    cbor::write::size(n)
}

// How long the form is from `hash` on. All its keys, `hash`, `version` and the head of `type` make
// 101 bytes.
pub(super) fn rest_size(r: Rest) -> usize
    requires { (length r.hash.now ≡ 32) × (length r.kind.now ≤ 12) × (length r.share.now ≤ most_share) }
    ensures { (result ≡ length (rest_of r.entry.hash.now r.entry.kind.now r.entry.share.now r.entry.len r.entry.quorum)) × (result ≤ 400) }
{
    let q = r.quorum;
    let numbers = size(r.len) + size(q.threshold) + size(q.count) + size(q.index);
    101 + r.kind.len() + size(r.share.len() as u64) + r.share.len() + numbers
}

// The fields `type`, `share` and `length`. Here and below the answer is the index past what is
// written.
fn content(out: &mut [u8], at: usize, kind: &[u8], share: &[u8], len: u64) -> usize
    requires { at + length (content_of kind.now share.now len) ≤ length out.old }
    ensures { Put at (content_of kind.now share.now len) out.old out.new result }
{
    let a = cbor::write::string_field(out, at, b"type", TEXT, kind);
    let b = cbor::write::string_field(out, a, b"share", BYTES, share);
    cbor::write::number_field(out, b, b"length", len)
}

// The fields `threshold`, `share_count` and `share_index`.
fn quorum(out: &mut [u8], at: usize, q: Quorum) -> usize
    requires { at + length (quorum_of q) ≤ length out.old }
    ensures { Put at (quorum_of q) out.old out.new result }
{
    let a = cbor::write::number_field(out, at, b"threshold", q.threshold);
    let b = cbor::write::number_field(out, a, b"share_count", q.count);
    cbor::write::number_field(out, b, b"share_index", q.index)
}

// From `hash` on.
fn rest(out: &mut [u8], at: usize, r: Rest) -> usize
    requires { at + length (rest_of r.hash.now r.kind.now r.share.now r.len r.quorum) ≤ length out.old }
    ensures { Put at (rest_of r.entry.hash.now r.entry.kind.now r.entry.share.now r.entry.len r.entry.quorum) out.old out.new result }
{
    let a = cbor::write::string_field(out, at, b"hash", BYTES, r.hash);
    let b = content(out, a, r.kind, r.share, r.len);
    let c = cbor::write::number_field(out, b, b"version", 1);
    quorum(out, c, r.quorum)
}

// The payload.
pub(super) fn payload(out: &mut [u8], public: &[u8], sig: &[u8], r: Rest)
    requires { length (shard_of public.now sig.now r.hash.now r.kind.now r.share.now r.len r.quorum) ≤ length out.old }
    ensures { out.new ≡ over 0 (shard_of public.now sig.now r.entry.hash.now r.entry.kind.now r.entry.share.now r.entry.len r.entry.quorum) out.old }
{
    let a = cbor::write::fixed(out, 0, b"\xAA");
    let b = cbor::write::string_field(out, a, b"pub", BYTES, public);
    let c = cbor::write::string_field(out, b, b"sig", BYTES, sig);
    rest(out, c, r);
}

// The bytes that get signed. The domain and the keys are fixed strings (R18.2).
pub(super) fn message(out: &mut [u8], public: &[u8], r: Rest)
    requires { length (signed_of public.now r.hash.now r.kind.now r.share.now r.len r.quorum) ≤ length out.old }
    ensures { out.new ≡ over 0 (signed_of public.now r.entry.hash.now r.entry.kind.now r.entry.share.now r.entry.len r.entry.quorum) out.old }
{
    let a = cbor::write::fixed(out, 0, b"ETHERNITY-SHARD-V1");
    let b = cbor::write::fixed(out, a, b"\xA9");
    let c = cbor::write::string_field(out, b, b"pub", BYTES, public);
    rest(out, c, r);
}
