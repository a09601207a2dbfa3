// What a shard's values may be.
ghost use Rattle.std.specs.Prelude.{◌≡◌, [], eqb};
ghost use Rattle.wire.specs.Answer.{number_of};
ghost use Rattle.shard.specs.Shard.{known, padded, rest_verdict};

use super::Rest;

// What is shared is a passphrase or a seed to sign with (R11.4).
pub(super) fn is_known(kind: &[u8]) -> bool
    ensures { result ≡ known kind.now }
{
    lend::equal(kind, b"passphrase") || lend::equal(kind, b"signing-seed")
}

// Whether a share of so many bytes is the blocks of 16 that length bytes need (R11.5). The length
// is not rounded up, since near 2^64 that would wrap.
pub(super) fn fills(share: u64, length: u64) -> bool
    ensures { result ≡ eqb share (padded length) }
{
    if share < length {
        return false;
    }
    if 16 <= share - length {
        return false;
    }
    share % 16 == 0
}

// Whether the values that the payload and the signed bytes share, but for pub, may be written
// (R10.7). What is at most share_count needs no bound of its own above.
pub(super) fn rest_fits(r: Rest) -> bool
    ensures { result ≡ eqb (number_of (rest_verdict r.entry.hash.now r.entry.kind.now r.entry.share.now r.entry.len r.entry.quorum [])) 0 }
{
    let size = r.share.len() as u64;
    let q = r.quorum;
    if r.hash.len() != 32 {
        return false;
    }
    if !is_known(r.kind) {
        return false;
    }
    if (wire::MOST_SHARE as u64) < size {
        return false;
    }
    if r.len < 1 {
        return false;
    }
    if !fills(size, r.len) {
        return false;
    }
    if q.threshold < 1 {
        return false;
    }
    if q.count < q.threshold {
        return false;
    }
    if q.index < 1 {
        return false;
    }
    if q.count < q.index {
        return false;
    }
    q.count <= 255
}
