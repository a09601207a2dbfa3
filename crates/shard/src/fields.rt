// The fields of a shard behind its claim, from left to right: the first fault decides (R10.2), and
// a refusal leaves at once (R18.4).
ghost use Rattle.std.specs.Prelude.{◌≡◌};
ghost use Rattle.wire.specs.Reading.{told};
ghost use Rattle.shard.specs.Shard.{kind_at, content_at, quorum_at};

use super::{Content, Quorum, judge};
use cbor::{BYTES, TEXT};
use wire::{MOST_SHARE, Refusal, Span};

// The field `type`. Between the lengths of the two known types lies one that neither has (R11.4).
fn kind(s: &[u8], at: usize) -> Result<(Span, usize), Refusal>
    ensures { told result ≡ kind_at s.now at }
{
    let a = cbor::read::key(s, at, b"type")?;
    let (letters, b) = cbor::read::number(s, a, TEXT, 10, 12, Refusal::OutOfRange)?;
    if letters == 11 {
        return Err(Refusal::OutOfRange);
    }
    let (text, next) = cbor::read::contents(s, b, letters)?;
    if judge::is_known(&s[text.start..next]) {
        return Ok((text, next));
    }
    Err(Refusal::OutOfRange)
}

// The fields `type`, `share` and `length` (R11.5).
pub(super) fn content(s: &[u8], at: usize) -> Result<(Content, usize), Refusal>
    ensures { told result ≡ content_at s.now at }
{
    let (kind, a) = kind(s, at)?;
    let most = MOST_SHARE as u64;
    let (share, b) = cbor::read::string_field(s, a, b"share", BYTES, 0, most, Refusal::OutOfRange)?;
    let (length, next) = cbor::read::number_field(s, b, b"length", 1, u64::MAX)?;
    if !judge::fills(share.len as u64, length) {
        return Err(Refusal::OutOfRange);
    }
    Ok((
        Content {
            kind,
            share,
            length,
        },
        next,
    ))
}

// The fields `threshold`, `share_count` and `share_index` (R11.6).
pub(super) fn quorum(s: &[u8], at: usize) -> Result<(Quorum, usize), Refusal>
    ensures { told result ≡ quorum_at s.now at }
{
    let (threshold, a) = cbor::read::number_field(s, at, b"threshold", 1, 255)?;
    let (count, b) = cbor::read::number_field(s, a, b"share_count", 1, 255)?;
    if count < threshold {
        return Err(Refusal::OutOfRange);
    }
    let (index, next) = cbor::read::number_field(s, b, b"share_index", 1, 255)?;
    if count < index {
        return Err(Refusal::OutOfRange);
    }
    Ok((
        Quorum {
            threshold,
            count,
            index,
        },
        next,
    ))
}
