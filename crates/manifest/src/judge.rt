// Whether a manifest may be written, and how long it then is: the values are judged in the order of
// the keys (R10.7).
ghost use Rattle.std.specs.Prelude.{◌≡◌, [], ◌+◌, ◌^◌, ◌≤◌, length, take};
ghost use Rattle.wire.specs.Sizes.{most_files};
ghost use Rattle.wire.specs.Writing.{told, outcome};
ghost use Rattle.cbor.specs.Form.{head_size};
ghost use Rattle.manifest.specs.Writing.{seed_allowed, created_allowed, files_verdict, manifest_verdict};
ghost use Rattle.manifest.specs.Private.{seed_size, created_size};

use super::{Created, Manifest, fields};
use wire::{Refusal, Span};

#[tactic(auto, unfolding(crate::specs::Writing::seed_allowed))]
fn seed_allowed(pool: &[u8], seed: Option<Span>) -> bool
    ensures { result ≡ seed_allowed pool.now seed }
{
    match seed {
        None => true,
        Some(span) => entry::write::digest(pool, span),
    }
}

#[tactic(auto, unfolding(crate::specs::Writing::created_allowed))]
fn created_allowed(created: Created) -> bool
    ensures { result ≡ created_allowed created }
{
    match created {
        Created::Integer(v) => v.n < 0x8000000000000000,
        Created::Double { bits } => cbor::float::finite(bits),
    }
}

#[tactic(auto, unfolding(crate::specs::Private::seed_size))]
fn seed_size(seed: Option<Span>) -> usize
    ensures { result ≡ seed_size seed }
{
    match seed {
        None => 1,
        Some(_) => 34,
    }
}

#[tactic(auto, unfolding(crate::specs::Private::created_size))]
fn created_size(created: Created) -> usize
    ensures { result ≡ created_size created }
{
    match created {
        Created::Integer(v) => cbor::write::size(v.n),
        Created::Double { bits } => cbor::write::float_size(bits),
    }
}

// The files of m: their length or the first refusal.
fn list(pool: &[u8], m: Manifest) -> Result<usize, Refusal>
    requires { (m.count ≤ most_files) × (length m.files ≡ most_files) }
    ensures { told result ≡ outcome (files_verdict pool.now [] (take m.count m.files)) }
{
    let mut sum = 0;
    let mut last = Span { start: 0, len: 0 };
    for f in &m.files[..m.count] {
        let len = entry::write::judge(pool, lend::part(pool, last), *f)?;
        sum += len;
        last = f.path;
    }
    Ok(sum)
}

// How long m is, whose files have so many bytes: 37 are its head, its keys, sealed and version.
fn total(m: Manifest, files: usize) -> usize
    requires { files ≤ 2 ^ 16 }
    ensures { result ≡ 37 + seed_size m.seed + head_size m.count + files + created_size m.created }
{
    37 + seed_size(m.seed) + cbor::write::size(m.count as u64) + files + created_size(m.created)
}

pub(super) fn whole(pool: &[u8], m: Manifest) -> Result<usize, Refusal>
    requires { length m.files ≡ most_files }
    ensures { told result ≡ outcome (manifest_verdict pool.now m) }
{
    if !seed_allowed(pool, m.seed) {
        return Err(Refusal::OutOfRange);
    }
    if m.count < 1 {
        return Err(Refusal::OutOfRange);
    }
    if wire::MOST_FILES < m.count {
        return Err(Refusal::OutOfRange);
    }
    let len = list(pool, m)?;
    if !fields::agree(m.seed, m.sealed) {
        return Err(Refusal::OutOfRange);
    }
    if !created_allowed(m.created) {
        return Err(Refusal::OutOfRange);
    }
    let n = total(m, len);
    if wire::MOST_MANIFEST < n {
        return Err(Refusal::TooLarge);
    }
    Ok(n)
}
