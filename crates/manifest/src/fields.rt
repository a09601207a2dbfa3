// The fields of a manifest but its files, at a position of the input. Of several faults the one
// furthest in front is told (R10.2), and a refusal leaves at once (R18.4).
ghost use Rattle.std.specs.Prelude.{◌≡◌};
ghost use Rattle.wire.specs.Reading.{told};
ghost use Rattle.manifest.specs.Manifest.{seed_at, agrees, sealed_at, created_at, end_at};

use super::{Created, Ending};
use cbor::BYTES;
use entry::Integer;
use wire::{Refusal, Span};

#[tactic(auto, using(wire::proofs::Answers::reads), unfolding(crate::specs::Manifest::seed_at))]
pub(super) fn seed_field(s: &[u8], at: usize) -> Result<(Option<Span>, usize), Refusal>
    ensures { told result ≡ seed_at s.now at }
{
    let (first, a) = cbor::read::any_field(s, at, b"seed")?;
    if first == 0xF6 {
        return Ok((None, a + 1));
    }
    let (span, next) = cbor::read::string(s, a, BYTES, 32, 32, Refusal::OutOfRange)?;
    Ok((Some(span), next))
}

// Whether a manifest is sealed exactly when its seed is null (R13.3).
#[tactic(auto, unfolding(crate::specs::Manifest::agrees))]
pub(super) fn agree(seed: Option<Span>, sealed: bool) -> bool
    ensures { result ≡ agrees seed sealed }
{
    seed.is_none() == sealed
}

#[tactic(auto, using(wire::proofs::Answers::reads), unfolding(crate::specs::Manifest::sealed_at))]
fn sealed_field(s: &[u8], at: usize, seed: Option<Span>) -> Result<(bool, usize), Refusal>
    ensures { told result ≡ sealed_at s.now at seed }
{
    let (first, a) = cbor::read::any_field(s, at, b"sealed")?;
    if first < 0xF4 {
        return Err(Refusal::NotCanonical);
    }
    if 0xF5 < first {
        return Err(Refusal::NotCanonical);
    }
    let sealed = first == 0xF5;
    if !agree(seed, sealed) {
        return Err(Refusal::OutOfRange);
    }
    Ok((sealed, a + 1))
}

#[tactic(auto, using(wire::proofs::Answers::reads), unfolding(crate::specs::Manifest::created_at))]
fn created_field(s: &[u8], at: usize) -> Result<(Created, usize), Refusal>
    ensures { told result ≡ created_at s.now at }
{
    let (first, a) = cbor::read::any_field(s, at, b"created")?;
    if cbor::float::begins(first) {
        let (bits, next) = cbor::read::float(s, a)?;
        return Ok((Created::Double { bits }, next));
    }
    let (h, next) = entry::read::integer(s, a)?;
    Ok((Created::Integer(Integer::from(h)), next))
}

// The fields after the files, and the input's end.
#[tactic(auto, using(wire::proofs::Answers::reads), unfolding(crate::specs::Manifest::end_at))]
pub(super) fn ending(s: &[u8], at: usize, seed: Option<Span>) -> Result<(Ending, usize), Refusal>
    ensures { told result ≡ end_at s.now at seed }
{
    let (sealed, a) = sealed_field(s, at, seed)?;
    let (created, b) = created_field(s, a)?;
    let (_, next) = cbor::read::number_field(s, b, b"version", 1, 1)?;
    if next != s.len() {
        return Err(Refusal::CutOrLeftOver);
    }
    Ok((Ending { sealed, created }, next))
}
