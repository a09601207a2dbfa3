// The outer layout of an envelope, read and laid out: R14.1 and R14.2. What its two parts hold is
// judged by the crate envelope.
//
// What is laid out reads back, and what is read is exactly the layout of its parts (`cover_back`,
// `cover_only`).
#![tactic(auto)]

mod form;

ghost use Rattle.std.specs.Prelude.{◌≡◌};
ghost use Rattle.wire.specs.Answer.{done};
ghost use Rattle.wire.specs.Writing.{Written};
ghost use Rattle.cover.specs.Cover.{chunk_at, cover_at, cover_of};
ghost use Rattle.cover.specs.Answer.{told};
ghost use Rattle.cover.specs.Private.{chunk_told};

use wire::{Refusal, Span};

// What is read of an envelope: where its manifest and its payload stand in the input.
#[derive(Clone, Copy, Debug, PartialEq, Eq)]
pub struct Cover {
    pub manifest: Span,
    pub payload: Span,
}

// A length and that many bytes, and where these stand (R14.2). A length near 2^64 is
// compared, and never added to.
fn chunk(s: &[u8], at: usize) -> Result<Span, Refusal>
    ensures { chunk_told result ≡ chunk_at s.now at }
{
    let (n, next) = varint::read(s, at)?;
    if ((s.len() - next) as u64) < n {
        return Err(Refusal::CutOrLeftOver);
    }
    Ok(Span {
        start: next,
        len: n as usize,
    })
}

// Where the manifest and the payload stand in the envelope that s is; or the first fault, from the
// front on: 3, 4, 5 or 7.
#[tactic(auto, using(crate::proofs::Answers::chain), unfolding(crate::specs::Cover::cover_at))]
pub fn read(s: &[u8]) -> Result<Cover, Refusal>
    ensures { told result ≡ cover_at s.now }
{
    let next = mark::read(b"AY", s)?;
    let manifest = chunk(s, next)?;
    let payload = chunk(s, manifest.start + manifest.len)?;
    if payload.start + payload.len != s.len() {
        return Err(Refusal::CutOrLeftOver);
    }
    Ok(Cover { manifest, payload })
}

// The envelope of any two parts at the front of out, and its length; or 11 and nothing changed.
pub fn lay(manifest: &[u8], payload: &[u8], out: &mut [u8]) -> Result<usize, Refusal>
    ensures { Written 0 (done (cover_of manifest.now payload.now)) out.old out.new result }
{
    form::lay(manifest, payload, out)
}
