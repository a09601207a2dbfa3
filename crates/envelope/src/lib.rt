// The envelope, read and written: section 14 of docs/RULES.md. Its outer layout is the crate
// cover's.
//
// What is written reads back, and what is read is exactly the written form of its manifest and its
// payload, which the writer accepts (`envelope_back`, `envelope_only`).
#![tactic(auto)]

mod judge;

ghost use Rattle.std.specs.Prelude.{◌≡◌};
ghost use Rattle.wire.specs.Reading.{told_at};
ghost use Rattle.envelope.specs.Envelope.{envelope_at, verdict};
ghost use Rattle.envelope.specs.Answer.{EnvelopeWritten};

use cover::Cover;
use wire::RefusedAt;

// Where the manifest and the payload stand in the envelope that s is, once both agree; or the
// refusal and its place.
#[tactic(auto, using(crate::proofs::Answers::reading))]
pub fn read(s: &[u8]) -> Result<Cover, RefusedAt>
    ensures { told_at result ≡ envelope_at s.now }
{
    let c = cover::read(s)?;
    judge::parts(lend::part(s, c.manifest), lend::part(s, c.payload))?;
    Ok(c)
}

// The envelope of a manifest's bytes and its payload at the front of out; or 9, the manifest's
// refusal, 21 and its place, 11, and nothing changed.
pub fn write(manifest: &[u8], payload: &[u8], out: &mut [u8]) -> Result<usize, RefusedAt>
    ensures { EnvelopeWritten (verdict manifest.now payload.now) out.old out.new result }
{
    judge::parts(manifest, payload)?;
    let len = cover::lay(manifest, payload, out)?;
    Ok(len)
}
