// The manifest and the payload against each other: read and written envelopes are judged by the
// same function (R14.3, R14.4).
ghost use Rattle.std.specs.Prelude.{◌≡◌, ◌≤◌, eqb, length};
ghost use Rattle.wire.specs.Sizes.{most_files};
ghost use Rattle.wire.specs.Reading.{told_at};
ghost use Rattle.envelope.specs.Envelope.{total, digests, judged};

use entry::File;
use wire::{Refusal, RefusedAt};

// Whether the sizes of the files sum to n (R14.3). Each is taken off what is left of n, so that no
// sum can wrap.
fn adds_up(files: &[File], n: u64) -> bool
    ensures { result ≡ eqb (total files.now) n }
{
    let mut left = n;
    for f in files {
        if left < f.size {
            return false;
        }
        left -= f.size;
    }
    left == 0
}

// The digests of the files, which take up the payload one after the other (R14.3).
fn digests_hold(manifest: &[u8], payload: &[u8], files: &[File]) -> Result<(), RefusedAt>
    requires { (length files.now ≤ most_files) × (total files.now ≡ length payload.now) }
    ensures { told_at result ≡ digests manifest.now files.now 0 payload.now }
{
    let mut at = 0;
    for (i, f) in files.iter().enumerate() {
        let end = at + f.size as usize;
        let digest = sha256::sha256(&payload[at..end]);
        if !lend::equal(&digest, lend::part(manifest, f.hash)) {
            return Err(RefusedAt {
                why: Refusal::BadContents,
                place: i as u8,
            });
        }
        at = end;
    }
    Ok(())
}

pub(super) fn parts(manifest: &[u8], payload: &[u8]) -> Result<(), RefusedAt>
    ensures { told_at result ≡ judged manifest.now payload.now }
{
    let (value, _) = manifest::read(manifest)?;
    let files = &value.files[..value.count];
    if !adds_up(files, payload.len() as u64) {
        return Err(RefusedAt {
            why: Refusal::BadContents,
            place: value.count as u8,
        });
    }
    digests_hold(manifest, payload, files)
}
