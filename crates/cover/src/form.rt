// The layout of an envelope, judged for room and then written.
ghost use Rattle.std.specs.Prelude.{◌≡◌, ◌+◌, ◌≤◌, length};
ghost use Rattle.wire.specs.Over.{over};
ghost use Rattle.wire.specs.Answer.{done};
ghost use Rattle.wire.specs.Writing.{Written};
ghost use Rattle.cover.specs.Cover.{chunk_of, cover_of};

use wire::Refusal;

// Two bytes of magic and one of version (R14.1).
const OPENING: usize = 3;

// The length of bs and bs at index at; the answer is the index past them.
fn chunk(bs: &[u8], out: &mut [u8], at: usize) -> usize
    requires { at + length (chunk_of bs.now) ≤ length out.old }
    ensures { (result ≡ at + length (chunk_of bs.now)) × (out.new ≡ over at (chunk_of bs.now) out.old) }
{
    let len = bs.len() as u64;
    let _ = varint::write(len, out, at);
    let start = at + varint::size(len);
    lend::copy(out, start, bs);
    start + bs.len()
}

fn lay_fitting(manifest: &[u8], payload: &[u8], out: &mut [u8]) -> usize
    requires { length (cover_of manifest.now payload.now) ≤ length out.old }
    ensures { (result ≡ length (cover_of manifest.now payload.now)) × (out.new ≡ over 0 (cover_of manifest.now payload.now) out.old) }
{
    mark::lay(b"AY", out);
    let next = chunk(manifest, out, OPENING);
    chunk(payload, out, next)
}

// The lengths of two slices can sum past 2^64, so the room is judged by what is left of it.
pub(super) fn lay(manifest: &[u8], payload: &[u8], out: &mut [u8]) -> Result<usize, Refusal>
    ensures { Written 0 (done (cover_of manifest.now payload.now)) out.old out.new result }
{
    let heads = OPENING + varint::size(manifest.len() as u64) + varint::size(payload.len() as u64);
    if out.len() < heads {
        return Err(Refusal::NoRoom);
    }
    let left = out.len() - heads;
    if left < manifest.len() {
        return Err(Refusal::NoRoom);
    }
    if left - manifest.len() < payload.len() {
        return Err(Refusal::NoRoom);
    }
    Ok(lay_fitting(manifest, payload, out))
}
