// The layout of a frame, where there is room for it.
// stays (1): any byte may be laid as the type, so `kind` is no `Kind` here
ghost use Rattle.std.specs.Prelude.{◌≡◌, ◌+◌, ◌≤◌, length, take};
ghost use Rattle.wire.specs.Sizes.{id_size};
ghost use Rattle.wire.specs.Number.{big_endian};
ghost use Rattle.wire.specs.Over.{over};
ghost use Rattle.wire.specs.Answer.{done};
ghost use Rattle.wire.specs.Writing.{Written};
ghost use Rattle.varint.specs.Varint.{varint};
ghost use Rattle.crc.specs.Crc.{crc32};
ghost use Rattle.frame.specs.Layout as L;

use wire::Refusal;

// Two bytes of magic, one of version, one of type, eight of id and four of CRC (R6.1).
const SHORTEST: usize = 16;

// How many bytes the three varints take.
fn numbers_size(index: u64, total: u64, len: u64) -> usize
    ensures { result ≡ length (L.numbers index total len) }
{
    varint::size(index) + varint::size(total) + varint::size(len)
}

fn start(kind: u8, id: &[u8], out: &mut [u8])
    requires { (length id.now ≡ id_size) × (12 ≤ length out.old) }
    ensures { out.new ≡ over 0 (L.start kind id.now) out.old }
{
    mark::lay(b"AP", out);
    lend::put(out, 3, kind);
    lend::copy(out, 4, id);
}

// A varint at index at; the answer is the index past it.
fn number(n: u64, out: &mut [u8], at: usize) -> usize
    requires { at + length (varint n) ≤ length out.old }
    ensures { (result ≡ at + length (varint n)) × (out.new ≡ over at (varint n) out.old) }
{
    let _ = varint::write(n, out, at);
    at + varint::size(n)
}

// The three varints at index at; the answer is the index past them.
fn numbers(index: u64, total: u64, len: u64, out: &mut [u8], at: usize) -> usize
    requires { at + length (L.numbers index total len) ≤ length out.old }
    ensures { (result ≡ at + length (L.numbers index total len)) × (out.new ≡ over at (L.numbers index total len) out.old) }
{
    let a = number(index, out, at);
    let b = number(total, out, a);
    number(len, out, b)
}

// All before the CRC; the answer is its length.
fn body(kind: u8, id: &[u8], index: u64, total: u64, contents: &[u8], out: &mut [u8]) -> usize
    requires { (length id.now ≡ id_size) × (12 + length (L.numbers index total (length contents.now)) + length contents.now ≤ length out.old) }
    ensures { (result ≡ length (L.body kind id.now index total contents.now)) × (out.new ≡ over 0 (L.body kind id.now index total contents.now) out.old) }
{
    start(kind, id, out);
    let n = numbers(index, total, contents.len() as u64, out, 12);
    lend::copy(out, n, contents);
    n + contents.len()
}

// The CRC of the first n bytes of out, behind them.
fn seal(out: &mut [u8], n: usize)
    requires { n + 4 ≤ length out.old }
    ensures { out.new ≡ over n (big_endian 4 (crc32 (take n out.old))) out.old }
{
    let sum = crc::sum(&out[..n]);
    lend::copy(out, n, &sum);
}

pub(super) fn lay(
    kind: u8,
    id: &[u8],
    index: u64,
    total: u64,
    contents: &[u8],
    out: &mut [u8],
) -> Result<usize, Refusal>
    requires { length id.now ≡ id_size }
    ensures { Written 0 (done (L.layout kind id.now index total contents.now)) out.old out.new result }
{
    let len = SHORTEST + numbers_size(index, total, contents.len() as u64) + contents.len();
    if out.len() < len {
        return Err(Refusal::NoRoom);
    }
    let n = body(kind, id, index, total, contents, out);
    seal(out, n);
    Ok(len)
}
