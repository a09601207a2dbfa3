// One turn makes one character, from the bits at hand and, where they are too few, one byte more.
ghost use Rattle.std.specs.Prelude.{◌≡◌, ◌+◌, ◌-◌, ◌*◌, ◌/◌, ◌%◌, ◌^◌, ◌≤◌, ◌<◌, length, get_or};
ghost use Rattle.wire.specs.Over.{over};
ghost use Rattle.wire.specs.Answer.{done};
ghost use Rattle.wire.specs.Writing.{Written};
ghost use Rattle.text.specs.Text.{text_of, characters};
ghost use Rattle.text.specs.Private.{Narrow, form_of, refilled};

use super::pack;
use wire::Refusal;

// The bits that are not yet written, their number, and the next byte.
#[derive(Clone, Copy)]
pub struct Source {
    pub bits: u32,
    pub count: u32,
    pub next: usize,
}

// What fills the last character: zeros (R5.1).
fn byte_or_zero(src: &[u8], i: usize) -> u8
    ensures { result ≡ get_or src.now i 0 }
{
    if i < src.len() { src[i] } else { 0 }
}

fn refill(src: &[u8], w: u32, s: Source) -> Source
    requires { Narrow w × (s.bits < 2 ^ s.count) × (s.count < 8) × (s.next + 1 < 2 ^ 64) }
    ensures { result ≡ refilled w src.now s }
{
    if w <= s.count {
        return s;
    }
    Source {
        bits: pack::joined(s.bits, 8, byte_or_zero(src, s.next)),
        count: s.count + 8,
        next: s.next + 1,
    }
}

// Eight characters have as many bits as w bytes; what n leaves of such groups is rounded up.
fn length_of(w: u32, n: usize) -> usize
    requires { Narrow w × (n < 2 ^ 63) }
    ensures { result ≡ characters (form_of w) n }
{
    let group = w as usize;
    n / group * 8 + (n % group * 8 + (group - 1)) / group
}

fn encode(letters: &[u8], w: u32, src: &[u8], len: usize, out: &mut [u8])
    requires { Narrow w × (letters.now ≡ (form_of w).alphabet) × (len ≡ characters (form_of w) (length src.now)) × (len ≤ length out.old) }
    ensures { out.new ≡ over 0 (text_of (form_of w) src.now) out.old }
{
    let mut s = Source {
        bits: 0,
        count: 0,
        next: 0,
    };
    for j in 0..len {
        let t = refill(src, w, s);
        let left = t.count - w;
        let v = pack::top(t.bits, left);
        out[j] = letters[v as usize];
        s = Source {
            bits: pack::low(t.bits, left),
            count: left,
            next: t.next,
        };
    }
}

pub(super) fn write(letters: &[u8], w: u32, src: &[u8], out: &mut [u8]) -> Result<usize, Refusal>
    requires { Narrow w × (letters.now ≡ (form_of w).alphabet) }
    ensures { Written 0 (done (text_of (form_of w) src.now)) out.old out.new result }
{
    let len = length_of(w, src.len());
    if out.len() < len {
        return Err(Refusal::NoRoom);
    }
    encode(letters, w, src, len, out);
    Ok(len)
}
