// Splitting a secret into shares (R19.2 to R19.5): any `threshold` of them give it back, and fewer
// tell nothing of it but its length (`secrets`: promises, Secrets). Each block of 16 bytes is split
// by itself, by a curve that has the block as its value at 0; share i is the curve's value at i.
#![tactic(auto)]

ghost use Rattle.std.specs.Prelude.{◌≡◌, ◌∷◌, ◌+◌, ◌*◌, ◌≤◌, ◌<◌, length};
ghost use Rattle.wire.specs.Over.{over};
ghost use Rattle.wire.specs.Writing.{Written};
ghost use Rattle.field.specs.Element.{joined, halves};
ghost use Rattle.curve.specs.Curve.{value_at, blocks};
ghost use Rattle.split.specs.Private.{block_of};
ghost use Rattle.split.specs.Split.{share_of, shares_from, quorum_allowed, split_verdict};

use wire::Refusal;

// The value at a point of the curve that begins with an element and goes on with so many blocks of
// coefficients: from the highest power down, so that each step is one product and one sum.
fn value(first: [u64; 2], coefficients: &[u8], more: usize, point: u8) -> [u64; 2]
    requires { more * 16 ≤ length coefficients.now }
    ensures { result ≡ halves (value_at (joined first ∷ blocks more coefficients.now) point) }
{
    let mut made = [0u64; 2];
    for i in (0..more).rev() {
        let c = field::load(&coefficients[i * 16..]);
        let s = field::sum(c, field::scale(made, point));
        made = s;
    }
    field::sum(first, field::scale(made, point))
}

// What is split: a secret of n blocks, and `more` blocks of coefficients for each of them.
#[derive(Clone, Copy)]
struct Dealing<'a> {
    secret: &'a [u8],
    coefficients: &'a [u8],
    n: usize,
    more: usize,
    ghost last_begun: { n * 16 < length secret.now + 16 },
    ghost coefficients_there: { n * (more * 16) ≤ length coefficients.now },
}

impl<'a> Dealing<'a> {
    // The bytes of block k of the share at a point.
    fn block(&self, k: usize, point: u8) -> [u8; 16]
        requires { k < self.now.n }
        ensures { result ≡ block_of k self.now.more self.now.secret.now self.now.coefficients.now point }
    {
        let from = k * 16;
        let of = k * (self.more * 16);
        let first = field::load(&self.secret[from..]);
        let v = value(first, &self.coefficients[of..], self.more, point);
        field::bytes(v)
    }

    // The share at a point, from index at on.
    fn share(&self, point: u8, out: &mut [u8], at: usize)
        requires { at + self.now.n * 16 ≤ length out.old }
        ensures { out.new ≡ over at (share_of self.now.n self.now.more self.now.secret.now self.now.coefficients.now point) out.old }
    {
        for k in 0..self.n {
            let b = self.block(k, point);
            lend::copy(out, at + k * 16, &b);
        }
    }

    // All shares from the front of out on, the first at point 1.
    fn shares(&self, count: usize, out: &mut [u8])
        requires { (count ≤ 255) × (count * (self.now.n * 16) ≤ length out.old) }
        ensures { out.new ≡ over 0 (shares_from count 1 self.now.n self.now.more self.now.secret.now self.now.coefficients.now) out.old }
    {
        for i in 0..count {
            let point = (i + 1) as u8;
            let at = i * (self.n * 16);
            self.share(point, out, at);
        }
    }
}

#[tactic(auto, unfolding(crate::specs::Split::quorum_allowed))]
fn quorum_allowed(threshold: u64, count: u64) -> bool
    ensures { result ≡ quorum_allowed threshold count }
{
    1 <= threshold && threshold <= count && count <= 255
}

// The shares of a secret at the front of out, one behind the other by their numbers, and their
// length; or 19 for the quorum, the length of the secret, or that of the coefficients, then 11, and
// nothing changed. For each block of the secret in turn the coefficients are threshold - 1 blocks,
// the lowest power first.
pub fn split(
    secret: &[u8],
    threshold: u64,
    count: u64,
    coefficients: &[u8],
    out: &mut [u8],
) -> Result<usize, Refusal>
    ensures { Written 0 (split_verdict secret.now threshold count coefficients.now) out.old out.new result }
{
    if !quorum_allowed(threshold, count) {
        return Err(Refusal::OutOfRange);
    }
    if secret.len() < 1 {
        return Err(Refusal::OutOfRange);
    }
    if wire::MOST_SHARE < secret.len() {
        return Err(Refusal::OutOfRange);
    }
    let n = (secret.len() + 15) / 16;
    let more = (threshold - 1) as usize;
    if coefficients.len() != n * (more * 16) {
        return Err(Refusal::OutOfRange);
    }
    let len = count as usize * (n * 16);
    if out.len() < len {
        return Err(Refusal::NoRoom);
    }
    let dealing = Dealing {
        secret,
        coefficients,
        n,
        more,
    };
    dealing.shares(count as usize, out);
    Ok(len)
}
