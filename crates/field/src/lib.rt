// The field with 2^128 elements, of which secrets are split and recovered (R19.1). An element is
// two halves by value, the high powers first (R18.8).
//
// How long a call takes depends on the second factor alone, and a table is read at it alone: above
// this crate that is a slip's number, or the inverse of a difference of two, which stand on the
// slips for all to see. So neither time nor memory tells of a secret, as far as the compiler leaves
// the code as it is.
#![tactic(auto)]

mod inverses;

ghost use Rattle.std.specs.Prelude.{◌≡◌, ◌+◌, ◌^◌, ◌≤◌, ◌<◌, get_or, drop};
ghost use Rattle.wire.specs.Number.{number, big_endian};
ghost use Rattle.field.specs.Field as F;
ghost use Rattle.field.specs.Element.{joined, halves, filled, block};

// The sum of two elements, which is their difference too.
pub fn sum(a: [u64; 2], b: [u64; 2]) -> [u64; 2]
    ensures { result ≡ halves (F.plus (joined a) (joined b)) }
{
    [a[0] ^ b[0], a[1] ^ b[1]]
}

// An element times x.
fn double(a: [u64; 2]) -> [u64; 2]
    ensures { result ≡ halves (F.times_x (joined a)) }
{
    [
        (a[0] << 1) ^ (a[1] >> 63),
        (a[1] << 1) ^ ((a[0] >> 63) * 0x87),
    ]
}

// A coefficient, 0 or 1, times an element.
fn pick(bit: u64, a: [u64; 2]) -> [u64; 2]
    ensures { joined result ≡ F.pick bit (joined a) }
{
    if bit == 0 { [0, 0] } else { a }
}

// Where n coefficients have led: what they sum up to, and what the next one stands for.
#[derive(Drop)]
struct Turned {
    sum: [u64; 2],
    next: [u64; 2],
}

// The polynomial of the n lowest bits of w, times a; and x^n times a, for the bits above them.
fn times(a: [u64; 2], w: u64, n: u64) -> Turned
    requires { n ≤ 64 }
    ensures sum { result.sum ≡ halves (F.times n w (joined a)) }
    ensures next { joined result.next ≡ F.times (n + 1) (2 ^ n) (joined a) }
{
    let mut r = [0u64; 2];
    let mut b = a;
    for k in 0..n {
        let s = sum(r, pick((w >> k) % 2, b));
        r = s;
        let d = double(b);
        b = d;
    }
    Turned { sum: r, next: b }
}

// An element times the element of a point, which is below 256.
pub fn scale(a: [u64; 2], x: u8) -> [u64; 2]
    ensures { result ≡ halves (F.product (joined a) x) }
{
    times(a, u64::from(x), 8).sum
}

// The product of two elements.
pub fn product(a: [u64; 2], b: [u64; 2]) -> [u64; 2]
    ensures { result ≡ halves (F.product (joined a) (joined b)) }
{
    let low = times(a, b[1], 64);
    let high = times(low.next, b[0], 64);
    sum(low.sum, high.sum)
}

// What an element is multiplied by to divide it by d.
fn inverse(d: u8) -> [u64; 2]
    ensures { result ≡ halves (F.inverse d) }
{
    // Lent: where a constant is indexed itself, all of it is copied each time.
    let t = &inverses::INVERSES;
    let i = usize::from(d) * 2;
    [t[i], t[i + 1]]
}

// An element divided by one of 1 to 255: by 0 it gives 0.
pub fn over(a: [u64; 2], d: u8) -> [u64; 2]
    ensures { result ≡ halves (F.over (joined a) d) }
{
    product(a, inverse(d))
}

// The byte at i, or 0 where there is none.
fn byte(s: &[u8], i: usize) -> u64
    ensures { (result ≡ get_or s.now i 0) × (result < 256) }
{
    u64::from(s.get(i).copied().unwrap_or(0))
}

// The number of 8 bytes from k on, with zeros where there are no more.
fn word(s: &[u8], k: usize) -> u64
    requires { k ≤ 8 }
    ensures { result ≡ number 256 (filled 8 (drop k s.now)) }
{
    let mut w: u64 = 0;
    for i in 0..8 {
        w = w * 256 + byte(s, k + i);
    }
    w
}

// The element of the first 16 bytes, with zeros where there are no more.
pub fn load(s: &[u8]) -> [u64; 2]
    ensures { result ≡ halves (block s.now) }
{
    [word(s, 0), word(s, 8)]
}

// The 16 bytes of an element.
pub fn bytes(a: [u64; 2]) -> [u8; 16]
    ensures { result ≡ big_endian 16 (joined a) }
{
    let mut out = [0; 16];
    out[..8].copy_from_slice(&a[0].to_be_bytes());
    out[8..].copy_from_slice(&a[1].to_be_bytes());
    out
}
