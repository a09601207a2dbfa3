// SHA-256, FIPS 180-4, of any slice of bytes (R14.5).
#![tactic(auto)]

ghost use Rattle.std.specs.Prelude.{◌≡◌, ◌+◌, ◌-◌, ◌*◌, ◌/◌, ◌%◌, ◌^◌, ◌<◌, ◌≤◌, length, take, drop, get_or};
ghost use Rattle.wire.specs.Number.{number};
ghost use Rattle.bits.specs.Word as W;
ghost use Rattle.sha256.specs.Functions as F;
ghost use Rattle.sha256.specs.Constants as C;
ghost use Rattle.sha256.specs.Message as M;
ghost use Rattle.sha256.specs.Sha as S;

fn ch(x: u32, y: u32, z: u32) -> u32
    ensures { result ≡ F.ch x y z }
{
    (x & y) ^ (!x & z)
}

fn maj(x: u32, y: u32, z: u32) -> u32
    ensures { result ≡ F.maj x y z }
{
    (x & y) ^ (x & z) ^ (y & z)
}

fn big0(x: u32) -> u32
    ensures { result ≡ F.Σ0 x }
{
    x.rotate_right(2) ^ x.rotate_right(13) ^ x.rotate_right(22)
}

fn big1(x: u32) -> u32
    ensures { result ≡ F.Σ1 x }
{
    x.rotate_right(6) ^ x.rotate_right(11) ^ x.rotate_right(25)
}

fn small0(x: u32) -> u32
    ensures { result ≡ F.σ0 x }
{
    x.rotate_right(7) ^ x.rotate_right(18) ^ (x >> 3)
}

fn small1(x: u32) -> u32
    ensures { result ≡ F.σ1 x }
{
    x.rotate_right(17) ^ x.rotate_right(19) ^ (x >> 10)
}

// The eight words of a hash value, and the working variables that start as it.
#[derive(Clone, Copy)]
struct State {
    a: u32,
    b: u32,
    c: u32,
    d: u32,
    e: u32,
    f: u32,
    g: u32,
    h: u32,
}

fn round(s: State, k: u32, w: u32) -> State
    ensures { result ≡ S.round s k w }
{
    let t1 = s
        .h
        .wrapping_add(big1(s.e))
        .wrapping_add(ch(s.e, s.f, s.g))
        .wrapping_add(k)
        .wrapping_add(w);
    let t2 = big0(s.a).wrapping_add(maj(s.a, s.b, s.c));
    State {
        a: t1.wrapping_add(t2),
        b: s.a,
        c: s.b,
        d: s.c,
        e: s.d.wrapping_add(t1),
        f: s.e,
        g: s.f,
        h: s.g,
    }
}

// Section 4.2.2. proofs/Roots.antt has its rule (R18.3).
const K: [u32; 64] = [
    0x428a2f98, 0x71374491, 0xb5c0fbcf, 0xe9b5dba5, 0x3956c25b, 0x59f111f1, 0x923f82a4, 0xab1c5ed5,
    0xd807aa98, 0x12835b01, 0x243185be, 0x550c7dc3, 0x72be5d74, 0x80deb1fe, 0x9bdc06a7, 0xc19bf174,
    0xe49b69c1, 0xefbe4786, 0x0fc19dc6, 0x240ca1cc, 0x2de92c6f, 0x4a7484aa, 0x5cb0a9dc, 0x76f988da,
    0x983e5152, 0xa831c66d, 0xb00327c8, 0xbf597fc7, 0xc6e00bf3, 0xd5a79147, 0x06ca6351, 0x14292967,
    0x27b70a85, 0x2e1b2138, 0x4d2c6dfc, 0x53380d13, 0x650a7354, 0x766a0abb, 0x81c2c92e, 0x92722c85,
    0xa2bfe8a1, 0xa81a664b, 0xc24b8b70, 0xc76c51a3, 0xd192e819, 0xd6990624, 0xf40e3585, 0x106aa070,
    0x19a4c116, 0x1e376c08, 0x2748774c, 0x34b0bcb5, 0x391c0cb3, 0x4ed8aa4a, 0x5b9cca4f, 0x682e6ff3,
    0x748f82ee, 0x78a5636f, 0x84c87814, 0x8cc70208, 0x90befffa, 0xa4506ceb, 0xbef9a3f7, 0xc67178f2,
];

// The constants are lent, since `K[t]` would copy the table at each round.
fn rounds(k: &[u32; 64], w: &[u32; 64], s: State) -> State
    requires { k.now ≡ C.k_words }
    ensures { result ≡ S.rounds 64 w.now s }
{
    let mut x = s;
    for t in 0..64usize {
        x = round(x, k[t], w[t]);
    }
    x
}

// The schedule of a block, as far as its first sixteen words, which are the block's.
fn words(b: &[u8; 64]) -> [u32; 64]
    ensures { (take 16 result ≡ S.schedule 16 b.now) × (length result ≡ 64) }
{
    let mut w = [0u32; 64];
    let (words, _) = b.as_chunks::<4>();
    for (t, x) in words.iter().enumerate() {
        w[t] = u32::from_be_bytes(*x);
    }
    w
}

fn next(w: &[u32; 64], t: usize) -> u32
    requires { (16 ≤ t) × (t < 64) }
    ensures { result ≡ S.next t w.now }
{
    small1(w[t - 2])
        .wrapping_add(w[t - 7])
        .wrapping_add(small0(w[t - 15]))
        .wrapping_add(w[t - 16])
}

fn schedule(b: &[u8; 64]) -> [u32; 64]
    ensures { result ≡ S.schedule 64 b.now }
{
    let mut w = words(b);
    for t in 16..64usize {
        let x = next(&w, t);
        w[t] = x;
    }
    w
}

fn sum(s: State, t: State) -> State
    ensures { result ≡ S.sum s t }
{
    State {
        a: s.a.wrapping_add(t.a),
        b: s.b.wrapping_add(t.b),
        c: s.c.wrapping_add(t.c),
        d: s.d.wrapping_add(t.d),
        e: s.e.wrapping_add(t.e),
        f: s.f.wrapping_add(t.f),
        g: s.g.wrapping_add(t.g),
        h: s.h.wrapping_add(t.h),
    }
}

fn compress(s: State, b: &[u8; 64]) -> State
    ensures { result ≡ S.compress s b.now }
{
    let w = schedule(b);
    sum(rounds(&K, &w, s), s)
}

// The whole blocks of s.
fn blocks(s: &[u8], first: State) -> State
    ensures { result ≡ S.blocks (length s.now / 64) s.now first }
{
    let mut x = first;
    let (blocks, _) = s.as_chunks::<64>();
    for b in blocks {
        x = compress(x, b);
    }
    x
}

fn zeros(n: usize) -> usize
    ensures { (result ≡ M.zeros n) × (result < 64) }
{
    (119 - n % 64) % 64
}

// The last one or two blocks of the padded message, from byte `at` on, where the whole blocks of
// the message end. The shift drops what the length in bits has above 64 bits (R14.5).
fn tail(s: &[u8], at: usize, len: usize) -> [u8; 128]
    requires { (at ≤ length s.now) × (at + len ≡ length s.now + M.zeros (length s.now) + 9) × (len ≤ 128) }
    ensures { (take len result ≡ drop at (M.pad s.now)) × (length result ≡ 128) }
{
    let rest = &s[at..];
    let bits = (s.len() as u64) << 3;
    let mut t = [0u8; 128];
    t[..rest.len()].copy_from_slice(rest);
    t[rest.len()] = 0x80;
    t[len - 8..len].copy_from_slice(&bits.to_be_bytes());
    t
}

fn digest(s: State) -> [u8; 32]
    ensures { result ≡ S.joined (S.listed s) }
{
    let w = [s.a, s.b, s.c, s.d, s.e, s.f, s.g, s.h];
    let mut d = [0u8; 32];
    for (i, x) in w.iter().enumerate() {
        d[4 * i..4 * i + 4].copy_from_slice(&x.to_be_bytes());
    }
    d
}

// The SHA-256 of s, of any length.
//
// The whole blocks of s are hashed where they stand, and only the rest is padded in a buffer.
pub fn sha256(s: &[u8]) -> [u8; 32]
    ensures { result ≡ S.sha256 s.now }
{
    let n = s.len();
    let len = n % 64 + 9 + zeros(n);
    let first = State {
        a: 0x6a09e667,
        b: 0xbb67ae85,
        c: 0x3c6ef372,
        d: 0xa54ff53a,
        e: 0x510e527f,
        f: 0x9b05688c,
        g: 0x1f83d9ab,
        h: 0x5be0cd19,
    };
    let x = blocks(s, first);
    let t = tail(s, n - n % 64, len);
    digest(blocks(&t[..len], x))
}
