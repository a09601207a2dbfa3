// BLAKE2b with no key and a digest of 32 bytes (R7.1): RFC 7693, whose sections the comments name.
#![tactic(auto)]

ghost use Rattle.std.specs.Prelude.{◌≡◌, ◌+◌, ◌-◌, ◌/◌, ◌<◌, ◌≤◌, true, false, ◌++◌, length, replicate};
ghost use Rattle.bits.specs.Word as W;
ghost use Rattle.blake2b.specs.Blake2b as B;

// 2.6: the initialization vector. proofs/Tables.antt has its rule (R18.3).
const IV: [u64; 8] = [
    0x6a09e667f3bcc908,
    0xbb67ae8584caa73b,
    0x3c6ef372fe94f82b,
    0xa54ff53a5f1d36f1,
    0x510e527fade682d1,
    0x9b05688c2b3e6c1f,
    0x1f83d9abfb41bd6b,
    0x5be0cd19137e2179,
];

// 2.7: the message schedule, a row for each round. Its rule is there too (R18.3).
const SIGMA: [[u8; 16]; 12] = [
    [0, 1, 2, 3, 4, 5, 6, 7, 8, 9, 10, 11, 12, 13, 14, 15],
    [14, 10, 4, 8, 9, 15, 13, 6, 1, 12, 0, 2, 11, 7, 5, 3],
    [11, 8, 12, 0, 5, 2, 15, 13, 10, 14, 3, 6, 7, 1, 9, 4],
    [7, 9, 3, 1, 13, 12, 11, 14, 2, 6, 5, 10, 4, 0, 15, 8],
    [9, 0, 5, 7, 2, 4, 10, 15, 14, 1, 11, 12, 6, 8, 3, 13],
    [2, 12, 6, 10, 0, 11, 8, 3, 4, 13, 7, 5, 15, 14, 1, 9],
    [12, 5, 1, 15, 14, 13, 4, 10, 0, 7, 6, 3, 9, 2, 8, 11],
    [13, 11, 7, 14, 12, 1, 3, 9, 5, 0, 15, 4, 8, 6, 2, 10],
    [6, 15, 14, 9, 11, 3, 0, 8, 12, 2, 13, 7, 1, 4, 10, 5],
    [10, 2, 8, 4, 7, 6, 1, 5, 15, 11, 9, 14, 3, 12, 13, 0],
    [0, 1, 2, 3, 4, 5, 6, 7, 8, 9, 10, 11, 12, 13, 14, 15],
    [14, 10, 4, 8, 9, 15, 13, 6, 1, 12, 0, 2, 11, 7, 5, 3],
];

fn add(v: &mut [u64; 16], i: usize, j: usize, x: u64)
    requires { (i < 16) × (j < 16) }
    ensures { v.new ≡ B.add v.old i j x }
{
    v[i] = v[i].wrapping_add(v[j]).wrapping_add(x);
}

fn turn(v: &mut [u64; 16], i: usize, j: usize, n: u32)
    requires { (i < 16) × (j < 16) × (0 < n) × (n < 64) }
    ensures { v.new ≡ B.turn v.old i j n }
{
    v[i] = (v[i] ^ v[j]).rotate_right(n);
}

// 3.1: the mixing function G.
fn g(v: &mut [u64; 16], a: usize, b: usize, c: usize, d: usize, x: u64, y: u64)
    requires { (a < 16) × (b < 16) × (c < 16) × (d < 16) }
    ensures { v.new ≡ B.G v.old a b c d x y }
{
    add(v, a, b, x);
    turn(v, d, a, 32);
    add(v, c, d, 0);
    turn(v, b, c, 24);
    add(v, a, b, y);
    turn(v, d, a, 16);
    add(v, c, d, 0);
    turn(v, b, c, 63);
}

// stays (5): a struct of m and sg would still need r beside it, and r < 12 in each contract.

// The message's word that round r takes at place i. The table is lent, since naming the constant
// here would copy it.
fn word(m: &[u64; 16], sg: &[[u8; 16]; 12], r: usize, i: usize) -> u64
    requires { (sg.now ≡ B.sigma) × (r < 12) × (i < 16) }
    ensures { result ≡ B.word m.now r i }
{
    m[usize::from(sg[r][i])]
}

// One line of a round: G at four places, with the round's words i and i + 1.
fn step(
    v: &mut [u64; 16],
    m: &[u64; 16],
    sg: &[[u8; 16]; 12],
    r: usize,
    i: usize,
    a: usize,
    b: usize,
    c: usize,
    d: usize,
)
    requires { (sg.now ≡ B.sigma) × (r < 12) × (i < 15) × (a < 16) × (b < 16) × (c < 16) × (d < 16) }
    ensures { v.new ≡ B.G v.old a b c d (B.word m.now r i) (B.word m.now r (i + 1)) }
{
    let x = word(m, sg, r, i);
    let y = word(m, sg, r, i + 1);
    g(v, a, b, c, d, x, y);
}

fn round(v: &mut [u64; 16], m: &[u64; 16], sg: &[[u8; 16]; 12], r: usize)
    requires { (sg.now ≡ B.sigma) × (r < 12) }
    ensures { v.new ≡ B.round m.now r v.old }
{
    step(v, m, sg, r, 0, 0, 4, 8, 12);
    step(v, m, sg, r, 2, 1, 5, 9, 13);
    step(v, m, sg, r, 4, 2, 6, 10, 14);
    step(v, m, sg, r, 6, 3, 7, 11, 15);
    step(v, m, sg, r, 8, 0, 5, 10, 15);
    step(v, m, sg, r, 10, 1, 6, 11, 12);
    step(v, m, sg, r, 12, 2, 7, 8, 13);
    step(v, m, sg, r, 14, 3, 4, 9, 14);
}

fn rounds(v: &mut [u64; 16], m: &[u64; 16], sg: &[[u8; 16]; 12])
    requires { sg.now ≡ B.sigma }
    ensures { v.new ≡ B.rounds 12 m.now v.old }
{
    for r in 0..12usize {
        round(v, m, sg, r);
    }
}

// The state, and after it the initialization vector. The offset t is below 2^64 here, so its high
// word is 0 and v[13] stays.
fn begin(h: [u64; 8], t: u64, last: bool) -> [u64; 16]
    ensures { result ≡ B.begin h t last }
{
    let mut v = [0u64; 16];
    v[..8].copy_from_slice(&h);
    v[8..].copy_from_slice(&IV);
    v[12] = v[12] ^ t;
    if last {
        v[14] = v[14] ^ 0xffffffffffffffff;
    }
    v
}

fn fold(h: [u64; 8], v: &[u64; 16]) -> [u64; 8]
    ensures { result ≡ B.fold h v.now }
{
    let mut x = [0u64; 8];
    for i in 0..8usize {
        x[i] = h[i] ^ v[i] ^ v[i + 8];
    }
    x
}

// 3.2: the compression function F.
fn compress(h: [u64; 8], m: &[u64; 16], t: u64, last: bool) -> [u64; 8]
    ensures { result ≡ B.F h m.now t last }
{
    let mut v = begin(h, t, last);
    rounds(&mut v, m, &SIGMA);
    fold(h, &v)
}

fn words(b: &[u8; 128]) -> [u64; 16]
    ensures { result ≡ B.words b.now 0 }
{
    let mut m = [0u64; 16];
    let (words, _) = b.as_chunks::<8>();
    for (i, x) in words.iter().enumerate() {
        m[i] = u64::from_le_bytes(*x);
    }
    m
}

// The state after the block b.
fn absorb(h: [u64; 8], b: &[u8; 128], t: u64, last: bool) -> [u64; 8]
    ensures { result ≡ B.F h (B.words b.now 0) t last }
{
    let m = words(b);
    compress(h, &m, t, last)
}

// The state after the whole blocks of s, none of which is the last.
fn blocks(s: &[u8], h: [u64; 8]) -> [u64; 8]
    ensures { result ≡ B.blocks (length s.now / 128) s.now h }
{
    let mut x = h;
    let (blocks, _) = s.as_chunks::<128>();
    for (k, b) in blocks.iter().enumerate() {
        let y = absorb(x, b, ((k + 1) * 128) as u64, false);
        x = y;
    }
    x
}

// The last block: what is left of the message, and zeros.
fn tail(rest: &[u8]) -> [u8; 128]
    requires { length rest.now ≤ 128 }
    ensures { result ≡ rest.now ++ replicate (128 - length rest.now) 0 }
{
    let mut t = [0u8; 128];
    t[..rest.len()].copy_from_slice(rest);
    t
}

fn digest(h: [u64; 8]) -> [u8; 32]
    ensures { result ≡ B.digest h }
{
    let mut d = [0u8; 32];
    for (i, x) in h[..4].iter().enumerate() {
        d[8 * i..8 * i + 8].copy_from_slice(&x.to_le_bytes());
    }
    d
}

// The last block's place, counted from 0.
fn last_block(n: usize) -> usize
    ensures { result ≡ B.dd n - 1 }
{
    n.saturating_sub(1) / 128
}

// ---- block by block, for a message that does not stand in one piece (3.3)

// The state before the first block.
pub fn start() -> [u64; 8]
    ensures { result ≡ B.start }
{
    let mut h = IV;
    // kk = 0 and nn = 32
    h[0] = h[0] ^ 0x01010000 ^ 32;
    h
}

// The state after one more block, which is not the last: t is how many bytes the message has up to
// its end.
pub fn block(h: [u64; 8], b: &[u8; 128], t: u64) -> [u64; 8]
    ensures { result ≡ B.F h (B.words b.now 0) t false }
{
    absorb(h, b, t, false)
}

// The digest after the last block, which zeros fill up: t is how many bytes the message has.
//
// That a message's blocks in order come to its hash is `hashing_last` (blake2b, Pieces).
pub fn last(h: [u64; 8], b: &[u8; 128], t: u64) -> [u8; 32]
    ensures { result ≡ B.digest (B.F h (B.words b.now 0) t true) }
{
    digest(absorb(h, b, t, true))
}

// The BLAKE2b of s, of any length: no key, a digest of 32 bytes.
//
// Section 3.3.
pub fn blake2b(s: &[u8]) -> [u8; 32]
    ensures { result ≡ B.blake2b s.now }
{
    let (full, rest) = s.split_at(last_block(s.len()) * 128);
    let x = blocks(full, start());
    last(x, &tail(rest), s.len() as u64)
}
