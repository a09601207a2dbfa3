// CRC-32/ISO-HDLC: the checksum of a frame (R6.3) and of a block of the collection (R8.2). The
// definition takes one bit at a time; here eight leave the register at once, by a table.
#![tactic(auto)]

mod table;

ghost use Rattle.std.specs.Prelude.{◌≡◌, ℕ, ◌<◌, get_or};
ghost use Rattle.wire.specs.Number.{big_endian};
ghost use Rattle.crc.specs.Crc as C;

// Eight bits leave the register. The table has what becomes of its low byte; the bits above that
// only move down.
fn eight_bits(t: &[u32; 256], c: u32) -> u32
    requires { (k : ℕ) → k < 256 → get_or t.now k 0 ≡ C.bits 8 k }
    ensures { result ≡ C.bits 8 c }
{
    (c >> 8) ^ t[(c % 256) as usize]
}

// Four bytes. They come into the register together, the first at its low end: one load and one
// exclusive or in place of four.
fn word(t: &[u32; 256], c: u32, b: &[u8; 4]) -> u32
    requires { (k : ℕ) → k < 256 → get_or t.now k 0 ≡ C.bits 8 k }
    ensures { result ≡ C.through c b.now }
{
    let all = c ^ u32::from_le_bytes(*b);
    eight_bits(t, eight_bits(t, eight_bits(t, eight_bits(t, all))))
}

// The CRC-32/ISO-HDLC of all of s.
pub fn crc32(s: &[u8]) -> u32
    ensures { result ≡ C.crc32 s.now }
{
    // Lent once: where a constant is indexed itself, all of it is copied each time.
    let t = &table::TABLE;
    let mut c: u32 = 0xFFFFFFFF;
    let (words, rest) = s.as_chunks::<4>();
    for b in words {
        c = word(t, c, b);
    }
    for b in rest {
        c = eight_bits(t, c ^ u32::from(*b));
    }
    c ^ 0xFFFFFFFF
}

// The CRC-32/ISO-HDLC of all of s as a frame and a block hold it: four bytes, the highest first.
pub fn sum(s: &[u8]) -> [u8; 4]
    ensures { result ≡ big_endian 4 (C.crc32 s.now) }
{
    crc32(s).to_be_bytes()
}
