// Bits as they pass from characters to bytes and back: the first bits are the highest.
ghost use Rattle.std.specs.Prelude.{◌≡◌, ◌+◌, ◌*◌, ◌/◌, ◌%◌, ◌^◌, ◌≤◌, ◌<◌};

// The bits, and after them the digit v of size bits.
pub(super) fn joined(bits: u32, size: u32, v: u8) -> u32
    requires { (bits < 2 ^ 8) × (size ≤ 8) }
    ensures { result ≡ bits * 2 ^ size + v }
{
    (bits << size) + (v as u32)
}

// All but the last left bits.
pub(super) fn top(bits: u32, left: u32) -> u8
    requires { (left < 8) × (bits / 2 ^ left < 256) }
    ensures { result ≡ bits / 2 ^ left }
{
    (bits >> left) as u8
}

// The last left bits.
pub(super) fn low(bits: u32, left: u32) -> u32
    requires { left < 8 }
    ensures { result ≡ bits % 2 ^ left }
{
    bits % (1 << left)
}
