// The shortest head of a number (R10.1).
ghost use Rattle.std.specs.Prelude.{◌≡◌, ◌≤◌};
ghost use Rattle.cbor.specs.Form.{info_of, width_of};

// The five low bits of its first byte.
pub(super) fn info(n: u64) -> u8
    ensures { (result ≡ info_of n) × (result ≤ 27) }
{
    match n {
        0..24 => n as u8,
        24..0x100 => 24,
        0x100..0x10000 => 25,
        0x10000..0x100000000 => 26,
        _ => 27,
    }
}

// How many bytes of the number follow a first byte with info in its low bits.
pub(super) fn width(info: u8) -> usize
    ensures { (result ≡ width_of info) × (result ≤ 8) }
{
    match info {
        0..=23 => 0,
        24 => 1,
        25 => 2,
        26 => 4,
        _ => 8,
    }
}

// How many bytes of a number follow the first.
pub(super) fn following(n: u64) -> usize
    ensures { (result ≡ width_of (info_of n)) × (result ≤ 8) }
{
    width(info(n))
}
