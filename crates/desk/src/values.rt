// What one word says: a number in decimal (D1.4), or bytes in hex (D1.3).

use entry::Integer;
use manifest::Created;

// Leading zeros are among them (D1.4).
const DIGITS_MOST: usize = 40;

// One more digit, where the number stays below 2^64 (D1.4).
fn longer(n: u64, digit: u8) -> Option<u64> {
    if !digit.is_ascii_digit() {
        return None;
    }
    n.checked_mul(10)?.checked_add(u64::from(digit - b'0'))
}

// A number without a sign: 1 to 40 digits (D1.4).
pub(crate) fn decimal(word: &[u8]) -> Option<u64> {
    if word.is_empty() || word.len() > DIGITS_MOST {
        return None;
    }
    let mut n = 0;
    for &b in word {
        n = longer(n, b)?;
    }
    Some(n)
}

pub(crate) fn is_at_most(word: &[u8], most: u64) -> bool {
    decimal(word).is_some_and(|n| n <= most)
}

// A number that may begin with `-`: n, or -1 - n where it is negative; the negative of 0 is 0. One
// that goes beyond 63 bits is passed on all the same: the library refuses it (D1.4).
pub(crate) fn signed(word: &[u8]) -> Option<Integer> {
    let (minus, digits) = match word {
        [b'-', digits @ ..] => (true, digits),
        _ => (false, word),
    };
    let n = decimal(digits)?;
    let negative = minus && n > 0;
    Some(Integer {
        negative,
        n: n - u64::from(negative),
    })
}

// Which register the word names (D3.1).
pub(crate) fn register(word: &[u8]) -> Option<usize> {
    match word {
        b"a" => Some(0),
        b"b" => Some(1),
        b"c" => Some(2),
        b"d" => Some(3),
        _ => None,
    }
}

// The 64 bits of a double, which 16 digits say (D2.12).
pub(crate) fn double(word: &[u8]) -> Option<u64> {
    let mut bits = [0u8; 8];
    match digits::hex_read(word, &mut bits) {
        Ok(8) => Some(u64::from_be_bytes(bits)),
        _ => None,
    }
}

// An integer behind `i`, or a double behind `f` (D2.9).
pub(crate) fn created(word: &[u8]) -> Option<Created> {
    match word {
        [b'i', rest @ ..] => signed(rest).map(Created::Integer),
        [b'f', rest @ ..] => double(rest).map(|bits| Created::Double { bits }),
        _ => None,
    }
}

// Pairs of lower-case hex digits, or `-` for no bytes (D1.3).
pub(crate) fn is_bytes(word: &[u8]) -> bool {
    matches!(word, b"-") || word.len() % 2 == 0 && digits::all_hex(word)
}
