// What stands at a position of the input. Of several faults the one furthest in front is told
// (R10.2), and a refusal leaves at once (R18.4).
ghost use Rattle.std.specs.Prelude.{◌≡◌};
ghost use Rattle.wire.specs.Reading.{told};
ghost use Rattle.entry.specs.File.{integer_at, mtime_at, path_at, file_at};

use super::{File, Integer};
use cbor::{BYTES, Head, INTEGER, TEXT};
use wire::{Refusal, Span};

// 2^63: an integer is n or -1 - n with n below it (R13.6).
const END: u64 = 0x8000000000000000;

// The head of an integer from -2^63 to 2^63 - 1, and the position past it; or 3, 18, 19. The major
// type NEGATIVE tells that it is below 0.
#[tactic(auto, using(wire::proofs::Answers::reads), unfolding(crate::specs::File::integer_at))]
pub fn integer(s: &[u8], at: usize) -> Result<(Head, usize), Refusal>
    ensures { told result ≡ integer_at s.now at }
{
    let (h, next) = cbor::read::head(s, at, INTEGER)?;
    if END <= h.n {
        return Err(Refusal::OutOfRange);
    }
    Ok((h, next))
}

// An integer or null, and the position past it.
#[tactic(auto, using(wire::proofs::Answers::reads), unfolding(crate::specs::File::mtime_at))]
fn mtime_field(s: &[u8], at: usize) -> Result<(Option<Integer>, usize), Refusal>
    ensures { told result ≡ mtime_at s.now at }
{
    let (first, a) = cbor::read::any_field(s, at, b"mtime")?;
    if first == 0xF6 {
        return Ok((None, a + 1));
    }
    let (h, next) = integer(s, a)?;
    Ok((Some(Integer::from(h)), next))
}

// A path that is above prev, the path before it (R12.6).
#[tactic(auto, using(wire::proofs::Answers::reads), unfolding(crate::specs::File::path_at))]
fn path_field(s: &[u8], at: usize, prev: &[u8]) -> Result<(Span, usize), Refusal>
    ensures { told result ≡ path_at s.now at prev.now }
{
    let (p, next) = cbor::read::string_field(
        s,
        at,
        b"path",
        TEXT,
        path::LEAST,
        path::MOST,
        Refusal::BadPath,
    )?;
    let text = lend::part(s, p);
    if !path::allowed(text) {
        return Err(Refusal::BadPath);
    }
    if !path::ascends(prev, text) {
        return Err(Refusal::BadPath);
    }
    Ok((p, next))
}

// The map of one file, whose path is above prev, the path before it, and the position past the map;
// or the refusal of the first offending item.
#[tactic(auto, using(wire::proofs::Answers::reads), unfolding(crate::specs::File::file_at))]
pub fn file(s: &[u8], at: usize, prev: &[u8]) -> Result<(File, usize), Refusal>
    ensures { told result ≡ file_at s.now at prev.now }
{
    let a = cbor::read::one_byte(s, at, 0xA4)?;
    let (hash, b) = cbor::read::string_field(s, a, b"hash", BYTES, 32, 32, Refusal::OutOfRange)?;
    let (path, c) = path_field(s, b, prev)?;
    let (size, d) = cbor::read::number_field(s, c, b"size", 0, wire::MOST_FILE_SIZE)?;
    let (mtime, next) = mtime_field(s, d)?;
    let file = File {
        hash,
        path,
        size,
        mtime,
    };
    Ok((file, next))
}
