// Whether a file may be written, and its written form. Its places are in a pool of bytes (R13.7).
ghost use Rattle.std.specs.Prelude.{◌≡◌, ◌+◌, ◌≤◌, length};
ghost use Rattle.wire.specs.Writing.{told, outcome};
ghost use Rattle.path.specs.Path.{path_most};
ghost use Rattle.cbor.specs.Put.{Put};
ghost use Rattle.entry.specs.Writing.{integer_of, file_of, held, digest_in, path_in, mtime_allowed, file_verdict, form_of};
ghost use Rattle.entry.specs.Private.{mtime_field_of, mtime_size, file_size};

use super::{File, Integer};
use cbor::{BYTES, INTEGER, NEGATIVE, TEXT};
use wire::{Refusal, Span};

#[tactic(auto, unfolding(crate::specs::Writing::held))]
fn holds(pool: &[u8], p: Span) -> bool
    ensures { result ≡ held pool.now p }
{
    if pool.len() < p.start {
        return false;
    }
    if pool.len() - p.start < p.len {
        return false;
    }
    true
}

// True exactly where 32 bytes of the pool are at the place, as of a hash or a seed.
#[tactic(auto, unfolding(crate::specs::Writing::digest_in))]
pub fn digest(pool: &[u8], p: Span) -> bool
    ensures { result ≡ digest_in pool.now p }
{
    if !holds(pool, p) {
        return false;
    }
    p.len == 32
}

#[tactic(auto, unfolding(crate::specs::Writing::path_in))]
fn path_fits(pool: &[u8], prev: &[u8], p: Span) -> bool
    ensures { result ≡ path_in pool.now prev.now p }
{
    if !holds(pool, p) {
        return false;
    }
    let bs = lend::part(pool, p);
    if !path::allowed(bs) {
        return false;
    }
    path::ascends(prev, bs)
}

#[tactic(auto, unfolding(crate::specs::Writing::mtime_allowed))]
fn mtime_allowed(t: Option<Integer>) -> bool
    ensures { result ≡ mtime_allowed t }
{
    match t {
        None => true,
        Some(v) => v.n < 0x8000000000000000,
    }
}

#[tactic(auto, unfolding(crate::specs::Private::mtime_size))]
fn mtime_size(t: Option<Integer>) -> usize
    ensures { result ≡ mtime_size t }
{
    match t {
        None => 1,
        Some(v) => cbor::write::size(v.n),
    }
}

// How long a file is that may be written: 56 bytes are its head, its keys and its hash.
#[tactic(auto, unfolding(crate::specs::Private::file_size))]
fn size(f: File) -> usize
    requires { f.path.len ≤ path_most }
    ensures { result ≡ file_size f }
{
    let len = f.path.len;
    56 + cbor::write::size(len as u64) + len + cbor::write::size(f.size) + mtime_size(f.mtime)
}

// The length of the written form of a file, where the file may be written behind prev, the path
// before it; or 19, 20.
#[tactic(auto, unfolding(crate::specs::Writing::file_verdict))]
pub fn judge(pool: &[u8], prev: &[u8], f: File) -> Result<usize, Refusal>
    ensures { told result ≡ outcome (file_verdict pool.now prev.now f) }
{
    if !digest(pool, f.hash) {
        return Err(Refusal::OutOfRange);
    }
    if !path_fits(pool, prev, f.path) {
        return Err(Refusal::BadPath);
    }
    if wire::MOST_FILE_SIZE < f.size {
        return Err(Refusal::OutOfRange);
    }
    if !mtime_allowed(f.mtime) {
        return Err(Refusal::OutOfRange);
    }
    Ok(size(f))
}

// An integer in its one form at the position, and the position past it. Where it does not fit,
// nothing is written and the position stays.
#[tactic(auto, unfolding(crate::specs::Writing::integer_of))]
pub fn integer(out: &mut [u8], at: usize, v: Integer) -> usize
    ensures { Put at (integer_of v.negative v.n) out.old out.new result }
{
    if v.negative {
        return cbor::write::head(out, at, NEGATIVE, v.n);
    }
    cbor::write::head(out, at, INTEGER, v.n)
}

fn mtime_fitting(t: Option<Integer>, out: &mut [u8], at: usize) -> usize
    requires { at + length (mtime_field_of t) ≤ length out.old }
    ensures { Put at (mtime_field_of t) out.old out.new result }
{
    let a = cbor::write::string(out, at, TEXT, b"mtime");
    match t {
        None => cbor::write::fixed(out, a, b"\xF6"),
        Some(v) => integer(out, a, v),
    }
}

fn file_fitting(pool: &[u8], f: File, out: &mut [u8], at: usize) -> usize
    requires { at + length (file_of pool.now f) ≤ length out.old }
    ensures { Put at (file_of pool.now f) out.old out.new result }
{
    let a = cbor::write::fixed(out, at, b"\xA4");
    let b = cbor::write::string_field(out, a, b"hash", BYTES, lend::part(pool, f.hash));
    let c = cbor::write::string_field(out, b, b"path", TEXT, lend::part(pool, f.path));
    let d = cbor::write::number_field(out, c, b"size", f.size);
    mtime_fitting(f.mtime, out, d)
}

// The map of one file at the position, and the position past it. Where the file is refused or does
// not fit, nothing is written and the position stays.
//
// A manifest's writer judges first that all of it may be written and fits.
pub fn file(pool: &[u8], prev: &[u8], f: File, out: &mut [u8], at: usize) -> usize
    ensures { Put at (form_of (file_verdict pool.now prev.now f)) out.old out.new result }
{
    let Ok(len) = judge(pool, prev, f) else {
        return at;
    };
    if out.len() < at {
        return at;
    }
    if out.len() - at < len {
        return at;
    }
    file_fitting(pool, f, out, at)
}
