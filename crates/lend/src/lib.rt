// Writes into lent buffers, comparison and parts of them. Each function takes any arguments: a
// write that does not fit changes nothing.
#![tactic(auto)]

ghost use Rattle.std.specs.Prelude.{◌≡◌, [], ◌∷◌, map, ◌+◌, ◌≤◌, length, replicate};
ghost use Rattle.wire.specs.Over.{over};
ghost use Rattle.wire.specs.Span.{part_at};
ghost use Rattle.wire.specs.Answer.{done};
ghost use Rattle.wire.specs.Writing.{Written};
ghost use Rattle.lend.specs.Plain.{plain_byte};
ghost use Rattle.lend.specs.Same.{same};

use wire::{Refusal, Span};

// The byte b stands at the index. Nothing changes where that index is outside.
pub fn put(out: &mut [u8], at: usize, b: u8)
    ensures { out.new ≡ over at (b ∷ []) out.old }
{
    if at < out.len() {
        out[at] = b;
    }
}

// A loop and no `copy_from_slice`: of that the compiler makes `memmove`, and a program in C that
// calls the phone's library need bring no more of C's library than `memcpy` and `memset`.
fn copy_fitting(out: &mut [u8], at: usize, src: &[u8])
    requires { at + length src.now ≤ length out.old }
    ensures { out.new ≡ over at src.now out.old }
{
    for (i, b) in src.iter().enumerate() {
        out[at + i] = *b;
    }
}

// All of src stands from the index on. Nothing changes where it does not fit.
pub fn copy(out: &mut [u8], at: usize, src: &[u8])
    ensures { out.new ≡ over at src.now out.old }
{
    if at <= out.len() && src.len() <= out.len() - at {
        copy_fitting(out, at, src);
    }
}

// The byte b stands n times from the index on. Nothing changes where that does not fit.
pub fn fill(out: &mut [u8], at: usize, n: usize, b: u8)
    ensures { out.new ≡ over at (replicate n b) out.old }
{
    if at <= out.len() && n <= out.len() - at {
        out[at..at + n].fill(b);
    }
}

// n zeros stand from the index on. Nothing changes where they do not fit.
pub fn clear(out: &mut [u8], at: usize, n: usize)
    ensures { out.new ≡ over at (replicate n 0) out.old }
{
    fill(out, at, n, 0);
}

// True exactly where a and b hold the same bytes (`same_eq`, `same_refl`). `==` of slices compares
// whole groups of bytes at once.
#[tactic(auto, using(crate::proofs::Sames::pointwise_same))]
pub fn equal(a: &[u8], b: &[u8]) -> bool
    ensures { result ≡ same a.now b.now }
{
    a == b
}

// All of a text at the front of out, and its length; or 11 and nothing changed.
//
// This is the whole answer of a call that writes what was put together elsewhere.
pub fn give(text: &[u8], out: &mut [u8]) -> Result<usize, Refusal>
    ensures { Written 0 (done text.now) out.old out.new result }
{
    if out.len() < text.len() {
        return Err(Refusal::NoRoom);
    }
    copy(out, 0, text);
    Ok(text.len())
}

fn plain_byte(b: u8) -> u8
    ensures { result ≡ plain_byte b }
{
    match b {
        b' '..=b'~' => b,
        _ => b'?',
    }
}

// Each byte of a word that is no printable ASCII becomes a question mark, so that a terminal can
// take none for an order.
pub fn plain(word: &mut [u8])
    ensures { word.new ≡ map plain_byte word.old }
{
    for b in word.iter_mut() {
        *b = plain_byte(*b);
    }
}

// The bytes at a place of the pool; of a place that reaches past the pool those that are there.
pub fn part(pool: &[u8], p: Span) -> &[u8]
    ensures { result.now ≡ part_at pool.now p }
{
    let start = p.start.min(pool.len());
    let end = start + p.len.min(pool.len() - start);
    &pool[start..end]
}
