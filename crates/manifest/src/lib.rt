// The manifest, read and written: section 13 of docs/RULES.md.
//
// What is written reads back, and what is read is exactly the written form of its value, which the
// writer accepts (`manifest_back`, `manifest_only`, `manifest_once`: manifest, Rounds). A manifest
// that its writer accepts has at most 16,384 bytes.
#![tactic(auto)]

mod fields;
mod files;
mod form;
mod judge;

ghost use Rattle.std.specs.Prelude.{◌≡◌, []};
ghost use Rattle.wire.specs.Reading.{told};
ghost use Rattle.wire.specs.Writing.{Written};
ghost use Rattle.manifest.specs.Manifest.{manifest_at};
ghost use Rattle.manifest.specs.Writing.{manifest_verdict};
ghost use Rattle.manifest.specs.Answer.{padded, answer_for};

use entry::{File, Integer};
use wire::{Refusal, Span};

#[derive(Clone, Copy, Debug, PartialEq, Eq)]
pub enum Created {
    Integer(Integer),
    // A float, by the 64 bits of its double (R10.8).
    Double { bits: u64 },
}

// The first `count` files are meant.
//
// stays (6): a list of files of its own length would need a heap, and the project has none.
#[derive(Clone, Copy, Debug, PartialEq, Eq)]
pub struct Manifest {
    // A place in the pool of the manifest's bytes: of one that was read the pool is the input
    // (R13.7).
    pub seed: Option<Span>,
    pub files: [File; wire::MOST_FILES],
    pub count: usize,
    pub sealed: bool,
    pub created: Created,
}

// The first `count` files were read, and each behind them is blank (R13.7).
#[derive(Clone, Copy)]
struct FileList {
    all: [File; wire::MOST_FILES],
    count: usize,
}

// What stands after the files.
#[derive(Clone, Copy)]
struct Ending {
    sealed: bool,
    created: Created,
}

#[tactic(auto, unfolding(crate::specs::Answer::padded, crate::specs::Answer::blank_file))]
fn blank_files() -> [File; wire::MOST_FILES]
    ensures { result ≡ padded [] }
{
    let none = Span { start: 0, len: 0 };
    let file = File {
        hash: none,
        path: none,
        size: 0,
        mtime: None,
    };
    [file; wire::MOST_FILES]
}

// The whole value of the manifest that s is, every field of it, and the position past it, which is
// the input's length; or the refusal of the first offending item, 9 before all else. Each file past
// the count is blank (R13.7).
#[tactic(auto, using(crate::proofs::Answers::under), unfolding(crate::specs::Manifest::manifest_at))]
pub fn read(s: &[u8]) -> Result<(Manifest, usize), Refusal>
    ensures { told result ≡ answer_for (manifest_at s.now) }
{
    if wire::MOST_MANIFEST < s.len() {
        return Err(Refusal::TooLarge);
    }
    let a = cbor::read::one_byte(s, 0, 0xA5)?;
    let (seed, b) = fields::seed_field(s, a)?;
    let (files, c) = files::list(s, b)?;
    let (end, next) = fields::ending(s, c, seed)?;
    let all = files.all;
    let value = Manifest {
        seed,
        files: all,
        count: files.count,
        sealed: end.sealed,
        created: end.created,
    };
    Ok((value, next))
}

// The manifest of m, with the first `count` of its files, at the front of out; or 19, 20, then 9,
// then 11, and nothing changed.
//
// Its places are in the pool, so what `read` answered is written by the same bytes with the input
// as the pool.
pub fn write(pool: &[u8], m: Manifest, out: &mut [u8]) -> Result<usize, Refusal>
    ensures { Written 0 (manifest_verdict pool.now m) out.old out.new result }
{
    let len = judge::whole(pool, m)?;
    if out.len() < len {
        return Err(Refusal::NoRoom);
    }
    form::whole(pool, m, out);
    Ok(len)
}
