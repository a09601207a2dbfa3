// The list of files at a position of the input (R13.4).
ghost use Rattle.std.specs.Prelude.{◌≡◌, [], ◌≤◌};
ghost use Rattle.wire.specs.Reading.{told};
ghost use Rattle.wire.specs.Sizes.{most_files};
ghost use Rattle.manifest.specs.Manifest.{files_at, list_at};
ghost use Rattle.manifest.specs.Private.{files_answer};

use super::{FileList, blank_files};
use cbor::ARRAY;
use wire::{Refusal, Span};

// count files from position at on.
fn run(s: &[u8], at: usize, count: usize) -> Result<(FileList, usize), Refusal>
    requires { count ≤ most_files }
    ensures { told result ≡ files_answer (files_at s.now count at []) }
{
    let mut all = blank_files();
    let mut p = at;
    let mut last = Span { start: 0, len: 0 };
    for i in 0..count {
        let (file, next) = entry::read::file(s, p, lend::part(s, last))?;
        all[i] = file;
        last = file.path;
        p = next;
    }
    Ok((FileList { all, count }, p))
}

#[tactic(auto, using(crate::proofs::Answers::under), unfolding(crate::specs::Manifest::list_at))]
pub(super) fn list(s: &[u8], at: usize) -> Result<(FileList, usize), Refusal>
    ensures { told result ≡ files_answer (list_at s.now at) }
{
    let a = cbor::read::key(s, at, b"files")?;
    let most = wire::MOST_FILES as u64;
    let (n, next) = cbor::read::number(s, a, ARRAY, 1, most, Refusal::OutOfRange)?;
    run(s, next, n as usize)
}
