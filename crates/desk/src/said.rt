// The manifest that a line of manifest-write says (D2.10). Its bytes stand in the pool, where the
// library takes them from.
ghost use Rattle.std.specs.Prelude.{◌≤◌};

use crate::values;
use crate::words::Call;
use crate::words::Kind::{
    Bytes, BytesOrNull, Created, ManifestCount, Number, Room, TimeOrNull, ZeroOrOne,
};
use entry::File;
use manifest::Manifest;
use wire::Span;

// The words before the first file, with the verb: SEED, SEALED, CREATED, N.
const BEFORE_FILES: usize = 5;

// The most files that a line may name: one more than a manifest may have (D2.10).
const MOST: u64 = 65;

// Whether the words behind the verb are those of n files.
fn is_of(call: Call, n: usize) -> bool
    requires { n ≤ 65 }
{
    call.count() == BEFORE_FILES + 4 * n + 1
        && (0..n).all(|i| call.fits(BEFORE_FILES + 4 * i, &[Bytes, Bytes, Number, TimeOrNull]))
        && call.fits(BEFORE_FILES + 4 * n, &[Room])
}

// The file whose words start at word k.
fn file(call: Call, k: usize) -> File
    requires { k ≤ 500 }
{
    File {
        hash: call.place(k),
        path: call.place(k + 1),
        size: call.number(k + 2),
        mtime: values::signed(call.word(k + 3)),
    }
}

fn blank() -> File {
    let none = Span { start: 0, len: 0 };
    File {
        hash: none,
        path: none,
        size: 0,
        mtime: None,
    }
}

// What a line of this form says; none where it is of another. A file past the last one is of no
// meaning: the count tells.
pub(crate) fn manifest(call: Call) -> Option<Manifest> {
    if !call.fits(1, &[BytesOrNull, ZeroOrOne, Created, ManifestCount]) {
        return None;
    }
    let count = call.number(4).min(MOST) as usize;
    if !is_of(call, count) {
        return None;
    }
    let mut files = [blank(); wire::MOST_FILES];
    for i in 0..wire::MOST_FILES {
        files[i] = file(call, BEFORE_FILES + 4 * i);
    }
    Some(Manifest {
        seed: match call.word(1) {
            b"null" => None,
            _ => Some(call.place(1)),
        },
        files,
        count,
        sealed: call.number(2) == 1,
        created: values::created(call.word(3))?,
    })
}
