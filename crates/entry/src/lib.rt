// One file of a manifest (R13.5), read at a position of the input and written at a position of lent
// output.
#![tactic(auto)]

pub mod read;
pub mod write;

ghost use Rattle.std.specs.Prelude.{◌≡◌};
ghost use Rattle.entry.specs.File.{integer_by};

use cbor::{Head, NEGATIVE};
use wire::Span;

// The number n, or -1 - n where it is negative (R13.6).
#[derive(Clone, Copy, Debug, PartialEq, Eq)]
pub struct Integer {
    pub negative: bool,
    pub n: u64,
}

// The major type tells the sign (R10.4).
impl From<Head> for Integer {
    ghost from_gives = { λ h i. i ≡ integer_by h };

    fn from(h: Head) -> Integer {
        Integer {
            negative: h.major == NEGATIVE,
            n: h.n,
        }
    }
}

// Its hash and path stand in a pool of bytes. Of a file that was read the pool is the input
// (R13.7).
#[derive(Clone, Copy, Debug, PartialEq, Eq)]
pub struct File {
    pub hash: Span,
    pub path: Span,
    pub size: u64,
    pub mtime: Option<Integer>,
}
