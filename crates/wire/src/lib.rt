// What every crate of Stiltbasket shares: why a call refuses (R2.2), the house sizes (section 3 of
// docs/RULES.md), and where bytes stand. The definitions that contracts cite are in specs/, their
// laws in proofs/.
#![tactic(auto)]

ghost use Rattle.std.specs.Prelude.{◌≡◌};
ghost use Rattle.wire.specs.Refusal.{number, Placeless};

// ---- the refusals of R2.2, each named here and nowhere else

#[derive(Clone, Copy, Debug, PartialEq, Eq)]
pub enum Refusal {
    // Of texts, frames and outputs.
    BadCharacter,
    BadTextLength,
    CutOrLeftOver,
    BadMagic,
    BadVersion,
    BadFrameType,
    BadVarint,
    BadPlace,
    TooLarge,
    BadChecksum,
    NoRoom,
    // Of collections.
    OtherDocument,
    BadCollection,
    TotalsDisagree,
    PageDisputed,
    PageMissing,
    OtherCiphertext,
    // Of payloads.
    NotCanonical,
    OutOfRange,
    BadPath,
    BadContents,
    // Of typed lines.
    Mistyped,
    // Of the wardens' slips.
    TooFewSlips,
    UnlikeSlips,
    SlipTwice,
    OffTheCurve,
    BadPadding,
}

// The number that R2.2 fixes.
impl From<Refusal> for u8 {
    ghost from_gives = { λ why n. n ≡ number why };

    fn from(why: Refusal) -> u8 {
        match why {
            Refusal::BadCharacter => 1,
            Refusal::BadTextLength => 2,
            Refusal::CutOrLeftOver => 3,
            Refusal::BadMagic => 4,
            Refusal::BadVersion => 5,
            Refusal::BadFrameType => 6,
            Refusal::BadVarint => 7,
            Refusal::BadPlace => 8,
            Refusal::TooLarge => 9,
            Refusal::BadChecksum => 10,
            Refusal::NoRoom => 11,
            Refusal::OtherDocument => 12,
            Refusal::BadCollection => 13,
            Refusal::TotalsDisagree => 14,
            Refusal::PageDisputed => 15,
            Refusal::PageMissing => 16,
            Refusal::OtherCiphertext => 17,
            Refusal::NotCanonical => 18,
            Refusal::OutOfRange => 19,
            Refusal::BadPath => 20,
            Refusal::BadContents => 21,
            Refusal::Mistyped => 23,
            Refusal::TooFewSlips => 26,
            Refusal::UnlikeSlips => 27,
            Refusal::SlipTwice => 28,
            Refusal::OffTheCurve => 29,
            Refusal::BadPadding => 30,
        }
    }
}

// A refusal, and the place that comes with it (R2.3): 0 where it has none.
#[derive(Clone, Copy, Debug, PartialEq, Eq)]
pub struct RefusedAt {
    pub why: Refusal,
    pub place: u8,
}

// The refusal of a rule that names no place (R2.3).
impl From<Refusal> for RefusedAt {
    ghost from_gives = { Placeless };

    fn from(why: Refusal) -> RefusedAt {
        RefusedAt { why, place: 0 }
    }
}

// Where bytes stand in a buffer: in the input, for what was read.
#[derive(Clone, Copy, Debug, PartialEq, Eq)]
pub struct Span {
    pub start: usize,
    pub len: usize,
}

// ---- the sizes of R3.1 to R3.8: specs/Sizes.antt has a line on each.
pub const MOST_PAGES: usize = 96;

pub const MOST_DATA: usize = 480;

pub const MOST_MANIFEST: usize = 16384;

pub const MOST_FILES: usize = 64;

pub const MOST_PATH: usize = 200;

pub const MOST_FILE_SIZE: u64 = 0xFFFFFFFF;

pub const MOST_SHARE: usize = 224;

pub const ID_SIZE: usize = 8;

pub const BLOCK_SIZE: usize = 512;

pub const SUMMED_SIZE: usize = BLOCK_SIZE - 4;

pub const COLLECTION_SIZE: usize = (1 + MOST_PAGES) * BLOCK_SIZE;

pub const MOST_CIPHERTEXT: usize = MOST_PAGES * MOST_DATA;
