// A line's words, and what they stand for.
//
// The bytes of a word of hex stand in `pool` at half the word's place in the line: two digits make
// a byte, so the bytes of two words never meet, and the pool is half as long as the longest line.

use crate::reading::LINE_MOST;
use crate::reply::UNTOUCHED;
use crate::values;
use wire::Span;

// What a verb asks of an argument.
#[derive(Clone, Copy)]
pub(crate) enum Kind {
    Bytes,
    Number,
    Room,
    BytesOrNull,
    ZeroOrOne,
    Created,
    Double,
    // It may be one beyond what a manifest has on either side (D2.10).
    ManifestCount,
    TimeOrNull,
    Register,
    // As many bytes as a register takes, two digits to a byte (D3.2).
    Loaded,
}

// The longest output that can be lent (D1.6).
pub(crate) const ROOM_MOST: u64 = 65_536;

// What a call is lent, of which ROOM says how much (D1.6).
pub(crate) fn room() -> [u8; ROOM_MOST as usize] {
    [UNTOUCHED; ROOM_MOST as usize]
}

pub(crate) fn pool() -> [u8; LINE_MOST / 2] {
    [0; LINE_MOST / 2]
}

// No line that is understood has as many words.
const MOST: usize = 512;

pub(crate) fn places() -> [Span; MOST] {
    [Span { start: 0, len: 0 }; MOST]
}

// One more word, between two places; none where it is empty, as between two spaces or at either
// end, or one too many (D1.5). Answers how many there are then.
fn add(words: &mut [Span], n: usize, from: usize, to: usize) -> Option<usize> {
    if from < to && n < words.len() {
        words[n] = Span {
            start: from,
            len: to - from,
        };
        return Some(n + 1);
    }
    None
}

// Where the words of the line stand, with one space between each two (D1.1); none where one is
// empty or there are too many (D1.5).
pub(crate) fn split<'a>(line: &[u8], words: &'a mut [Span]) -> Option<&'a [Span]> {
    let mut n = 0;
    let mut from = 0;
    for (i, &b) in line.iter().enumerate() {
        if b == b' ' {
            n = add(words, n, from, i)?;
            from = i + 1;
        }
    }
    n = add(words, n, from, line.len())?;
    words.get(..n)
}

// Puts the bytes of every word into the pool. What a word that is no BYTES puts there is never
// used.
pub(crate) fn decode_all(line: &[u8], words: &[Span], pool: &mut [u8]) {
    for &word in words {
        if let Some(room) = pool.get_mut(word.start / 2..) {
            let _ = digits::hex_read(lend::part(line, word), room);
        }
    }
}

// Whether a word is what is asked for.
fn fits(word: &[u8], kind: Kind) -> bool {
    match kind {
        Kind::Bytes => values::is_bytes(word),
        Kind::Number => values::is_at_most(word, u64::MAX),
        Kind::Room => values::is_at_most(word, ROOM_MOST),
        Kind::BytesOrNull => matches!(word, b"null") || values::is_bytes(word),
        Kind::ZeroOrOne => values::is_at_most(word, 1),
        Kind::Created => values::created(word).is_some(),
        Kind::Double => values::double(word).is_some(),
        Kind::ManifestCount => values::is_at_most(word, 65),
        Kind::TimeOrNull => matches!(word, b"null") || values::signed(word).is_some(),
        Kind::Register => values::register(word).is_some(),
        Kind::Loaded => values::is_bytes(word) && word.len() <= 131_072,
    }
}

// A line of words, of which those of hex have been read.
#[derive(Clone, Copy)]
pub(crate) struct Call<'a> {
    line: &'a [u8],
    words: &'a [Span],
    pool: &'a [u8],
}

impl<'a> Call<'a> {
    pub(crate) fn new(line: &'a [u8], words: &'a [Span], pool: &'a [u8]) -> Call<'a> {
        Call { line, words, pool }
    }

    pub(crate) fn pool(&self) -> &'a [u8] {
        self.pool
    }

    // How many words there are, the verb among them.
    pub(crate) fn count(&self) -> usize {
        self.words.len()
    }

    // Word k; the verb is word 0. No bytes where there is none.
    pub(crate) fn word(&self, k: usize) -> &'a [u8] {
        match self.words.get(k) {
            Some(at) => lend::part(self.line, *at),
            None => b"",
        }
    }

    // Where the bytes of word k stand in the pool.
    pub(crate) fn place(&self, k: usize) -> Span {
        match self.words.get(k) {
            Some(at) => Span {
                start: at.start / 2,
                len: at.len / 2,
            },
            None => Span { start: 0, len: 0 },
        }
    }

    // The bytes of word k, where it is BYTES.
    pub(crate) fn bytes(&self, k: usize) -> &'a [u8] {
        lend::part(self.pool, self.place(k))
    }

    // The number that word k says; 0 where it is none.
    pub(crate) fn number(&self, k: usize) -> u64 {
        values::decimal(self.word(k)).unwrap_or(0)
    }

    // How much the line asks for as its ROOM; 0 where that word is none. It is the first argument
    // of recover, which any number of slips follow (D2.14), and the last of every other verb.
    pub(crate) fn room_asked(&self) -> usize {
        let k = match self.word(0) {
            b"recover" => 1,
            _ => self.words.len().saturating_sub(1),
        };
        let asked = self.number(k);
        if asked > ROOM_MOST {
            return 0;
        }
        asked as usize
    }

    // Whether the arguments from word k on are of these kinds.
    pub(crate) fn fits(&self, k: usize, form: &[Kind]) -> bool {
        let Some(words) = self.words.get(k..) else {
            return false;
        };
        form.len() <= words.len()
            && form
                .iter()
                .zip(words)
                .all(|(&kind, &at)| fits(lend::part(self.line, at), kind))
    }

    // Whether the arguments are of these kinds, and no more: no other line is answered (D1.5).
    pub(crate) fn has(&self, form: &[Kind]) -> bool {
        self.words.len() == form.len() + 1 && self.fits(1, form)
    }
}
