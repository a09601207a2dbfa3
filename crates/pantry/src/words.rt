// The words of the command, and what they ask for (R15.7, R15.11).
use crate::file;
use crate::file::PATH_MAX;

// What is wrong with a word.
#[derive(Clone, Copy)]
pub(crate) enum Why {
    Unknown,
    NoName,
    NewName,
    Second,
    Lacks,
    Twice,
    Same,
    NotAlone,
}

// A file is named by the index of its word.
#[derive(Clone, Copy)]
pub(crate) enum Asked {
    Run {
        kept: Option<usize>,
        to: Option<usize>,
    },
    Help,
    Version,
    // The word with this index is wrong: the first that is.
    Wrong {
        at: usize,
        why: Why,
    },
}

// What the words ask for so far. Where `--to` came last, and waits for its name, there is its
// index.
#[derive(Clone, Copy)]
struct Order {
    kept: Option<usize>,
    to: Option<usize>,
    waits: Option<usize>,
}

fn wrong(at: usize, why: Why) -> Result<Order, Asked> {
    Err(Asked::Wrong { at, why })
}

fn single(at: usize, alone: bool, asked: Asked) -> Result<Order, Asked> {
    if alone {
        return Err(asked);
    }
    wrong(at, Why::NotAlone)
}

// `--to` waits for the name behind it.
fn wait(o: Order, at: usize) -> Result<Order, Asked> {
    if o.to.is_some() || o.waits.is_some() {
        return wrong(at, Why::Twice);
    }
    Ok(Order {
        waits: Some(at),
        ..o
    })
}

fn name(o: Order, at: usize) -> Result<Order, Asked> {
    if o.waits.is_some() {
        return Ok(Order {
            to: Some(at),
            waits: None,
            ..o
        });
    }
    if o.kept.is_some() {
        return wrong(at, Why::Second);
    }
    Ok(Order {
        kept: Some(at),
        ..o
    })
}

// What one more word makes of an order, or what the words ask for where it is the last that counts.
// No word with a dash in front is a file (R15.11).
fn next(o: Order, at: usize, alone: bool, word: &[u8]) -> Result<Order, Asked> {
    if PATH_MAX <= word.len() {
        return wrong(at, Why::NoName);
    }
    match word {
        [] => wrong(at, Why::NoName),
        b"--help" => single(at, alone, Asked::Help),
        b"--version" => single(at, alone, Asked::Version),
        b"--to" => wait(o, at),
        [b'-', ..] => wrong(at, Why::Unknown),
        _ if file::is_new(word) => wrong(at, Why::NewName),
        _ => name(o, at),
    }
}

// Where the words named KEPT and FILE, and both are one name, the index of FILE.
fn one_file(rt: HostRuntime, o: Order, word: &mut [u8]) -> Option<usize> {
    let kept = o.kept?;
    let to = o.to?;
    let mut other = [0u8; PATH_MAX];
    let one = edge::arg(rt, kept, word).unwrap_or(0);
    let two = edge::arg(rt, to, &mut other).unwrap_or(0);
    if lend::equal(&word[..one], &other[..two]) {
        return Some(to);
    }
    None
}

// What the words from index first on order, of so many; or what they ask for where that is no
// order. One that the buffer has no room for comes back empty, and is no name.
fn ordered(rt: HostRuntime, first: usize, count: usize, word: &mut [u8]) -> Result<Order, Asked> {
    let mut o = Order {
        kept: None,
        to: None,
        waits: None,
    };
    for at in first..count {
        let alone = at == first && count - at == 1;
        let len = edge::arg(rt, at, word).unwrap_or(0);
        o = next(o, at, alone, &word[..len])?;
        if let Some(at) = one_file(rt, o, word) {
            return wrong(at, Why::Same);
        }
    }
    match o.waits {
        Some(at) => wrong(at, Why::Lacks),
        None => Ok(o),
    }
}

// What all words ask for.
pub(crate) fn parse(rt: HostRuntime, first: usize, count: usize, word: &mut [u8]) -> Asked {
    match ordered(rt, first, count, word) {
        Ok(o) => Asked::Run {
            kept: o.kept,
            to: o.to,
        },
        Err(asked) => asked,
    }
}
