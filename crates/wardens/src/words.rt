// The words of the command, and what they ask for (R15.17, R15.20).

// A key and a digest have so many bytes (R11.2).
const NAME_SIZE: usize = 32;

// The most slips of a secret (R11.6).
const MOST_SLIPS: u16 = 255;

// What is wrong with a word.
#[derive(Clone, Copy)]
pub(crate) enum Why {
    Unknown,
    NoNumber,
    NoQuorum,
    NoHex,
    Twice,
    Lacks,
    SplitLacks,
    NotAlone,
}

#[derive(Clone, Copy)]
pub(crate) enum Task {
    Recover,
    Typed,
    Split,
    Help,
    Version,
}

// The word with this index is wrong: the first that is.
#[derive(Clone, Copy)]
pub(crate) struct Wrong {
    pub(crate) at: usize,
    pub(crate) why: Why,
}

#[derive(Clone, Copy)]
enum Name {
    Key,
    Document,
}

// `--key` or `--document`, which came last, with this index, and waits for its digits.
#[derive(Clone, Copy)]
struct Waiting {
    at: usize,
    name: Name,
}

// What the words ask for so far; with no task, no word has said yet what to do.
#[derive(Clone, Copy)]
pub(crate) struct Order {
    pub(crate) task: Option<Task>,
    pub(crate) threshold: Option<u16>,
    pub(crate) count: Option<u16>,
    pub(crate) seed: bool,
    key: bool,
    document: bool,
    waits: Option<Waiting>,
}

fn with(o: Order, task: Task) -> Result<Order, Wrong> {
    Ok(Order {
        task: Some(task),
        ..o
    })
}

fn refuse(at: usize, why: Why) -> Result<Order, Wrong> {
    Err(Wrong { at, why })
}

fn is(word: &[u8], said: &[u8]) -> bool {
    word == said
}

fn with_seed(o: Order, at: usize) -> Result<Order, Wrong> {
    if o.seed {
        return refuse(at, Why::Twice);
    }
    Ok(Order { seed: true, ..o })
}

// `--key` or `--document`, whose digits come next.
fn wait(o: Order, at: usize, name: Name) -> Result<Order, Wrong> {
    let waits = Some(Waiting { at, name });
    match name {
        Name::Key if !o.key => Ok(Order {
            key: true,
            waits,
            ..o
        }),
        Name::Document if !o.document => Ok(Order {
            document: true,
            waits,
            ..o
        }),
        _ => refuse(at, Why::Twice),
    }
}

// The digits that were waited for.
fn digits(o: Order, at: usize, word: &[u8], out: &mut [u8]) -> Result<Order, Wrong> {
    match slips::hex(word, NAME_SIZE, out) {
        Ok(_) => Ok(Order { waits: None, ..o }),
        Err(_) => refuse(at, Why::NoHex),
    }
}

// THRESHOLD, and then COUNT. The most that is asked for is one more, which is none.
fn number(o: Order, at: usize, word: &[u8]) -> Result<Order, Wrong> {
    if o.count.is_some() {
        return refuse(at, Why::Unknown);
    }
    match sheet::number_asked(word, MOST_SLIPS + 1) {
        Some(n) if 1 <= n && n <= MOST_SLIPS => match o.threshold {
            None => Ok(Order {
                threshold: Some(n),
                ..o
            }),
            Some(threshold) if n < threshold => refuse(at, Why::NoQuorum),
            Some(_) => Ok(Order {
                count: Some(n),
                ..o
            }),
        },
        _ => refuse(at, Why::NoNumber),
    }
}

// A word behind `split`.
fn part(o: Order, at: usize, word: &[u8]) -> Result<Order, Wrong> {
    if is(word, b"--key") {
        return wait(o, at, Name::Key);
    }
    if is(word, b"--document") {
        return wait(o, at, Name::Document);
    }
    if is(word, b"--signing-seed") {
        return with_seed(o, at);
    }
    number(o, at, word)
}

// The first word.
fn verb(o: Order, at: usize, alone: bool, word: &[u8]) -> Result<Order, Wrong> {
    if is(word, b"split") {
        return with(o, Task::Split);
    }
    if is(word, b"recover") {
        return with(o, Task::Recover);
    }
    if is(word, b"typed") {
        return with(o, Task::Typed);
    }
    if alone && is(word, b"--help") {
        return with(o, Task::Help);
    }
    if alone && is(word, b"--version") {
        return with(o, Task::Version);
    }
    refuse(at, Why::Unknown)
}

fn next(
    o: Order,
    at: usize,
    alone: bool,
    word: &[u8],
    key: &mut [u8],
    document: &mut [u8],
) -> Result<Order, Wrong> {
    match o.waits {
        Some(waiting) => match waiting.name {
            Name::Key => digits(o, at, word, key),
            Name::Document => digits(o, at, word, document),
        },
        None => match o.task {
            None => verb(o, at, alone, word),
            Some(Task::Split) => part(o, at, word),
            Some(_) => refuse(at, Why::NotAlone),
        },
    }
}

// What lacks behind `split`, which is the word at index first.
fn whole(o: Order, first: usize) -> Result<Order, Wrong> {
    if let Some(waiting) = o.waits {
        return refuse(waiting.at, Why::Lacks);
    }
    let said = o.count.is_some() && o.key && o.document;
    if matches!(o.task, Some(Task::Split)) && !said {
        return refuse(first, Why::SplitLacks);
    }
    Ok(o)
}

// What all words ask for: those from index first on, of so many. The key and the digest are put
// where they are asked for. A word that the buffer has no room for comes back empty, which is none.
pub(crate) fn asked(
    rt: HostRuntime,
    first: usize,
    count: usize,
    buffer: &mut [u8],
    key: &mut [u8],
    document: &mut [u8],
) -> Result<Order, Wrong> {
    let mut o = Order {
        task: None,
        threshold: None,
        count: None,
        seed: false,
        key: false,
        document: false,
        waits: None,
    };
    for at in first..count {
        let alone = at == first && count - at == 1;
        let len = edge::arg(rt, at, buffer).unwrap_or(0);
        o = next(o, at, alone, &buffer[..len], key, document)?;
    }
    whole(o, first)
}
