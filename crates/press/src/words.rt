// The words of the command, and what they ask for (R15.4, R15.5).
// The most that a page of R7.2 holds.
pub(crate) const MOST_SIZE: u16 = wire::MOST_DATA as u16;

// What is wrong with a word (R15.5).
#[derive(Clone, Copy)]
pub(crate) enum Why {
    Unknown,
    NoPage,
    TooMany,
    NoSize,
    SizeLacks,
    SizeTwice,
    NotAlone,
}

#[derive(Clone, Copy)]
pub(crate) enum Task {
    Scans,
    Typed,
    TypedPage { k: usize },
    Help,
    Version,
}

// The word with this index is wrong: the first that is.
#[derive(Clone, Copy)]
pub(crate) struct Wrong {
    pub(crate) at: usize,
    pub(crate) why: Why,
}

// What the words ask for so far. Where `--size` came last, and waits for its number, there is its
// index.
#[derive(Clone, Copy)]
pub(crate) struct Order {
    pub(crate) task: Task,
    pub(crate) size: Option<u16>,
    waits: Option<usize>,
}

fn page(o: Order, word: &[u8]) -> Result<Order, Why> {
    let k = sheet::number_asked(word, wire::MOST_PAGES as u16).ok_or(Why::NoPage)?;
    Ok(Order {
        task: Task::TypedPage { k: usize::from(k) },
        ..o
    })
}

// The size is one of R7.2; the most that is asked for is one more, which is none.
fn size(o: Order, word: &[u8]) -> Result<Order, Why> {
    match sheet::number_asked(word, MOST_SIZE + 1) {
        Some(n) if 0 < n && n <= MOST_SIZE => Ok(Order {
            size: Some(n),
            waits: None,
            ..o
        }),
        _ => Err(Why::NoSize),
    }
}

fn wait(o: Order, at: usize) -> Result<Order, Why> {
    if o.size.is_some() {
        return Err(Why::SizeTwice);
    }
    Ok(Order {
        waits: Some(at),
        ..o
    })
}

// `typed`, and then the page. No word with a dash in front is a page: it is one that this program
// does not know (R15.5).
fn plain(o: Order, word: &[u8]) -> Result<Order, Why> {
    if word.starts_with(b"-") {
        return Err(Why::Unknown);
    }
    match o.task {
        Task::Scans => {
            if lend::equal(word, b"typed") {
                return Ok(Order {
                    task: Task::Typed,
                    ..o
                });
            }
            Err(Why::Unknown)
        }
        Task::Typed => page(o, word),
        _ => Err(Why::TooMany),
    }
}

fn single(o: Order, alone: bool, task: Task) -> Result<Order, Why> {
    if alone {
        return Ok(Order { task, ..o });
    }
    Err(Why::NotAlone)
}

fn next(o: Order, at: usize, alone: bool, word: &[u8]) -> Result<Order, Why> {
    if o.waits.is_some() {
        return size(o, word);
    }
    if lend::equal(word, b"--size") {
        return wait(o, at);
    }
    if lend::equal(word, b"--help") {
        return single(o, alone, Task::Help);
    }
    if lend::equal(word, b"--version") {
        return single(o, alone, Task::Version);
    }
    plain(o, word)
}

// What all words ask for: those from index first on, of so many. A word that the buffer has no room
// for comes back empty, so a K of too many digits is none.
pub(crate) fn asked(
    rt: HostRuntime,
    first: usize,
    count: usize,
    buffer: &mut [u8],
) -> Result<Order, Wrong> {
    let mut o = Order {
        task: Task::Scans,
        size: None,
        waits: None,
    };
    for at in first..count {
        let alone = at == first && count - at == 1;
        let len = edge::arg(rt, at, buffer).unwrap_or(0);
        o = next(o, at, alone, &buffer[..len]).map_err(|why| Wrong { at, why })?;
    }
    match o.waits {
        Some(at) => Err(Wrong {
            at,
            why: Why::SizeLacks,
        }),
        None => Ok(o),
    }
}
