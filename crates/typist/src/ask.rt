// A page that is typed at a terminal: line after line is asked for, judged at once, and asked for
// again where it is wrong (R15.15).
use crate::told;
use std::io::{Error, ErrorKind};
use std::ops::ControlFlow;
use typing::Fault;

// Room for a line: more bytes than these are told as too long.
const LINE_ROOM: usize = 512;

// What was typed: how many bytes a line has, of which the first stand in its buffer, and whether it
// ended with the input.
#[derive(Clone, Copy)]
struct Typed {
    len: usize,
    end: bool,
}

// The page so far: how many lines it has, and how many bytes; where the last line began, and how
// many characters it has.
#[derive(Clone, Copy)]
struct Page {
    n: u8,
    len: usize,
    start: usize,
    count: usize,
}

// Reads a line, byte by byte: what is behind it stays for the next. Bytes that there is no room for
// count as one. The loop has more turns than any run uses up, since a proved loop has to end.
fn read_line(rt: HostRuntime, line: &mut [u8]) -> Result<Typed, Error> {
    let mut one = [0u8; 1];
    let mut len = 0;
    for _ in 0..u64::MAX {
        let got = edge::read(rt, &mut one)?;
        if got < 1 {
            return Ok(Typed { len, end: true });
        }
        if one[0] == b'\n' {
            return Ok(Typed { len, end: false });
        }
        lend::put(line, len, one[0]);
        if len <= LINE_ROOM {
            len += 1;
        }
    }
    Err(endless())
}

// What is told of an input that has more bytes than there are turns.
fn endless() -> Error {
    Error::from(ErrorKind::Other)
}

// The page with one more line, which is right, and its line feed. There is room for 20.
fn with_line(p: Page, line: &[u8], page: &mut [u8]) -> Page {
    if typed::MOST_LINES <= p.n || page.len() < p.len || page.len() - p.len <= line.len() {
        return p;
    }
    lend::copy(page, p.len, line);
    let feed = p.len + line.len();
    lend::put(page, feed, b'\n');
    Page {
        n: p.n + 1,
        len: feed + 1,
        start: p.len,
        count: typed::counted(line),
    }
}

// Behind a line that is shorter than a full one no other can follow: the page without it, and what
// was typed behind it is dropped too.
fn without_last(rt: HostRuntime, p: Page) -> Page {
    if p.n < 1 {
        return p;
    }
    told::fault(
        rt,
        Fault::Count {
            line: p.n,
            count: p.count,
            last: false,
        },
    );
    Page {
        n: p.n - 1,
        len: p.start,
        start: p.start,
        count: typed::FULL_LINE,
    }
}

// The page after a line that is not empty, which is told where it is wrong.
fn taken(rt: HostRuntime, p: Page, line: &[u8], page: &mut [u8]) -> Page {
    if p.count < typed::FULL_LINE {
        return without_last(rt, p);
    }
    if typed::MOST_LINES <= p.n {
        return p;
    }
    let fault = typing::line_fault(line, p.n + 1);
    match fault {
        Fault::Good => with_line(p, line, page),
        _ => {
            told::fault(rt, fault);
            p
        }
    }
}

fn asks(rt: HostRuntime, n: u8) {
    if n < typed::MOST_LINES {
        told::prompt(rt, n + 1);
    }
}

fn long(rt: HostRuntime, n: u8) {
    if n < typed::MOST_LINES {
        told::too_long(rt, n + 1);
    }
}

// The page after a line of so many bytes.
fn judged(rt: HostRuntime, p: Page, len: usize, line: &[u8], page: &mut [u8]) -> Page {
    if line.len() < len {
        long(rt, p.n);
        return p;
    }
    taken(rt, p, &line[..len], page)
}

// Asks for a line, and takes it. An empty one ends the page, and so does the end of the input: then
// it breaks off with all of the page.
fn turn(
    rt: HostRuntime,
    p: Page,
    line: &mut [u8],
    page: &mut [u8],
) -> Result<ControlFlow<Page, Page>, Error> {
    asks(rt, p.n);
    let typed = read_line(rt, line)?;
    if typed.len < 1 {
        return Ok(ControlFlow::Break(p));
    }
    let next = judged(rt, p, typed.len, line, page);
    if typed.end {
        return Ok(ControlFlow::Break(next));
    }
    Ok(ControlFlow::Continue(next))
}

// Asks for lines until the page has ended: 20 are all that it can have. Answers how many bytes of
// the page were typed.
fn lines(rt: HostRuntime, line: &mut [u8], page: &mut [u8]) -> Result<usize, Error> {
    let mut p = Page {
        n: 0,
        len: 0,
        start: 0,
        count: typed::FULL_LINE,
    };
    for _ in 0..u64::MAX {
        if typed::MOST_LINES <= p.n {
            return Ok(p.len);
        }
        match turn(rt, p, line, page)? {
            ControlFlow::Continue(next) => p = next,
            ControlFlow::Break(last) => return Ok(last.len),
        }
    }
    Err(endless())
}

pub(crate) fn all(rt: HostRuntime, page: &mut [u8]) -> Result<usize, Error> {
    told::begin(rt);
    let mut line = [0u8; LINE_ROOM];
    lines(rt, &mut line, page)
}
