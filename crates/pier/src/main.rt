// `pier` reads the document id and then scans, a line each, from standard input, and prints one
// status line (R15.1). The work is done by `scan`; here are only the reading and the writing.
#![tactic(auto)]

use scan::session;
use scan::session::Session;
use std::io::{Error, ErrorKind};

// How much one read asks for.
const CHUNK: usize = 65_536;

// The session at the end of the input; none where the input could not be read to its end (R15.8).
//
// A proved loop has to end, and nothing says that the input does: this one has more turns than any
// run uses up.
fn collect(
    rt: HostRuntime,
    input: &mut [u8],
    line: &mut [u8],
    c: &mut [u8],
) -> Result<Session, Error> {
    let mut s = Session {
        phase: session::WAITING,
        len: 0,
    };
    for _ in 0..u64::MAX {
        match edge::read(rt, input)? {
            0 => return Ok(s),
            n => s = session::feed(&input[..n], s, line, c),
        }
    }
    Err(Error::from(ErrorKind::Other))
}

// Reads all of the input, or says that it could not: of a part nothing is printed (R15.8).
fn scanned(rt: HostRuntime, c: &mut [u8]) -> Result<Session, Error> {
    let mut input = [0u8; CHUNK];
    let mut line = [0u8; session::LINE_BUFFER];
    match collect(rt, &mut input, &mut line, c) {
        Ok(session) => Ok(session::close(session, &line, c)),
        Err(error) => {
            edge::fail(rt, b"standard input", error);
            Err(error)
        }
    }
}

fn print(rt: HostRuntime, s: Session, c: &[u8]) {
    let mut out = [0u8; 64];
    if let Ok(len) = session::report(s, c, &mut out)
        && let Some(status) = out.get(..len)
    {
        let _written = edge::print(rt, status);
    }
}

fn main(rt: HostRuntime) {
    let mut c = [0u8; wire::COLLECTION_SIZE];
    if let Ok(session) = scanned(rt, &mut c) {
        print(rt, session, &c);
    }
}
