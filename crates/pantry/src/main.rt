// The pantry: it reads the document id and then scans, a line each, from standard input, and gives
// the ciphertext out once every page is there (R15.6). People are told on standard error.
// With the name of a file it keeps the collection there between runs, and with `--to` it puts the
// ciphertext in a file's place (R15.7). The work is done by `scan`, `notes`, `told` and
// `pantry_work`; here are only the words of the command, the reading and the writing.
#![tactic(auto)]

mod file;
mod said;
mod words;

use edge::Status;
use file::PATH_MAX;
use scan::session;
use scan::session::Session;
use std::io::{Error, ErrorKind};
use wire::Refusal;
use words::Asked;

// How much one read asks for.
const CHUNK: usize = 65_536;

// The session at the end of the input; none where the input could not be read to its end (R15.8).
//
// A proved loop has to end, and nothing says that the input does: this one has more turns than any
// run uses up.
fn collect(
    rt: HostRuntime,
    input: &mut [u8],
    line: &mut [u8],
    c: &mut [u8],
    notes: &mut [u64],
) -> Result<Session, Error> {
    let mut s = Session {
        phase: session::WAITING,
        len: 0,
    };
    for _ in 0..u64::MAX {
        match edge::read(rt, input)? {
            0 => return Ok(s),
            n => s = notes::feed(&input[..n], s, line, c, notes),
        }
    }
    Err(Error::from(ErrorKind::TimedOut))
}

// Reads all of the input, or says that it could not: of a part nothing is given out and nothing
// kept (R15.8).
fn scanned(rt: HostRuntime, c: &mut [u8], notes: &mut [u64]) -> Option<Session> {
    let mut input = [0u8; CHUNK];
    let mut line = [0u8; session::LINE_BUFFER];
    match collect(rt, &mut input, &mut line, c, notes) {
        Ok(session) => Some(notes::close(session, &line, c, notes)),
        Err(error) => {
            edge::fail(rt, b"standard input", error);
            None
        }
    }
}

fn print(rt: HostRuntime, bytes: &[u8]) -> Status {
    match edge::deliver(rt, bytes) {
        Ok(()) => Status::Done,
        Err(error) => {
            edge::fail(rt, b"standard output", error);
            Status::Failed
        }
    }
}

fn deliver(rt: HostRuntime, bytes: &[u8], to: Option<usize>, launched: bool) -> Status {
    let Some(to) = to else {
        return print(rt, bytes);
    };
    let mut name = [0u8; PATH_MAX];
    let len = edge::arg(rt, to, &mut name).unwrap_or(0);
    if file::put(rt, &name[..len], launched, bytes) {
        return Status::Done;
    }
    said::advice(rt, Err(Refusal::NoRoom));
    Status::Failed
}

// What stands in the collection is told in any case, and that it is complete only once the
// ciphertext is where it belongs.
fn give(
    rt: HostRuntime,
    s: Session,
    c: &[u8],
    notes: &[u64],
    to: Option<usize>,
    launched: bool,
) -> Status {
    said::standing(rt, c, notes);
    let mut out = [0u8; wire::MOST_CIPHERTEXT];
    match pantry_work::answer(s, c, &mut out) {
        Ok(len) => {
            let Some(ciphertext) = out.get(..len) else {
                return Status::Failed;
            };
            let status = deliver(rt, ciphertext, to, launched);
            if status == Status::Done {
                said::advice(rt, Ok(()));
            }
            status
        }
        Err(refused) => {
            said::advice(rt, Err(refused.why));
            Status::Failed
        }
    }
}

// The file is written before anything is given out: a ciphertext that came out is kept (R15.7).
fn keep(
    rt: HostRuntime,
    s: Session,
    c: &mut [u8],
    notes: &[u64],
    kept: usize,
    to: Option<usize>,
    launched: bool,
) -> Status {
    let mut name = [0u8; PATH_MAX];
    let len = edge::arg(rt, kept, &mut name).unwrap_or(0);
    match file::keep(rt, &name[..len], launched, s, c) {
        Ok(()) => give(rt, s, c, notes, to, launched),
        // Of two documents the file itself has told, by their ids.
        Err(Refusal::OtherDocument) => Status::Failed,
        Err(why) => {
            said::advice(rt, Err(why));
            Status::Failed
        }
    }
}

// Where the first line was no document id, no file is looked at.
fn run(rt: HostRuntime, kept: Option<usize>, to: Option<usize>, launched: bool) -> Status {
    said::waiting(rt);
    let mut c = [0u8; wire::COLLECTION_SIZE];
    let mut notes = [0u64; notes::SIZE];
    let Some(s) = scanned(rt, &mut c, &mut notes) else {
        return Status::Failed;
    };
    if s.phase != session::COLLECTING {
        said::first_line(rt, notes[notes::FAULT]);
        return Status::Failed;
    }
    match kept {
        None => give(rt, s, &c, &notes, to, launched),
        Some(kept) => keep(rt, s, &mut c, &notes, kept, to, launched),
    }
}

// The status is told where it is asked for, with `--status-3` (R15.12).
fn obey(rt: HostRuntime, asked: Asked, launched: bool) -> Status {
    match asked {
        Asked::Run { kept, to } => run(rt, kept, to, launched),
        Asked::Help => {
            said::help(rt);
            Status::Done
        }
        Asked::Version => {
            said::version(rt);
            Status::Done
        }
        Asked::Wrong { at, why } => {
            said::wrong(rt, at, why);
            Status::Wrong
        }
    }
}

fn main(rt: HostRuntime) {
    let mut word = [0u8; PATH_MAX];
    let count = edge::arg_count(rt);
    if edge::asks_status(rt) {
        let asked = words::parse(rt, 2, count, &mut word);
        edge::tell_status(u8::from(obey(rt, asked, true)));
        return;
    }
    let asked = words::parse(rt, 1, count, &mut word);
    obey(rt, asked, false);
}
