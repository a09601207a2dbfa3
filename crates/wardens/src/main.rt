// The wardens' slips: a secret split among them, and given back from enough of them (R15.17 to
// R15.21). The work is done by `slips`, `split` and `recover`; here are only the words of the
// command, the reading and the writing.
#![tactic(auto)]

mod deal;
mod gather;
mod print;
mod show;
mod told;
mod unite;
mod words;

use deal::Deal;
use edge::Status;
use std::io::Error;
use words::{Order, Task, Wrong};

// One byte more than is read: so many are enough to know that there are too many (R15.18).
const INPUT: usize = 524_289;

const CELLS: usize = gather::MOST * gather::CELL;

// A key, and the digest of a document.
const NAME_SIZE: usize = 32;

// A longer word is none.
const WORD: usize = 4_096;

// What went wrong was told a person already.
#[derive(Clone, Copy)]
pub(crate) struct Failed {}

// What the system answered, or its fault, which is told.
fn good<T: Drop>(rt: HostRuntime, what: &[u8], answer: Result<T, Error>) -> Result<T, Failed> {
    match answer {
        Ok(value) => Ok(value),
        Err(error) => {
            edge::fail(rt, what, error);
            Err(Failed {})
        }
    }
}

pub(crate) fn wrote(rt: HostRuntime, bytes: &[u8]) -> Result<(), Failed> {
    good(rt, b"standard output", edge::print(rt, bytes))
}

// A write can also fail at the end, when the system hands the bytes on.
pub(crate) fn closed(rt: HostRuntime) -> Result<(), Failed> {
    good(rt, b"standard output", edge::finish_output(rt))
}

pub(crate) fn deliver(rt: HostRuntime, bytes: &[u8]) -> Result<(), Failed> {
    wrote(rt, bytes)?;
    closed(rt)
}

// Slips that were read, for `recover` or `typed`.
fn answer(rt: HostRuntime, typed: bool, input: &[u8], cells: &mut [u8]) -> Result<(), Failed> {
    let mut slips = gather::none();
    gather::all(rt, input, cells, &mut slips)?;
    if typed {
        return show::typed(rt, &slips, cells);
    }
    unite::recover(rt, &slips, input, cells)
}

// A call gives the array, since one of this length that is written out where it is lent as a slice
// is too long for the prover.
fn blank() -> [u8; INPUT] {
    [0; INPUT]
}

fn read_slips(rt: HostRuntime, typed: bool) -> Result<(), Failed> {
    let mut input = blank();
    let mut cells = [0u8; CELLS];
    told::waiting(rt, true);
    let len = good(rt, b"standard input", edge::read_all(rt, &mut input))?;
    if input.len() <= len {
        told::too_much(rt);
        return Err(Failed {});
    }
    answer(rt, typed, &input[..len], &mut cells)
}

// The status of what was asked for and done, or could not be.
fn ended(done: Result<(), Failed>) -> Status {
    match done {
        Ok(()) => Status::Done,
        Err(_) => Status::Failed,
    }
}

fn split(rt: HostRuntime, o: Order, key: &[u8], document: &[u8]) -> Result<(), Failed> {
    let deal = Deal {
        threshold: u64::from(o.threshold.unwrap_or(0)),
        count: u64::from(o.count.unwrap_or(0)),
        seed: o.seed,
        key,
        document,
    };
    deal::run(rt, deal)
}

// A word that is wrong comes before the input (R15.17).
fn obey(rt: HostRuntime, asked: Result<Order, Wrong>, key: &[u8], document: &[u8]) -> Status {
    let o = match asked {
        Ok(o) => o,
        Err(wrong) => {
            told::wrong(rt, wrong.at, wrong.why);
            return Status::Wrong;
        }
    };
    match o.task {
        None => {
            told::nothing(rt);
            Status::Wrong
        }
        Some(Task::Help) => {
            told::help(rt);
            Status::Done
        }
        Some(Task::Version) => {
            told::version(rt);
            Status::Done
        }
        Some(Task::Recover) => ended(read_slips(rt, false)),
        Some(Task::Typed) => ended(read_slips(rt, true)),
        Some(Task::Split) => ended(split(rt, o, key, document)),
    }
}

fn main(rt: HostRuntime) {
    let mut key = [0u8; NAME_SIZE];
    let mut document = [0u8; NAME_SIZE];
    let mut word = [0u8; WORD];
    let count = edge::arg_count(rt);
    if edge::asks_status(rt) {
        let o = words::asked(rt, 2, count, &mut word, &mut key, &mut document);
        edge::tell_status(u8::from(obey(rt, o, &key, &document)));
        return;
    }
    let o = words::asked(rt, 1, count, &mut word, &mut key, &mut document);
    obey(rt, o, &key, &document);
}
