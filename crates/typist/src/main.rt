// Reads the typed lines of one page, and prints the scan that `pier` and `pantry` read (R15.14).
// The work is done by `typing`; here are only the words of the command, the reading and the
// writing.
#![tactic(auto)]

mod ask;
mod told;
mod words;

use edge::Status;
use words::Task;

// One byte more than is read: so many are enough to know that there are too many (R15.16).
const INPUT: usize = 16_385;

// A write can also fail at the end, when the file is closed.
fn deliver(rt: HostRuntime, bytes: &[u8]) -> Status {
    match edge::deliver(rt, bytes) {
        Ok(()) => Status::Done,
        Err(error) => {
            edge::fail(rt, b"standard output", error);
            Status::Failed
        }
    }
}

fn answer(rt: HostRuntime, text: &[u8]) -> Status {
    let mut out = [0u8; typing::SCAN_ROOM];
    let Ok(len) = typing::scan(text, &mut out) else {
        told::fault(rt, typing::page_fault(text));
        return Status::Failed;
    };
    if out.len() < len {
        return Status::Failed;
    }
    deliver(rt, &out[..len])
}

// The line feed that ends the input is no part of the lines (R15.14).
fn lines(rt: HostRuntime, input: &[u8]) -> Status {
    match input {
        [text @ .., b'\n'] => answer(rt, text),
        _ => answer(rt, input),
    }
}

// Lines that are typed at a terminal, or that come through a pipe or from a file: of a part of
// these nothing is printed. A page that is typed never fills the input.
fn read_page(rt: HostRuntime) -> Status {
    let mut input = [0u8; INPUT];
    let read = if edge::input_is_terminal(rt) {
        ask::all(rt, &mut input)
    } else {
        edge::read_all(rt, &mut input)
    };
    match read {
        Ok(len) if len < INPUT => lines(rt, &input[..len]),
        Ok(_) => {
            told::too_much(rt);
            Status::Failed
        }
        Err(error) => {
            edge::fail(rt, b"standard input", error);
            Status::Failed
        }
    }
}

// A word that is wrong comes before the input (R15.16).
//
// stays (7): the task is what the words said, and each arm has a call of its own.
fn obey(rt: HostRuntime, task: Task) -> Status {
    match task {
        Task::Help => {
            told::help(rt);
            Status::Done
        }
        Task::Version => {
            told::version(rt);
            Status::Done
        }
        Task::Wrong { at } => {
            told::wrong(rt, at);
            Status::Wrong
        }
        Task::Page => read_page(rt),
    }
}

fn main(rt: HostRuntime) {
    let mut word = io::buffer();
    let count = edge::arg_count(rt);
    if edge::asks_status(rt) {
        let status = obey(rt, words::asked(rt, 2, count, &mut word));
        edge::tell_status(u8::from(status));
        return;
    }
    obey(rt, words::asked(rt, 1, count, &mut word));
}
