// Prints a document: standard input is the ciphertext, standard output what `pier` reads; or, asked
// with `typed`, the lines to be typed of all pages or of one (R15.4). The work is done by `sheet`;
// here are only the words of the command, the reading and the writing.
#![tactic(auto)]

ghost use Rattle.std.specs.Prelude.{◌≤◌};

mod told;
mod words;

use edge::Status;
use wire::Refusal;
use words::{Order, Task, Wrong};

// One byte more than can be printed: so many are enough to know that there are too many (R7.4).
const INPUT: usize = 46_081;

// How many bytes show that pages of this size are too many (R15.8), of so many that there is room
// for.
fn enough(size: u16, room: usize) -> usize
    ensures { result ≤ room }
{
    (usize::from(size) * wire::MOST_PAGES + 1).min(room)
}

// stays (7): here and in `obey` the task is what the words said, and each arm has a call of its
// own.
fn made(task: Task, c: &[u8], size: usize, out: &mut [u8]) -> Result<usize, Refusal> {
    match task {
        Task::Typed => sheet::typed(c, size, out),
        Task::TypedPage { k } => sheet::typed_page(c, size, k, out),
        _ => sheet::scans(c, size, out),
    }
}

// How large the input is where it is a file, and else 0.
fn whole_input(rt: HostRuntime) -> u64 {
    edge::input_size(rt)
}

// The line of the refusal (R15.5).
fn refuse(rt: HostRuntime, why: Refusal, size: u16, out: &mut [u8]) {
    let given = if why == Refusal::TooLarge {
        whole_input(rt)
    } else {
        0
    };
    let Ok(len) = sheet::refusal(u8::from(why), size, given, out) else {
        return;
    };
    if len <= out.len() {
        told::say(rt, &out[0..len]);
    }
}

// A write can also fail at the end, when the file is closed.
fn deliver(rt: HostRuntime, bytes: &[u8]) -> Status {
    if let Err(error) = edge::print(rt, bytes) {
        edge::fail(rt, b"standard output", error);
        return Status::Failed;
    }
    if let Err(error) = edge::finish_output(rt) {
        edge::fail(rt, b"standard output", error);
        return Status::Failed;
    }
    Status::Done
}

fn answer(rt: HostRuntime, task: Task, c: &[u8], size: u16) -> Status {
    let mut out = [0u8; sheet::ROOM];
    match made(task, c, usize::from(size), &mut out) {
        Ok(len) => {
            if out.len() < len {
                return Status::Failed;
            }
            deliver(rt, &out[0..len])
        }
        Err(why) => {
            refuse(rt, why, size, &mut out);
            Status::Failed
        }
    }
}

fn print(rt: HostRuntime, task: Task, size: u16, input: &mut [u8]) -> Status {
    told::waiting(rt);
    let most = enough(size, input.len());
    match edge::read_all(rt, &mut input[0..most]) {
        Ok(len) => {
            if input.len() < len {
                return Status::Failed;
            }
            answer(rt, task, &input[0..len], size)
        }
        // A document of which a part was not read is not printed (R15.8).
        Err(error) => {
            edge::fail(rt, b"standard input", error);
            Status::Failed
        }
    }
}

// A word that is wrong comes before the input (R15.5).
fn obey(rt: HostRuntime, asked: Result<Order, Wrong>) -> Status {
    let order = match asked {
        Ok(order) => order,
        Err(wrong) => {
            told::wrong(rt, wrong);
            return Status::Wrong;
        }
    };
    match order.task {
        Task::Help => {
            told::help(rt);
            Status::Done
        }
        Task::Version => {
            told::version(rt);
            Status::Done
        }
        task => {
            let mut input = [0u8; INPUT];
            print(rt, task, order.size.unwrap_or(words::MOST_SIZE), &mut input)
        }
    }
}

fn main(rt: HostRuntime) {
    let mut word = io::buffer();
    let count = edge::arg_count(rt);
    if edge::asks_status(rt) {
        edge::tell_status(u8::from(obey(rt, words::asked(rt, 2, count, &mut word))));
        return;
    }
    obey(rt, words::asked(rt, 1, count, &mut word));
}
