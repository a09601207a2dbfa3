// The call desk: each line of standard input names a call of a library, and one line of standard
// output has its answer. docs/DESK.md is the protocol. The desk judges nothing: it prints the
// answers of the libraries.
//
// A verb is an arm: in `readers` where the call only reads, in `writers`, `listings` or `secrets`
// where it writes into the room, in `registers` where it is about collections. Its name and the
// kinds of its arguments stand in front of the call and of what is printed of the answer.
//
// What lasts from line to line are values of `main`: the input, the registers, and the output that
// is not written out yet. A line has its own: the places of its words, the pool for the bytes that
// they say in hex, and the room.
#![tactic(auto)]

ghost use Rattle.std.specs.Prelude.{◌<◌, length, IfSome};

mod listings;
mod readers;
mod reading;
mod registers;
mod reply;
mod said;
mod secrets;
mod values;
mod words;
mod writers;

use reading::{Input, LINE_MOST};
use registers::{Register, Registers};
use reply::Output;
use words::Call;

// The reply to a line of these words; none where it is of no known form (D1.5). The room is cut to
// what the line asks for here, once for every verb (D1.6).
fn answer_call(call: Call, registers: &mut Registers, out: &mut Output) {
    if readers::call(call, out) {
        return;
    }
    let mut room = words::room();
    let Some(room) = room.get_mut(..call.room_asked()) else {
        return;
    };
    let _known = registers::call(call, registers, room, out)
        || writers::call(call, room, out)
        || listings::call(call, room, out)
        || secrets::call(call, room, out);
}

fn answer(line: &[u8], registers: &mut Registers, out: &mut Output) {
    let mut places = words::places();
    let Some(places) = words::split(line, &mut places) else {
        return;
    };
    let mut pool = words::pool();
    words::decode_all(line, places, &mut pool);
    answer_call(Call::new(line, places, &pool), registers, out);
}

// What is printed for a line: `?` for one that is too long, whatever it begins with (D1.5), nothing
// for an empty line and for a comment (D1.2).
fn respond(rt: HostRuntime, line: &[u8], registers: &mut Registers, out: &mut Output) {
    out.make_space(rt);
    let start = out.len();
    if line.len() <= LINE_MOST {
        if matches!(line, [] | [b'#', ..]) {
            return;
        }
        answer(line, registers, out);
    }
    out.end_line(start);
}

// Where the first line of s ends, of which the first bytes, so many, have no line feed.
fn line_end(s: &[u8], held: usize) -> Option<usize>
    ensures { IfSome result (λ n. n < length s.now) }
{
    let rest = s.get(held..)?;
    let n = rest.iter().position(|&b| b == b'\n')?;
    Some(held + n)
}

// Answers each whole line of the input, of which the first `held` bytes have no line feed (D1.1),
// and answers how many bytes are left.
fn feed(
    rt: HostRuntime,
    input: &[u8],
    held: usize,
    registers: &mut Registers,
    out: &mut Output,
) -> usize {
    let mut held = held;
    let mut rest = input;
    while let Some(n) = line_end(rest, held) {
        let (line, behind) = rest.split_at(n);
        respond(rt, line, registers, out);
        rest = &behind[1..];
        held = 0;
    }
    rest.len()
}

// Reads once and answers each line that has ended, before it reads again. False at the end of the
// input, where the last line may lack its line feed (D1.1), and where nothing can be written.
fn turn(rt: HostRuntime, input: &mut Input, registers: &mut Registers, out: &mut Output) -> bool {
    let held = input.len();
    if !input.read_more(rt) {
        respond(rt, input.bytes(), registers, out);
        out.write(rt);
        return false;
    }
    let left = feed(rt, input.bytes(), held, registers, out);
    input.keep(left);
    out.write(rt)
}

// The registers hold no bytes at first (D3.1).
//
// A proved loop has to end, and nothing says that the input does: this one has more turns than any
// run uses up.
fn main(rt: HostRuntime) {
    let mut input = Input::new();
    let mut registers = [Register::new(); registers::COUNT];
    let mut out = Output::new();
    for _ in 0..u64::MAX {
        if !turn(rt, &mut input, &mut registers, &mut out) {
            return;
        }
    }
}
