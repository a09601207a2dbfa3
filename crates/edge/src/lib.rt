// What the six programs ask of the system: the words of the command, standard input, standard
// output and standard error, and the descriptor that a status is told on. All of it is std's; here
// it has the form that the programs use, in lent buffers and without the heap.
//
// A call that a signal interrupts before it moves a byte counts as one that failed.
#![tactic(auto)]

ghost use Rattle.edge.specs.Status.{digit};
ghost use Rattle.std.specs.Prelude.{◌≡◌};
ghost use Rattle.std.specs.Io.{ReadsAtMost, WritesAtMost};

mod words;

use std::env::{Env, FillError};
use std::fs;
use std::fs::File;
use std::io::{Error, ErrorKind, IsTerminal, Print, Read, Seek, SeekFrom};
use std::os::fd::AsFd;
use std::os::unix::fs::FileTypeExt;
use words::Words;

// Where a status is told, asked for with `--status-3`.
const STATUS_FILENO: i32 = 3;

// Under these names the system gives what stands open as standard input and as standard output.
const INPUT_PATH: &str = "/proc/self/fd/0";

const OUTPUT_PATH: &str = "/proc/self/fd/1";

// ---- the words of the command

// The word with this index, at the start of the buffer, and how many bytes it has. Of one that has
// no room only the first bytes are there.
pub fn arg(rt: HostRuntime, i: usize, buffer: &mut [u8]) -> Result<usize, FillError>
    ensures { WritesAtMost result buffer.new }
{
    rt.arg(i, buffer)
}

// Whether there is a word with this index.
fn is_given(rt: HostRuntime, i: usize) -> bool {
    let mut first = [0u8; 1];
    !matches!(rt.arg(i, &mut first), Err(FillError::NotPresent))
}

// How many words the program was started with, its own name among them.
pub fn arg_count(rt: HostRuntime) -> usize {
    (0..usize::MAX)
        .find(|&i| !is_given(rt, i))
        .unwrap_or(usize::MAX)
}

// Whether the first word asks for a status on descriptor 3.
pub fn asks_status(rt: HostRuntime) -> bool {
    let mut word = [0u8; 16];
    match rt.arg(1, &mut word) {
        Ok(len) => word[..len] == b"--status-3"[..],
        Err(_) => false,
    }
}

// ---- standard input

// Reads once, to the start of the buffer, and answers how many bytes came: none at the end of the
// input.
pub fn read(rt: HostRuntime, buffer: &mut [u8]) -> Result<usize, Error>
    ensures { ReadsAtMost result buffer.new }
{
    rt.stdin().read(buffer)
}

// Reads to the end, or until the buffer is full, and answers how many bytes came: all of them where
// the buffer is not full.
//
// stays (3): how far a turn comes, the read says, so it is no `for`.
pub fn fill<R: Read>(from: &mut R, buffer: &mut [u8]) -> Result<usize, Error>
    ensures { ReadsAtMost result buffer.new }
{
    let mut len = 0;
    while len < buffer.len() {
        match from.read(&mut buffer[len..])? {
            0 => return Ok(len),
            n => len += n,
        }
    }
    Ok(len)
}

// Reads standard input so.
pub fn read_all(rt: HostRuntime, buffer: &mut [u8]) -> Result<usize, Error>
    ensures { ReadsAtMost result buffer.new }
{
    fill(&mut rt.stdin(), buffer)
}

// Whether a person types the input.
pub fn input_is_terminal(rt: HostRuntime) -> bool {
    rt.stdin().is_terminal()
}

// How large standard input is where it is a file or a disk, and else 0.
pub fn input_size(rt: HostRuntime) -> u64 {
    found_size(rt).unwrap_or(0)
}

fn found_size(rt: HostRuntime) -> Result<u64, Error> {
    let found = fs::metadata(&rt, INPUT_PATH)?;
    if found.is_file() {
        return Ok(found.len());
    }
    if found.file_type().is_block_device() {
        return disk_size(rt);
    }
    Ok(0)
}

// A disk has no size of its own in its metadata: it is where its end is.
fn disk_size(rt: HostRuntime) -> Result<u64, Error> {
    File::open(&rt, INPUT_PATH)?.seek(SeekFrom::End(0))
}

// ---- standard output

// Writes all of the bytes, or stops at the first write that takes nothing or fails, when some of
// them may have been written. Of no bytes it makes no call. (The `write_all` of std tries a write
// that a signal interrupted again.)
fn write<P: Print>(to: &P, bytes: &[u8]) -> Result<(), Error> {
    let mut rest = bytes;
    while !rest.is_empty() {
        match to.write_some(rest)? {
            0 => return Err(Error::from(ErrorKind::WriteZero)),
            n => rest = &rest[n..],
        }
    }
    Ok(())
}

// Writes all of the bytes, as `write` does.
pub fn print(rt: HostRuntime, bytes: &[u8]) -> Result<(), Error> {
    write(&rt.stdout(), bytes)
}

// Whether what was printed has reached its file. A write can also fail late, when the system hands
// the bytes on, and the one call that tells a program so is the last on its descriptor: `close`,
// whose answer std does not give. So it is asked in two steps: whether standard output is open at
// all, by another descriptor of it, and where it is a file, by a sync of that file, which tells the
// same faults and more. Where the file cannot be opened again, as one that only its maker may
// write, nothing can be asked, and it counts as written. A pipe, a terminal or a device takes no
// sync.
pub fn finish_output(rt: HostRuntime) -> Result<(), Error> {
    let out = rt.stdout();
    out.as_fd().try_clone_to_owned()?;
    match fs::metadata(&rt, OUTPUT_PATH) {
        Ok(found) if found.is_file() => sync(rt),
        _ => Ok(()),
    }
}

// EINVAL is a file of a kind that takes no sync.
fn sync(rt: HostRuntime) -> Result<(), Error> {
    let Ok(file) = File::options().write(true).open(&rt, OUTPUT_PATH) else {
        return Ok(());
    };
    match file.sync_all() {
        Err(error) if error.kind() == ErrorKind::InvalidInput => Ok(()),
        synced => synced,
    }
}

// Writes all of the bytes, and asks whether they reached their file.
pub fn deliver(rt: HostRuntime, bytes: &[u8]) -> Result<(), Error> {
    print(rt, bytes)?;
    finish_output(rt)
}

// ---- standard error

// Tells a person. Where that fails there is nobody to tell it to.
pub fn tell(rt: HostRuntime, bytes: &[u8]) {
    let _told = write(&rt.stderr(), bytes);
}

// Tells the word with this index, as `lend::plain` leaves it; of one that there is no room for the
// first bytes, and three dots.
pub fn tell_word(rt: HostRuntime, i: usize, word: &mut [u8]) {
    let given = arg(rt, i, word);
    lend::plain(word);
    match given {
        Ok(len) => tell(rt, &word[..len]),
        Err(FillError::TooLong) => {
            tell(rt, word);
            tell(rt, b"...");
        }
        Err(FillError::NotPresent) => {}
    }
}

// Tells a number, in decimal digits.
pub fn tell_decimal(rt: HostRuntime, n: u64) {
    let mut text = [0u8; 20];
    let len = io::decimal(n, &mut text);
    tell(rt, &text[..len]);
}

// Tells a fault on a line: what failed, a colon and the system's words for the error.
pub fn fail(rt: HostRuntime, what: &[u8], error: Error) {
    let words = Words::of(error);
    tell(rt, what);
    tell(rt, b": ");
    tell(rt, words.text());
    tell(rt, b"\n");
}

// ---- the status

// What a program came to: done, failed, or asked for by a wrong word.
#[derive(Clone, Copy, Debug, PartialEq, Eq)]
pub enum Status {
    Done,
    Failed,
    Wrong,
}

// The digit of a status.
impl From<Status> for u8 {
    ghost from_gives = { λ status n. n ≡ digit status };

    fn from(status: Status) -> u8 {
        match status {
            Status::Done => b'0',
            Status::Failed => b'1',
            Status::Wrong => b'2',
        }
    }
}

// Tells a status, one digit, on descriptor 3. Where nothing stands open there, nothing is told.
pub fn tell_status(digit: u8) {
    io::write_all(STATUS_FILENO, &[digit]);
}
