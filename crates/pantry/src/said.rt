// What is told a person, on standard error. The lines of a run are laid out by `status` and `told`.
use crate::file::PATH_MAX;
use crate::words::Why;
use std::io::Error;
use wire::Refusal;

// Room for any line that `status` and `told` lay out.
const ROOM: usize = 400;

// As much is shown of a wrong word.
const SHOWN: usize = 64;

fn say(rt: HostRuntime, words: &[u8]) {
    edge::tell(rt, words);
}

// Tells the line that `lay` lays out.
fn line<F: FnOnce(&mut [u8]) -> Result<usize, Refusal>>(rt: HostRuntime, lay: F)
    requires { F.IsAlwaysCallable lay }
{
    let mut out = [0u8; ROOM];
    if let Ok(len) = lay(&mut out)
        && let Some(words) = out.get(..len)
    {
        say(rt, words);
    }
}

// Where the collection stands, which pages it lacks, and what the lines came to (R15.9).
pub(crate) fn standing(rt: HostRuntime, c: &[u8], notes: &[u64]) {
    line(rt, |out| status::status(c, out));
    line(rt, |out| told::pages::missing(c, out));
    line(rt, |out| told::pages::disputed(c, out));
    line(rt, |out| told::lines(notes, out));
}

// What is to be done where all is done, or where that was refused.
pub(crate) fn advice(rt: HostRuntime, answer: Result<(), Refusal>) {
    let no = match answer {
        Ok(()) => 0,
        Err(why) => u8::from(why),
    };
    line(rt, |out| told::words::advice(no, out));
}

pub(crate) fn first_line(rt: HostRuntime, fault: u64) {
    line(rt, |out| told::words::first_advice(fault, out));
}

pub(crate) fn stranger(rt: HostRuntime, kept: &[u8], scanned: &[u8]) {
    line(rt, |out| told::words::stranger(kept, scanned, out));
}

// A name can hold anything, also what a terminal takes for an order: lend::plain shows that as `?`.
// It is told by `tell`, where there is room for it.
fn name_plainly<F: FnOnce(&[u8])>(name: &[u8], tell: F)
    requires { F.IsAlwaysCallable tell }
{
    let mut shown = [0u8; PATH_MAX];
    if let Some(shown) = shown.get_mut(..name.len()) {
        shown.copy_from_slice(name);
        lend::plain(shown);
        tell(shown);
    }
}

fn say_name(rt: HostRuntime, name: &[u8]) {
    name_plainly(name, |shown| say(rt, shown));
}

// What the system says of a fault, at this file.
pub(crate) fn failed(rt: HostRuntime, name: &[u8], error: Error) {
    name_plainly(name, |shown| edge::fail(rt, shown, error));
}

// stays (2): here and below, each says a sentence of its own behind the name.
pub(crate) fn no_file(rt: HostRuntime, name: &[u8]) {
    say_name(rt, name);
    say(
        rt,
        b": the name is too long, ends with .pantry-new, or is a link that leads in a circle\n",
    );
}

pub(crate) fn no_folder(rt: HostRuntime, name: &[u8]) {
    say_name(rt, name);
    say(
        rt,
        b": its folder is not there: make it, or name another file\n",
    );
}

// The new file of another run is there (R15.7).
pub(crate) fn busy(rt: HostRuntime, beside: &[u8]) {
    say_name(rt, beside);
    say(
        rt,
        b" is there: another pantry is at work, or one was killed; where none is, remove it\n",
    );
}

pub(crate) fn nothing_new(rt: HostRuntime) {
    say(
        rt,
        b"nothing new: the kept file had every page that was scanned\n",
    );
}

pub(crate) fn waiting(rt: HostRuntime) {
    if edge::input_is_terminal(rt) {
        say(
            rt,
            b"pantry waits for the document's id and then for scans, a line each; end with Ctrl-D\n",
        );
    }
}

pub(crate) fn help(rt: HostRuntime) {
    say(rt, b"pantry [KEPT] [--to FILE] < SCANS\n");
    say(
        rt,
        b"gives a ciphertext back from scanned pages, once every page is there\n\n",
    );
    say(
        rt,
        b"  SCANS       the document's id on the first line, then a scan on each\n",
    );
    say(
        rt,
        b"  KEPT        the file in which the pages are kept from run to run\n",
    );
    say(
        rt,
        b"  --to FILE   the ciphertext goes there, whole or not at all; else to standard output\n",
    );
    say(
        rt,
        b"  --version   which pantry this is, and what it reads\n\n",
    );
    say(
        rt,
        b"The status is 0 where the ciphertext was given out, 1 where pages lack or something\n",
    );
    say(rt, b"was refused, and 2 for a wrong word.\n");
}

pub(crate) fn version(rt: HostRuntime) {
    say(rt, b"pantry 1: Ethernity paper format, version 1\n");
}

fn right(rt: HostRuntime, why: Why) {
    match why {
        Why::Unknown => say(
            rt,
            b"pantry takes KEPT, --to FILE, --help or --version; a file of such a name is ./ and the name",
        ),
        Why::NoName => say(rt, b"a file's name has 1 to 4,095 bytes"),
        Why::NewName => say(rt, b"so ends the name of a file that is not finished"),
        Why::Second => say(rt, b"there is one kept file, and it was named before"),
        Why::Lacks => say(rt, b"behind it belongs the name of a file"),
        Why::Twice => say(rt, b"the ciphertext goes to one file"),
        Why::Same => say(rt, b"the ciphertext cannot go where the pages are kept"),
        Why::NotAlone => say(rt, b"it stands alone"),
    }
}

// The word with this index, shown as a name is and not more of it than there is room for, and what
// would be right (R15.11).
pub(crate) fn wrong(rt: HostRuntime, at: usize, why: Why) {
    let mut word = [0u8; SHOWN];
    say(rt, b"wrong word '");
    edge::tell_word(rt, at, &mut word);
    say(rt, b"': ");
    right(rt, why);
    say(rt, b"\n");
}
