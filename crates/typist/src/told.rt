// What is told a person, on standard error; what is wrong with lines is what `typing` lays out.
use typing::Fault;

const VERSION: u64 = 1;

// As much is shown of a wrong word.
const SHOWN: usize = 64;

pub(crate) fn say(rt: HostRuntime, words: &[u8]) {
    edge::tell(rt, words);
}

pub(crate) fn help(rt: HostRuntime) {
    say(rt, b"typist < LINES > SCAN\n");
    say(
        rt,
        b"turns the typed lines of one page, as press typed prints them, into its scan\n\n",
    );
    say(
        rt,
        b"  LINES       the lines of one page; spaces, tabs and dashes are skipped\n",
    );
    say(rt, b"  SCAN        a line that pier and pantry read\n");
    say(
        rt,
        b"  --version   which typist this is, and what it prints\n\n",
    );
    say(
        rt,
        b"At a terminal it asks for each line, and again for one that is wrong; an empty line\n",
    );
    say(
        rt,
        b"ends the page. The status is 0 where a scan was printed, 1 where the lines are no\n",
    );
    say(
        rt,
        b"page or could not be read or written, and 2 for a wrong word.\n",
    );
}

pub(crate) fn version(rt: HostRuntime) {
    say(rt, b"typist ");
    edge::tell_decimal(rt, VERSION);
    say(rt, b": Ethernity paper format, version 1\n");
}

// What is wrong with lines (R15.14).
pub(crate) fn fault(rt: HostRuntime, f: Fault) {
    let mut out = [0u8; typing::WORDS_ROOM];
    let Ok(len) = typing::words(f, &mut out) else {
        return;
    };
    if len <= out.len() {
        say(rt, &out[..len]);
    }
}

pub(crate) fn too_much(rt: HostRuntime) {
    say(
        rt,
        b"more than 16384 bytes were given: give the lines of one page\n",
    );
}

// ---- at a terminal (R15.15)

pub(crate) fn begin(rt: HostRuntime) {
    say(rt, b"type the lines of one page; an empty line ends it\n");
}

pub(crate) fn number(rt: HostRuntime, line: u8) {
    say(rt, b"line ");
    edge::tell_decimal(rt, u64::from(line));
}

pub(crate) fn prompt(rt: HostRuntime, line: u8) {
    number(rt, line);
    say(rt, b": ");
}

pub(crate) fn too_long(rt: HostRuntime, line: u8) {
    number(rt, line);
    say(rt, b" is too long\n");
}

// ---- a wrong word (R15.16)

// A word can hold anything, also what a terminal takes for an order: lend::plain shows that as `?`.
fn show(rt: HostRuntime, at: usize, word: &mut [u8]) {
    edge::tell_word(rt, at, word);
}

pub(crate) fn wrong(rt: HostRuntime, at: usize) {
    let mut word = [0u8; SHOWN];
    say(rt, b"wrong word '");
    show(rt, at, &mut word);
    say(
        rt,
        b"': typist takes --help or --version alone, and lines on standard input\n",
    );
}
