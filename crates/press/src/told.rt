// What is told a person, on standard error, but for the refusals, which `sheet` lays out.
use crate::words::{Why, Wrong};

const VERSION: u64 = 1;

// As much is shown of a wrong word.
const SHOWN: usize = 64;

pub(crate) fn say(rt: HostRuntime, words: &[u8]) {
    edge::tell(rt, words);
}

pub(crate) fn help(rt: HostRuntime) {
    say(rt, b"press [typed [K]] [--size N] < FILE\n");
    say(
        rt,
        b"prints a ciphertext for the crossing on paper: its id, and a line for each page\n\n",
    );
    say(
        rt,
        b"  (no word)   the text of each page's square, as pier and pantry read it\n",
    );
    say(
        rt,
        b"  typed       for each page its place, and the lines that are typed by hand\n",
    );
    say(
        rt,
        b"  typed K     the same of page K alone; the first is page 0\n",
    );
    say(
        rt,
        b"  --size N    N bytes of the ciphertext to a page, 1 to 480; else 480\n",
    );
    say(
        rt,
        b"  --version   which press this is, and what it prints\n\n",
    );
    say(
        rt,
        b"The status is 0 where all was printed, 1 where it was refused or could not be\n",
    );
    say(rt, b"read or written, and 2 for a wrong word.\n");
}

pub(crate) fn version(rt: HostRuntime) {
    say(rt, b"press ");
    edge::tell_decimal(rt, VERSION);
    say(rt, b": Ethernity paper format, version 1\n");
}

pub(crate) fn waiting(rt: HostRuntime) {
    if edge::input_is_terminal(rt) {
        say(
            rt,
            b"press waits for a ciphertext; end it with Ctrl-D, or give it as press < FILE\n",
        );
    }
}

// A word can hold anything, also what a terminal takes for an order: lend::plain shows that as `?`.
fn show(rt: HostRuntime, at: usize, word: &mut [u8]) {
    edge::tell_word(rt, at, word);
}

fn right(rt: HostRuntime, why: Why) {
    match why {
        Why::Unknown => say(
            rt,
            b"press takes typed, typed K, --size N, --help or --version",
        ),
        Why::NoPage => say(
            rt,
            b"behind typed belongs the number of a page, from 0 on, or nothing",
        ),
        Why::TooMany => say(rt, b"behind the page belongs --size N, or nothing"),
        Why::NoSize => say(rt, b"behind --size belongs a number from 1 to 480"),
        Why::SizeLacks => say(rt, b"behind it belongs a number from 1 to 480"),
        Why::SizeTwice => say(rt, b"the size is said once"),
        Why::NotAlone => say(rt, b"it stands alone"),
    }
}

// The word with this index, and what would be right (R15.5).
pub(crate) fn wrong(rt: HostRuntime, wrong: Wrong) {
    let mut word = [0u8; SHOWN];
    say(rt, b"wrong word '");
    show(rt, wrong.at, &mut word);
    say(rt, b"': ");
    right(rt, wrong.why);
    say(rt, b"\n");
}
