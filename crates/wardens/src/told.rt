// What is told a person, on standard error (R15.17, R15.19, R15.20).
use crate::words::Why;
use frame::Kind;
use wire::{Refusal, RefusedAt};

const VERSION: u64 = 1;

// As much is shown of a wrong word.
const SHOWN: usize = 64;

pub(crate) fn say(rt: HostRuntime, words: &[u8]) {
    edge::tell(rt, words);
}

pub(crate) fn help(rt: HostRuntime) {
    say(rt, b"wardens recover < SLIPS > SECRET\n");
    say(rt, b"wardens typed < SLIPS\n");
    say(
        rt,
        b"wardens split THRESHOLD COUNT --key HEX --document HEX [--signing-seed]\n",
    );
    say(
        rt,
        b"splits a secret among the wardens, and gives it back from enough of their slips\n\n",
    );
    say(
        rt,
        b"  recover     the secret of SLIPS: scans, one to a line, and typed lines, with an empty\n",
    );
    say(rt, b"              line between the lines of two slips\n");
    say(
        rt,
        b"  typed       for each slip which it is, and the lines that are typed by hand\n",
    );
    say(
        rt,
        b"  split       COUNT slips, of which any THRESHOLD give the secret back. It reads the\n",
    );
    say(
        rt,
        b"              secret from the first line, writes a line of hex for each slip, which is\n",
    );
    say(
        rt,
        b"              to be signed, reads a line for each signature, and writes the slips\n",
    );
    say(
        rt,
        b"    --key           the Ed25519 key that signs, 64 hex digits\n",
    );
    say(
        rt,
        b"    --document      the BLAKE2b digest of the ciphertext, 64 hex digits\n",
    );
    say(
        rt,
        b"    --signing-seed  the secret is a seed of 64 hex digits, and no passphrase\n",
    );
    say(
        rt,
        b"  --version   which wardens this is, and what it prints\n\n",
    );
    say(
        rt,
        b"The status is 0 where all was written, 1 where something was refused or could not be\n",
    );
    say(rt, b"read or written, and 2 for a wrong word.\n");
}

pub(crate) fn version(rt: HostRuntime) {
    say(rt, b"wardens ");
    edge::tell_decimal(rt, VERSION);
    say(rt, b": Ethernity paper format, version 1\n");
}

pub(crate) fn waiting(rt: HostRuntime, for_slips: bool) {
    if edge::input_is_terminal(rt) {
        if for_slips {
            say(
                rt,
                b"wardens waits for slips; end them with Ctrl-D, or give them as wardens .. < FILE\n",
            );
            return;
        }
        say(rt, b"wardens waits for the secret on one line\n");
    }
}

// ---- numbers

fn number(rt: HostRuntime, n: u64) {
    edge::tell_decimal(rt, n);
}

// A number that is counted from 0, as one from 1 on.
fn from_one(rt: HostRuntime, n: usize) {
    if let Some(m) = (n as u64).checked_add(1) {
        number(rt, m);
    }
}

pub(crate) fn line(rt: HostRuntime, feeds: usize) {
    say(rt, b"line ");
    from_one(rt, feeds);
}

// ---- a slip that is none (R15.19)

fn refused(rt: HostRuntime, why: Refusal) {
    say(rt, b": refused ");
    number(rt, u64::from(u8::from(why)));
    say(rt, b": ");
}

// The line with this number of a slip's typed lines, of which the first is behind so many line
// feeds.
fn mistyped(rt: HostRuntime, feeds: usize, behind: u8) {
    let m = feeds as u64;
    if m < u64::MAX - 255 {
        say(rt, b"line ");
        number(rt, m + u64::from(behind));
        refused(rt, Refusal::Mistyped);
        say(rt, b"it was mistyped: type it again\n");
    }
}

pub(crate) fn text(rt: HostRuntime, feeds: usize, r: RefusedAt, typed: bool) {
    if r.why == Refusal::Mistyped {
        mistyped(rt, feeds, r.place);
        return;
    }
    line(rt, feeds);
    if r.why == Refusal::NoRoom {
        refused(rt, Refusal::TooLarge);
        say(rt, b"it has more bytes than a slip\n");
        return;
    }
    refused(rt, r.why);
    if r.why == Refusal::BadCharacter {
        say(rt, b"it has a character that a slip may not have\n");
        return;
    }
    if typed {
        say(rt, b"one of these typed lines is too long or too short\n");
        return;
    }
    say(rt, b"the scan is cut, or has too much\n");
}

pub(crate) fn frame(rt: HostRuntime, feeds: usize, why: Refusal) {
    line(rt, feeds);
    refused(rt, why);
    if why == Refusal::BadChecksum {
        say(rt, b"its checksum differs: scan or type it again\n");
        return;
    }
    say(rt, b"it is no frame\n");
}

pub(crate) fn other(rt: HostRuntime, feeds: usize, kind: Kind) {
    line(rt, feeds);
    match kind {
        Kind::Main => say(rt, b" is no slip: it is a page of a document\n"),
        _ => say(rt, b" is no slip: it is an auth frame\n"),
    }
}

pub(crate) fn shard(rt: HostRuntime, feeds: usize, why: Refusal) {
    line(rt, feeds);
    refused(rt, why);
    say(rt, b"it is a key frame, but no share is in it\n");
}

// stays (2): here and below, each says a sentence of its own and nothing else.
pub(crate) fn short(rt: HostRuntime, feeds: usize) {
    line(rt, feeds);
    say(rt, b" is too long for a slip\n");
}

pub(crate) fn too_much(rt: HostRuntime) {
    say(
        rt,
        b"more than 524288 bytes were given: give the slips of one secret\n",
    );
}

pub(crate) fn too_many(rt: HostRuntime) {
    say(
        rt,
        b"more than 300 slips were given: give the slips of one secret\n",
    );
}

// ---- slips that give no secret (R15.19)

pub(crate) fn too_few(rt: HostRuntime, held: usize, threshold: u64) {
    say(rt, b"refused 26: too few slips: ");
    number(rt, held as u64);
    say(rt, b" here, ");
    let there = held as u64;
    if threshold < there {
        say(rt, b"and more are needed\n");
        return;
    }
    number(rt, threshold - there);
    say(rt, b" more needed\n");
}

pub(crate) fn no_slip(rt: HostRuntime) {
    say(
        rt,
        b"refused 26: no slip was given: give scans or typed lines on standard input\n",
    );
}

pub(crate) fn unlike(rt: HostRuntime, feeds: usize) {
    line(rt, feeds);
    refused(rt, Refusal::UnlikeSlips);
    say(rt, b"it is a slip of another secret than the first\n");
}

pub(crate) fn twice(rt: HostRuntime, first: usize, second: usize) {
    line(rt, second);
    refused(rt, Refusal::SlipTwice);
    say(rt, b"it has the same number as the slip on line ");
    from_one(rt, first);
    say(rt, b"\n");
}

pub(crate) fn misfit(rt: HostRuntime, feeds: usize) {
    line(rt, feeds);
    refused(rt, Refusal::OffTheCurve);
    say(
        rt,
        b"it does not fit the slips before it: one of them is damaged or false\n",
    );
}

pub(crate) fn damaged(rt: HostRuntime) {
    say(
        rt,
        b"refused 30: the slips fit each other, but give no secret: one of them is damaged or false\n",
    );
}

pub(crate) fn refusal(rt: HostRuntime, why: Refusal) {
    say(rt, b"refused ");
    number(rt, u64::from(u8::from(why)));
    say(rt, b": the slips give no secret\n");
}

// ---- splitting (R15.20)

pub(crate) fn no_secret(rt: HostRuntime, seed: bool) {
    if seed {
        say(
            rt,
            b"the first line is no seed: it takes 64 lower-case hex digits\n",
        );
        return;
    }
    say(
        rt,
        b"the first line is no secret: it takes 1 to 224 bytes\n",
    );
}

pub(crate) fn no_chance(rt: HostRuntime) {
    say(
        rt,
        b"no random bytes came from the system: nothing was split\n",
    );
}

pub(crate) fn not_split(rt: HostRuntime, why: Refusal) {
    say(rt, b"refused ");
    number(rt, u64::from(u8::from(why)));
    say(rt, b": this cannot be split\n");
}

pub(crate) fn no_signature(rt: HostRuntime, i: usize, there: bool) {
    say(rt, b"signature ");
    from_one(rt, i);
    if there {
        say(
            rt,
            b" is no signature: it takes 128 lower-case hex digits; no slip was written\n",
        );
        return;
    }
    say(rt, b" lacks; no slip was written\n");
}

// ---- a wrong word (R15.17)

// A word can hold anything, also what a terminal takes for an order: lend::plain shows that as `?`.
fn show(rt: HostRuntime, at: usize, word: &mut [u8]) {
    edge::tell_word(rt, at, word);
}

fn right(why: Why) -> &'static [u8] {
    match why {
        Why::Unknown => b"wardens takes recover, typed, split, --help or --version",
        Why::NoNumber => b"here belongs a number from 1 to 255",
        Why::NoQuorum => b"there are no fewer slips than are needed",
        Why::NoHex => b"here belong 64 lower-case hex digits",
        Why::Twice => b"it is said once",
        Why::Lacks => b"behind it belong 64 lower-case hex digits",
        Why::SplitLacks => {
            b"it takes THRESHOLD COUNT --key HEX --document HEX, and maybe --signing-seed"
        }
        Why::NotAlone => b"nothing belongs behind recover or typed",
    }
}

pub(crate) fn nothing(rt: HostRuntime) {
    say(
        rt,
        b"no word was given: wardens takes recover, typed, split, --help or --version\n",
    );
}

pub(crate) fn wrong(rt: HostRuntime, at: usize, why: Why) {
    let mut word = [0u8; SHOWN];
    say(rt, b"wrong word '");
    show(rt, at, &mut word);
    say(rt, b"': ");
    say(rt, right(why));
    say(rt, b"\n");
}
