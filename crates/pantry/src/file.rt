// The files that the pantry keeps and puts in place (R15.7). A new one is written beside the old
// one and takes its place once it is whole and on the disk, so that a crash leaves the one or the
// other.
ghost use Rattle.std.specs.Prelude.{◌≡◌, ◌≤◌, length, IfSome};

use crate::said;
use scan::session::Session;
use std::fs;
use std::fs::{File, OpenOptions};
use std::io::{Error, ErrorKind, Write};
use std::path::PathBuf;
use wire::Refusal;

// A name has fewer bytes: the system wants a 0 behind it.
pub(crate) const PATH_MAX: usize = 4096;

// One byte more than a collection has, so that a longer file shows and is 13 (R15.7).
const ENOUGH: usize = wire::COLLECTION_SIZE + 1;

// What the name of a new file has behind that of the file whose place it takes.
const BESIDE: usize = 11;

// A link that leads to more links than this leads nowhere.
const LINKS: u8 = 40;

// ---- names

// A name as std takes it, which is text. Of a name that is not UTF-8 nothing can be asked: such a
// file is refused as one that the system lets us neither read nor write.
fn text(name: &[u8]) -> Result<&str, Error> {
    str::from_utf8(name).map_err(|_| Error::from(ErrorKind::InvalidFilename))
}

fn open_read(rt: HostRuntime, name: &[u8]) -> Result<File, Error> {
    File::open(&rt, text(name)?)
}

// What a link says. No more of its name is read than the system takes.
fn read_link(rt: HostRuntime, name: &[u8]) -> Result<PathBuf, Error> {
    let len = name.len().min(PATH_MAX - 1);
    fs::read_link(&rt, text(&name[..len])?)
}

fn rename(rt: HostRuntime, from: &[u8], to: &[u8]) -> Result<(), Error> {
    fs::rename(&rt, text(from)?, text(to)?)
}

// Where a new file cannot be removed, it stays, and the next run says so.
fn remove(rt: HostRuntime, name: &[u8]) {
    if let Ok(text) = text(name) {
        let _gone = fs::remove_file(&rt, text);
    }
}

// Where the last part of a name begins: behind its last slash.
fn base(name: &[u8]) -> usize
    ensures { result ≤ length name.now }
{
    match name.iter().rposition(|&b| b == b'/') {
        Some(slash) => slash + 1,
        None => 0,
    }
}

// The link's text from an index of the name on. Answers the length of the name; none where there is
// no room.
fn behind(name: &mut [u8], at: usize, link: &[u8]) -> Option<usize> {
    if name.len() < at || name.len() - at < link.len() {
        return None;
    }
    lend::copy(name, at, link);
    Some(at + link.len())
}

// The name that a link says: one without a slash in front counts from the link's own folder.
fn follow(name: &mut [u8], len: usize, link: &[u8]) -> Option<usize> {
    match link {
        [] => None,
        [b'/', ..] => behind(name, 0, link),
        _ => {
            let at = base(name.get(..len)?);
            behind(name, at, link)
        }
    }
}

// A name that is no link, or not there, is the file's own. Any other fault is told.
fn unlinked(rt: HostRuntime, name: &[u8], error: Error) -> Option<usize> {
    if matches!(error.kind(), ErrorKind::InvalidInput | ErrorKind::NotFound) {
        return Some(name.len());
    }
    said::failed(rt, name, error);
    None
}

// The file that a name means: where that is a symbolic link, what the link leads to, so that the
// link stays. Answers the length of its name; none where there is none, which is told.
fn meant(rt: HostRuntime, name: &[u8], real: &mut [u8]) -> Option<usize> {
    if name.is_empty() {
        return None;
    }
    lend::copy(real, 0, name);
    let mut n = name.len();
    for _ in 0..LINKS {
        let now = real.get(..n)?;
        let led = match read_link(rt, now) {
            Ok(link) => follow(real, n, link.as_str().as_bytes()),
            Err(error) => return unlinked(rt, now, error),
        };
        match led {
            Some(len) => n = len,
            None => break,
        }
    }
    said::no_file(rt, name);
    None
}

// Whether a name is that of a new file: what stands under such a name would be taken for one.
pub(crate) fn is_new(real: &[u8]) -> bool {
    real.ends_with(b".pantry-new")
}

// The name of the new file beside that of this name. Answers its length; none where there can be no
// such file.
fn new_name(real: &[u8], beside: &mut [u8]) -> Option<usize>
    ensures { IfSome result (λ n. n ≤ 4096) }
{
    let n = real.len();
    if PATH_MAX - BESIDE <= n || is_new(real) {
        return None;
    }
    lend::copy(beside, 0, real);
    lend::copy(beside, n, b".pantry-new");
    Some(n + BESIDE)
}

// What comes of the file that a name means, by its own name and that of the new file beside it;
// none where one of the two is no name, which is told.
fn at<T, F: FnOnce(&[u8], &[u8]) -> T>(rt: HostRuntime, name: &[u8], with: F) -> Option<T>
    requires { F.IsAlwaysCallable with }
{
    let mut real = [0u8; PATH_MAX];
    let n = meant(rt, name, &mut real)?;
    let real = real.get(..n)?;
    let mut beside = [0u8; PATH_MAX];
    let Some(end) = new_name(real, &mut beside) else {
        said::no_file(rt, name);
        return None;
    };
    Some(with(real, beside.get(..end)?))
}

// ---- writing

// The new file, empty. Who makes it has the file whose place it takes to itself until it is renamed
// or removed: a second run finds it there, and EEXIST. A launcher (R15.13) holds a lock on it, so
// what is there under one is of a run that was killed, or the launcher's own, with the right mode.
fn claim(rt: HostRuntime, beside: &[u8], launched: bool) -> Result<File, Error> {
    if launched {
        return File::create(&rt, text(beside)?);
    }
    let mut how = OpenOptions::new();
    how.write(true).create_new(true);
    how.open(&rt, text(beside)?)
}

// Tells why there is no new file.
fn unclaimed(rt: HostRuntime, real: &[u8], beside: &[u8], error: Error) {
    match error.kind() {
        ErrorKind::AlreadyExists => said::busy(rt, beside),
        ErrorKind::NotFound => said::no_folder(rt, real),
        _ => said::failed(rt, real, error),
    }
}

// Writes all of it, down to the disk.
fn fill(mut file: File, bytes: &[u8]) -> Result<(), Error> {
    file.write_all(bytes)?;
    file.sync_all()
}

// The new name is on the disk only when its folder is. A file system that cannot sync a folder says
// EINVAL.
fn sync_folder(rt: HostRuntime, real: &[u8]) -> Result<(), Error> {
    let end = base(real);
    let folder = if end == 0 {
        open_read(rt, b".")?
    } else {
        open_read(rt, &real[0..end])?
    };
    match folder.sync_all() {
        Err(error) if error.kind() == ErrorKind::InvalidInput => Ok(()),
        synced => synced,
    }
}

// Puts bytes in the place of the file of this name, by the new file beside it. What fails is told
// by the file's name.
fn replace(rt: HostRuntime, real: &[u8], beside: &[u8], file: File, bytes: &[u8]) -> bool {
    if let Err(error) = fill(file, bytes).and_then(|()| rename(rt, beside, real)) {
        said::failed(rt, real, error);
        remove(rt, beside);
        return false;
    }
    if let Err(error) = sync_folder(rt, real) {
        said::failed(rt, real, error);
        return false;
    }
    true
}

fn put_at(rt: HostRuntime, real: &[u8], beside: &[u8], launched: bool, bytes: &[u8]) -> bool {
    match claim(rt, beside, launched) {
        Ok(file) => replace(rt, real, beside, file, bytes),
        Err(error) => {
            unclaimed(rt, real, beside, error);
            false
        }
    }
}

// The file that this name means then holds these bytes, whole and on the disk, or what it held
// before.
pub(crate) fn put(rt: HostRuntime, name: &[u8], launched: bool, bytes: &[u8]) -> bool {
    at(rt, name, |real, beside| {
        put_at(rt, real, beside, launched, bytes)
    })
    .unwrap_or(false)
}

// ---- keeping

// What the file's collection and that of a session came to.
#[derive(Clone, Copy)]
enum Gathered {
    // The session has nothing that the file has not.
    Same,
    More,
}

// Joins what was saved into c.
fn join(rt: HostRuntime, s: Session, saved: &[u8], c: &mut [u8]) -> Result<Gathered, Refusal> {
    if let Err(why) = pantry_work::resume(s, saved, c) {
        if why == Refusal::OtherDocument {
            said::stranger(rt, saved, c);
        }
        return Err(why);
    }
    if lend::equal(saved, c) {
        said::nothing_new(rt);
        return Ok(Gathered::Same);
    }
    Ok(Gathered::More)
}

// Tells why a file cannot be read, which is 11.
fn unread(rt: HostRuntime, real: &[u8], error: Error) -> Refusal {
    said::failed(rt, real, error);
    Refusal::NoRoom
}

// Joins the file's collection into c. No file is as an empty collection. 11 is a file that the
// system does not let us read.
fn gather(rt: HostRuntime, real: &[u8], s: Session, c: &mut [u8]) -> Result<Gathered, Refusal> {
    let mut file = match open_read(rt, real) {
        Ok(file) => file,
        Err(error) if error.kind() == ErrorKind::NotFound => return Ok(Gathered::More),
        Err(error) => return Err(unread(rt, real, error)),
    };
    let mut saved = [0u8; ENOUGH];
    let len = match edge::fill(&mut file, &mut saved) {
        Ok(len) => len,
        Err(error) => return Err(unread(rt, real, error)),
    };
    drop(file);
    join(rt, s, &saved[..len], c)
}

// Nothing is written: what was claimed goes.
fn leave(rt: HostRuntime, beside: &[u8], claimed: Result<File, Error>) {
    if let Ok(file) = claimed {
        drop(file);
        remove(rt, beside);
    }
}

// Where the new file could not be made, that is said only here: a file that need not be written may
// stand where nobody can write.
fn save(
    rt: HostRuntime,
    real: &[u8],
    beside: &[u8],
    launched: bool,
    claimed: Result<File, Error>,
    c: &[u8],
) -> Result<(), Refusal> {
    let saved = match claimed {
        Ok(file) => replace(rt, real, beside, file, c),
        Err(_) => put_at(rt, real, beside, launched, c),
    };
    if saved { Ok(()) } else { Err(Refusal::NoRoom) }
}

// Whether the new file of another run is there.
fn is_taken(claimed: &Result<File, Error>) -> bool {
    match claimed {
        Ok(_) => false,
        Err(error) => error.kind() == ErrorKind::AlreadyExists,
    }
}

fn keep_at(
    rt: HostRuntime,
    real: &[u8],
    beside: &[u8],
    launched: bool,
    s: Session,
    c: &mut [u8],
) -> Result<(), Refusal> {
    let claimed = claim(rt, beside, launched);
    if is_taken(&claimed) {
        said::busy(rt, beside);
        return Err(Refusal::NoRoom);
    }
    match gather(rt, real, s, c) {
        Ok(Gathered::More) => save(rt, real, beside, launched, claimed, c),
        Ok(Gathered::Same) => {
            leave(rt, beside, claimed);
            Ok(())
        }
        Err(why) => {
            leave(rt, beside, claimed);
            Err(why)
        }
    }
}

// Joins the file's collection into c, and keeps what that gives there. A refusal is that of the
// join, or 11 for a file that the system does not let us read or write.
pub(crate) fn keep(
    rt: HostRuntime,
    name: &[u8],
    launched: bool,
    s: Session,
    c: &mut [u8],
) -> Result<(), Refusal> {
    at(rt, name, |real, beside| {
        keep_at(rt, real, beside, launched, s, c)
    })
    .unwrap_or(Err(Refusal::NoRoom))
}
