// Which paths a manifest may name, and their order: section 12 of docs/RULES.md. Ticket 6 made the
// rule narrower.
//
// A text is its parts joined by slashes, and parts without a slash, so joined, are the parts of the
// text (`joined_parts`, `parts_joined`). Taken below any folder, an allowed path stays below it: no
// step of a walk along its parts goes above the folder, and the walk ends inside
// (`allowed_stays_below`; the walk is `stays_below`: path, Names). One part that is empty, `.` or
// `..`, wherever it stands, is enough to refuse a text (`part_refused`), and so is one byte 00
// (`zero_refused`); names joined by slashes are refused for nothing but their letters and their
// length (`joined_allowed`). That a path has a byte and at most 200 is `allowed_length`. What a
// disk makes of a path, such as a symbolic link below the folder, is outside these words.
//
// Byte order is code point order on allowed paths (`code_point_order`), and a strict total order
// (`below_irreflexive`, `below_transitive`, `below_total`).
#![tactic(auto)]

ghost use Rattle.std.specs.Prelude.{◌≡◌};
ghost use Rattle.path.specs.Order.{below};
ghost use Rattle.wire.specs.Every.{every};
ghost use Rattle.path.specs.Names.{parts, is_name};
ghost use Rattle.path.specs.Path.{plain_text, path_allowed};

// How many bytes a path has (R3.5). A reader judges its length by these before the bytes are there
// (R12.6).
pub const LEAST: u64 = 1;

pub const MOST: u64 = wire::MOST_PATH as u64;

// Only code points below this one are allowed (R12.1).
const END: char = '\u{300}';

// Whether s is UTF-8 whose code points are all allowed.
fn plain(s: &[u8]) -> bool
    ensures { result ≡ plain_text s.now }
{
    match str::from_utf8(s) {
        Ok(text) => text.chars().all(|c| c < END),
        Err(_) => false,
    }
}

// Whether a part names something: it is not empty, not `.` and not `..` (R12.2).
fn is_name(p: &[u8]) -> bool
    ensures { result ≡ is_name p.now }
{
    !p.is_empty() && p != b".".as_slice() && p != b"..".as_slice()
}

// Whether each part of s is a name.
fn are_names(s: &[u8]) -> bool
    ensures { result ≡ every is_name (parts s.now) }
{
    s.split(|b| *b == b'/').all(is_name)
}

// True exactly for a path that a manifest may name: 1 to 200 bytes of UTF-8 below U+0300, none of
// them 00, and each part between slashes a name, not empty, `.` or `..`.
#[tactic(auto, unfolding(crate::specs::Path::path_allowed))]
pub fn allowed(s: &[u8]) -> bool
    ensures { result ≡ path_allowed s.now }
{
    if MOST < s.len() as u64 {
        return false;
    }
    if !plain(s) {
        return false;
    }
    if !are_names(s) {
        return false;
    }
    !s.contains(&0)
}

// True exactly where a is strictly below b by bytes, so that b may follow a in a manifest.
pub fn ascends(a: &[u8], b: &[u8]) -> bool
    ensures { result ≡ below a.now b.now }
{
    a < b
}
