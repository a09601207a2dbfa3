// A manifest that may be written and fits, written into lent output.
ghost use Rattle.std.specs.Prelude.{◌≡◌, [], ◌∷◌, ◌+◌, ◌≤◌, length, take};
ghost use Rattle.wire.specs.Answer.{choose};
ghost use Rattle.wire.specs.Over.{over};
ghost use Rattle.cbor.specs.Put.{Put};
ghost use Rattle.entry.specs.Writing.{form_of};
ghost use Rattle.manifest.specs.Writing.{files_verdict, listed, manifest_of};
ghost use Rattle.manifest.specs.Private.{seed_field_of, created_field_of, opening_of, closing_of, Room, Ready};

use super::{Created, Manifest};
use cbor::{ARRAY, BYTES, TEXT};
use wire::Span;

fn seed_field(pool: &[u8], seed: Option<Span>, out: &mut [u8], at: usize) -> usize
    requires { at + length (seed_field_of pool.now seed) ≤ length out.old }
    ensures { Put at (seed_field_of pool.now seed) out.old out.new result }
{
    let a = cbor::write::string(out, at, TEXT, b"seed");
    match seed {
        None => cbor::write::fixed(out, a, b"\xF6"),
        Some(span) => cbor::write::string(out, a, BYTES, lend::part(pool, span)),
    }
}

fn created_field(created: Created, out: &mut [u8], at: usize) -> usize
    requires { at + length (created_field_of created) ≤ length out.old }
    ensures { Put at (created_field_of created) out.old out.new result }
{
    let a = cbor::write::string(out, at, TEXT, b"created");
    match created {
        Created::Integer(v) => entry::write::integer(out, a, v),
        Created::Double { bits } => cbor::write::float(out, a, bits),
    }
}

fn sealed_byte(out: &mut [u8], at: usize, sealed: bool) -> usize
    ensures { Put at (choose sealed 0xF5 0xF4 ∷ []) out.old out.new result }
{
    if sealed {
        return cbor::write::fixed(out, at, b"\xF5");
    }
    cbor::write::fixed(out, at, b"\xF4")
}

// The files of m, one after the other.
fn list(pool: &[u8], m: Manifest, out: &mut [u8], at: usize) -> usize
    requires { Room pool.now m at out.old (form_of (files_verdict pool.now [] (take m.count m.files))) }
    ensures { Put at (form_of (files_verdict pool.now [] (take m.count m.files))) out.old out.new result }
{
    let mut p = at;
    let mut last = Span { start: 0, len: 0 };
    for f in &m.files[..m.count] {
        p = entry::write::file(pool, lend::part(pool, last), *f, out, p);
        last = f.path;
    }
    p
}

// What stands before the files.
fn opening(pool: &[u8], m: Manifest, out: &mut [u8]) -> usize
    requires { length (opening_of pool.now m) ≤ length out.old }
    ensures { Put 0 (opening_of pool.now m) out.old out.new result }
{
    let a = cbor::write::fixed(out, 0, b"\xA5");
    let b = seed_field(pool, m.seed, out, a);
    let c = cbor::write::string(out, b, TEXT, b"files");
    cbor::write::head(out, c, ARRAY, m.count as u64)
}

// What stands after them.
fn closing(m: Manifest, out: &mut [u8], at: usize) -> usize
    requires { at + length (closing_of m) ≤ length out.old }
    ensures { Put at (closing_of m) out.old out.new result }
{
    let a = cbor::write::string(out, at, TEXT, b"sealed");
    let b = sealed_byte(out, a, m.sealed);
    let c = created_field(m.created, out, b);
    cbor::write::number_field(out, c, b"version", 1)
}

pub(super) fn whole(pool: &[u8], m: Manifest, out: &mut [u8])
    requires { Ready pool.now m out.old }
    ensures { out.new ≡ over 0 (manifest_of pool.now (listed m)) out.old }
{
    let a = opening(pool, m, out);
    let b = list(pool, m, out, a);
    closing(m, out, b);
}
