// The verbs of manifests and envelopes.
use crate::reply::Output;
use crate::said;
use crate::words::Call;
use crate::words::Kind::{Bytes, Room};
use entry::File;
use manifest::{Created, Manifest};

// A signed number behind `i`, or a double's 64 bits behind `f` (D2.9).
fn created(v: Created, out: &mut Output) {
    match v {
        Created::Integer(v) => {
            out.put(b" i");
            out.signed(v);
        }
        Created::Double { bits } => {
            out.put(b" f");
            out.hex_digits(bits, 16);
        }
    }
}

// The last value is a signed number, or `null` (D2.9).
fn file(s: &[u8], v: File, out: &mut Output) {
    out.part(s, v.hash);
    out.part(s, v.path);
    out.number(v.size);
    match v.mtime {
        Some(at) => {
            out.put(b" ");
            out.signed(at);
        }
        None => out.put(b" null"),
    }
}

// What stands before the files, of which the first is bytes or `null`, their number, and then four
// values for each (D2.9).
pub(crate) fn manifest_values(s: &[u8], v: Manifest, out: &mut Output) {
    match v.seed {
        Some(at) => out.part(s, at),
        None => out.put(b" null"),
    }
    out.number(u64::from(v.sealed));
    created(v.created, out);
    out.number(v.count as u64);
    for &one in v.files.iter().take(v.count) {
        file(s, one, out);
    }
}

// The reply to a line of this group that writes into the room; false for any other line.
pub(crate) fn call(call: Call, room: &mut [u8], out: &mut Output) -> bool {
    match call.word(0) {
        // The value is the one that the line says, as reading prints it (D2.10).
        b"manifest-write" => {
            let Some(v) = said::manifest(call) else {
                return false;
            };
            out.wrote(manifest::write(call.pool(), v, room), room);
        }
        // Takes the manifest as bytes, so that any can be tried (D2.11).
        b"envelope-write" if call.has(&[Bytes, Bytes, Room]) => {
            out.wrote(envelope::write(call.bytes(1), call.bytes(2), room), room)
        }
        _ => return false,
    }
    true
}
