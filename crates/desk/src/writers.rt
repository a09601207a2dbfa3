// The verbs that write into the room, but for those of manifests, envelopes and registers, and for
// recover.
ghost use Rattle.std.specs.Prelude.{◌<◌};

use crate::reply::Output;
use crate::values;
use crate::words::Call;
use crate::words::Kind::{Bytes, Double, Number, Room};
use shard::Quorum;

// The three numbers of a quorum, which are words k to k + 2.
fn quorum(call: Call, k: usize) -> Quorum
    requires { k < 10 }
{
    Quorum {
        threshold: call.number(k),
        count: call.number(k + 1),
        index: call.number(k + 2),
    }
}

// Both texts, read and written (D2.2), and typed lines (D2.13): false for any other line.
fn texts(call: Call, room: &mut [u8], out: &mut Output) -> bool {
    if !call.has(&[Bytes, Room]) {
        return false;
    }
    let s = call.bytes(1);
    match call.word(0) {
        b"base64-read" => out.wrote(text::base64_read(s, room), room),
        b"base64-write" => out.wrote(text::base64_write(s, room), room),
        b"zbase32-read" => out.wrote(text::zbase32_read(s, room), room),
        b"zbase32-write" => out.wrote(text::zbase32_write(s, room), room),
        // With 23 comes a line.
        b"typed-read" => out.wrote(typed::read(s, room), room),
        b"typed-write" => out.wrote(typed::write(s, room), room),
        _ => return false,
    }
    true
}

// Key and auth frames (D2.6), and auth payloads and what gets signed of one (D2.7): false for any
// other line.
fn frames(call: Call, room: &mut [u8], out: &mut Output) -> bool {
    let one = call.bytes(1);
    let two = call.bytes(2);
    match call.word(0) {
        b"key-write" if call.has(&[Bytes, Bytes, Room]) => {
            out.wrote(payload_frame::key(one, two, room), room)
        }
        b"auth-frame-write" if call.has(&[Bytes, Bytes, Room]) => {
            out.wrote(payload_frame::auth(one, two, room), room)
        }
        b"auth-signed" if call.has(&[Bytes, Bytes, Room]) => {
            out.wrote(auth::signed(one, two, room), room)
        }
        b"auth-write" if call.has(&[Bytes, Bytes, Bytes, Room]) => {
            out.wrote(auth::write(one, two, call.bytes(3), room), room)
        }
        _ => return false,
    }
    true
}

// A shard takes the nine values that reading prints, and what gets signed of it all but SIG;
// whether the type is known is the library's to say (D2.8).
fn shards(call: Call, room: &mut [u8], out: &mut Output) -> bool {
    match call.word(0) {
        b"shard-write"
            if call.has(&[
                Bytes, Bytes, Bytes, Bytes, Bytes, Number, Number, Number, Number, Room,
            ]) => {
            let made = shard::write(
                call.bytes(1),
                call.bytes(2),
                call.bytes(3),
                call.bytes(4),
                call.bytes(5),
                call.number(6),
                quorum(call, 7),
                room,
            );
            out.wrote(made, room);
        }
        b"shard-signed"
            if call.has(&[
                Bytes, Bytes, Bytes, Bytes, Number, Number, Number, Number, Room,
            ]) => {
            let made = shard::signed(
                call.bytes(1),
                call.bytes(2),
                call.bytes(3),
                call.bytes(4),
                call.number(5),
                quorum(call, 6),
                room,
            );
            out.wrote(made, room);
        }
        _ => return false,
    }
    true
}

// The verbs that take numbers: varints (D2.1), pages (D2.5), floats (D2.12) and secrets, where it
// is the library's to say whether the numbers and the coefficients go with the secret (D2.14).
fn numbers(call: Call, room: &mut [u8], out: &mut Output) -> bool {
    match call.word(0) {
        b"varint-write" if call.has(&[Number, Room]) => {
            out.wrote(varint::write(call.number(1), room, 0), room)
        }
        b"page-write" if call.has(&[Bytes, Number, Number, Room]) => {
            let size = call.number(2) as usize;
            let number = call.number(3) as usize;
            out.wrote(page::write(call.bytes(1), size, number, room), room);
        }
        b"float-write" if call.has(&[Double, Room]) => {
            let bits = values::double(call.word(1)).unwrap_or(0);
            out.wrote(cbor::write::float_alone(bits, room), room);
        }
        b"split" if call.has(&[Bytes, Number, Number, Bytes, Room]) => {
            let made = split::split(
                call.bytes(1),
                call.number(2),
                call.number(3),
                call.bytes(4),
                room,
            );
            out.wrote(made, room);
        }
        _ => return false,
    }
    true
}

// The reply to a line of this group; false for any other line.
pub(crate) fn call(call: Call, room: &mut [u8], out: &mut Output) -> bool {
    texts(call, room, out)
        || frames(call, room, out)
        || shards(call, room, out)
        || numbers(call, room, out)
}
