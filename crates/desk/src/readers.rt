// The verbs that only read: numbers, digests, and what is read of frames, payloads and documents.
use crate::listings;
use crate::reply::Output;
use crate::words::Call;
use crate::words::Kind::Bytes;
use auth::Claimed;
use frame::Frame;
use shard::Shard;
use wire::Span;

// The values of a frame that was read, the type as one byte (D2.4); the id always stands at byte 4.
fn frame_values(s: &[u8], v: Frame, out: &mut Output) {
    out.digits(u64::from(u8::from(v.kind)), 2);
    out.part(s, Span { start: 4, len: 8 });
    out.number(v.index);
    out.number(v.total);
    out.part(s, v.at);
}

// The public key, the signature and the hash of a payload that was read.
fn signed_by(s: &[u8], public: usize, sig: usize, hash: usize, out: &mut Output) {
    for (start, len) in [(public, 32), (sig, 64), (hash, 32)] {
        out.part(s, Span { start, len });
    }
}

// PUB, SIG and HASH (D2.7).
fn claim_values(s: &[u8], v: Claimed, out: &mut Output) {
    signed_by(s, v.public, v.sig, v.hash, out);
}

// Nine values, the type as the bytes of its text (D2.8).
fn shard_values(s: &[u8], v: Shard, out: &mut Output) {
    signed_by(s, v.public, v.sig, v.hash, out);
    out.part(s, v.content.kind);
    out.part(s, v.content.share);
    out.number(v.content.length);
    out.number(v.quorum.threshold);
    out.number(v.quorum.count);
    out.number(v.quorum.index);
}

// A digest or an id, which no call refuses.
fn sum(bytes: &[u8], out: &mut Output) {
    out.done();
    out.bytes(bytes);
}

// The reply to a line of this group; false for any other line.
pub(crate) fn call(call: Call, out: &mut Output) -> bool {
    if !call.has(&[Bytes]) {
        return false;
    }
    let s = call.bytes(1);
    match call.word(0) {
        // A varint, and how many bytes it takes: more may follow (D2.1).
        b"varint-read" => out.told(varint::read(s, 0), |out, (n, next)| {
            out.number(n);
            out.number(next as u64);
        }),
        // Four bytes, big-endian (D2.3).
        b"crc" => sum(&crc::crc32(s).to_be_bytes(), out),
        // 32 bytes each, the second without key (D2.3).
        b"sha256" => sum(&sha256::sha256(s), out),
        b"blake2b" => sum(&blake2b::blake2b(s), out),
        // The id that a ciphertext has (D2.3).
        b"doc-id" => sum(&document_id::of(s), out),
        b"frame-read" => out.told(frame::read(s), |out, v| frame_values(s, v, out)),
        b"auth-read" => out.told(auth::read(s), |out, v| claim_values(s, v, out)),
        b"shard-read" => out.told(shard::read(s), |out, v| shard_values(s, v, out)),
        b"manifest-read" => out.told(manifest::read(s), |out, (v, _)| {
            listings::manifest_values(s, v, out)
        }),
        // The manifest and the payload, as bytes (D2.11).
        b"envelope-read" => out.told(envelope::read(s), |out, v| {
            out.part(s, v.manifest);
            out.part(s, v.payload);
        }),
        // A float, by the 64 bits of its double, and how many bytes it takes (D2.12).
        b"float-read" => out.told(cbor::read::float(s, 0), |out, (bits, next)| {
            out.digits(bits, 16);
            out.number(next as u64);
        }),
        _ => return false,
    }
    true
}
