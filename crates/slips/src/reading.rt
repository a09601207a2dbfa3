// The text of one slip, read: bytes, a frame, a key frame, a shard (R15.19).
ghost use Rattle.wire.specs.Span.{part_at};
ghost use Rattle.typed.specs.Typed.{ReadLines};
ghost use Rattle.frame.specs.Frame.{frame_of};
ghost use Rattle.shard.specs.Shard.{shard_at};
ghost use Rattle.slips.specs.Slip.{text_in, shard_seen, frame_seen, slip_seen, Told};

use crate::{NoSlip, Share};
use frame::Kind;
use wire::{RefusedAt, Span};

// No good frame has more bytes.
const FRAME_ROOM: usize = 500;

fn bytes(text: &[u8], typed: bool, room: &mut [u8]) -> Result<usize, RefusedAt>
    ensures { ReadLines (text_in typed text.now) room.old room.new result }
{
    if typed {
        return typed::read(text, room);
    }
    Ok(text::base64_read(text, room)?)
}

// A key frame, whose data stand at this place.
fn slip(bytes: &[u8], at: Span, out: &mut [u8]) -> Result<Share, NoSlip>
    ensures { Told (shard_seen bytes.now at (shard_at (part_at bytes.now at))) out.old out.new result }
{
    match shard::read(lend::part(bytes, at)) {
        Err(why) => Err(NoSlip::Shard(why)),
        Ok(shard) => match lend::give(bytes, out) {
            Err(_) => Err(NoSlip::Short),
            Ok(len) => Ok(Share {
                len,
                payload: at,
                quorum: shard.quorum,
            }),
        },
    }
}

fn framed(bytes: &[u8], out: &mut [u8]) -> Result<Share, NoSlip>
    ensures { Told (frame_seen bytes.now (frame_of bytes.now)) out.old out.new result }
{
    match frame::read(bytes) {
        Err(why) => Err(NoSlip::Frame(why)),
        Ok(frame) => match frame.kind {
            Kind::Key => slip(bytes, frame.at, out),
            kind => Err(NoSlip::Other(kind)),
        },
    }
}

pub(super) fn read(text: &[u8], typed: bool, out: &mut [u8]) -> Result<Share, NoSlip>
    ensures { Told (slip_seen typed text.now) out.old out.new result }
{
    let mut room = [0u8; FRAME_ROOM];
    match bytes(text, typed, &mut room) {
        Err(why) => Err(NoSlip::Text(why)),
        Ok(len) => framed(&room[..len], out),
    }
}
