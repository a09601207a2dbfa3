// Key and auth frames (R7.5). Each carries one payload that its reader accepts.
//
// Such a frame reads back as its type, id and payload, the first of one, and carries only what the
// payload's reader accepts (`payload_frame_reads`, `payload_frame_carried`: payload_frame, Round).
// Whatever a payload's writer wrote is carried under any id of 8 bytes (`shard_carried`,
// `auth_carried`; of the calls themselves `Carries`: promises, Demand2), in at most 500 bytes
// (`payload_frame_short`). Other data above 480 bytes are 9.
#![tactic(auto)]

ghost use Rattle.std.specs.Prelude.{◌≡◌};
ghost use Rattle.wire.specs.Answer.{Answer};
ghost use Rattle.wire.specs.Writing.{Written};
ghost use Rattle.frame.specs.Kind.{type_byte};
ghost use Rattle.payload_frame.specs.Payload.{payload_frame_of, key_frame, auth_frame};
ghost use Rattle.payload_frame.specs.Private.{Reads};

use frame::Kind;
use wire::Refusal;

// A frame that is the first of one, of a payload that `read` accepts (R7.5).
fn carry<T: Drop, F: FnOnce(&[u8]) -> Result<T, Refusal>>(
    read: F,
    kind: Kind,
    id: &[u8],
    contents: &[u8],
    out: &mut [u8],
) -> Result<usize, Refusal>
    requires { F.IsAlwaysCallable read }
    ensures { (g : Answer Unit) → Reads (F.post read) contents.now g → Written 0 (payload_frame_of (type_byte kind) id.now contents.now g) out.old out.new result }
{
    let Ok(eight) = <&[u8; wire::ID_SIZE]>::try_from(id) else {
        return Err(Refusal::OutOfRange);
    };
    if wire::MOST_DATA < contents.len() {
        return Err(Refusal::TooLarge);
    }
    let _ = read(contents)?;
    frame::lay(u8::from(kind), eight, 0, 1, contents, out)
}

// A key frame, which carries one shard, at the front of out; or 19, 9, the shard reader's refusal,
// 11, and nothing changed.
pub fn key(id: &[u8], contents: &[u8], out: &mut [u8]) -> Result<usize, Refusal>
    ensures { Written 0 (key_frame id.now contents.now) out.old out.new result }
{
    carry(shard::read, Kind::Key, id, contents, out)
}

// An auth frame at the front of out; or 19, 9, the auth reader's refusal, 11, and nothing changed.
pub fn auth(id: &[u8], contents: &[u8], out: &mut [u8]) -> Result<usize, Refusal>
    ensures { Written 0 (auth_frame id.now contents.now) out.old out.new result }
{
    carry(auth::read, Kind::Auth, id, contents, out)
}
