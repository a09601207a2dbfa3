// What a frame and an envelope begin with: magic, which the caller gives, and version 1 (R6.1,
// R14.1).
//
// What is laid out is read (`mark_reads`), and what is read is exactly that (`mark_was`).
#![tactic(auto)]

ghost use Rattle.std.specs.Prelude.{◌≡◌};
ghost use Rattle.wire.specs.Over.{over};
ghost use Rattle.wire.specs.Reading.{step_told};
ghost use Rattle.mark.specs.Mark.{version_at, mark_of, marked};

use wire::Refusal;

fn version(s: &[u8], at: usize) -> Result<usize, Refusal>
    ensures { step_told result ≡ version_at s.now at }
{
    // stays (1): R18.4 wants `let .. else` here, and not `?`
    let r = varint::read(s, at);
    let Ok((n, next)) = r else {
        return Err(r.unwrap_err());
    };
    if n != 1 {
        return Err(Refusal::BadVersion);
    }
    Ok(next)
}

// The position past the magic and version 1 at the front of s; or the first fault: 3, 4, 5 or 7.
pub fn read(magic: &[u8], s: &[u8]) -> Result<usize, Refusal>
    ensures { step_told result ≡ mark_of magic.now s.now }
{
    let n = magic.len();
    if s.len() < n {
        return Err(Refusal::CutOrLeftOver);
    }
    if !lend::equal(&s[..n], magic) {
        return Err(Refusal::BadMagic);
    }
    version(s, n)
}

// The magic and version 1 at the front of out. Nothing changes where they do not fit.
pub fn lay(magic: &[u8], out: &mut [u8])
    ensures { out.new ≡ over 0 (marked magic.now) out.old }
{
    let n = magic.len();
    if out.len() <= n {
        return;
    }
    lend::copy(out, 0, magic);
    let _ = varint::write(1, out, n);
}
