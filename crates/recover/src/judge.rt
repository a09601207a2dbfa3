// What is asked of all slips before any of them is worked with (R19.7).
ghost use Rattle.std.specs.Prelude.{◌≡◌, map, ◌<◌, length};
ghost use Rattle.wire.specs.Answer.{then, done};
ghost use Rattle.wire.specs.Reading.{told};
ghost use Rattle.recover.specs.Recover.{read_slips, distinct};
ghost use Rattle.recover.specs.Private.{as_first, index_in};

use super::slip;
use super::slips::Slips;
use wire::Refusal;

// Whether each is read: the first refusal leaves at once (R18.4).
pub(super) fn all_read(slips: &Slips) -> Result<(), Refusal>
    ensures { told result ≡ then (read_slips slips.now) (λ vs. done tt) }
{
    for i in 0..slips.count() {
        shard::read(slips.payload(i))?;
    }
    Ok(())
}

// Whether each says of its secret what the first says.
pub(super) fn all_alike(slips: &Slips) -> bool
    requires { 0 < length slips.now }
    ensures { result ≡ as_first slips.now }
{
    let first = slips.payload(0);
    for i in 1..slips.count() {
        if !slip::agree(first, slips.payload(i)) {
            return false;
        }
    }
    true
}

// Whether no number comes twice.
pub(super) fn all_distinct(slips: &Slips) -> bool
    ensures { result ≡ distinct (map index_in slips.now) }
{
    let mut seen = [false; 256];
    for i in 0..slips.count() {
        let x = usize::from(slip::index(slips.payload(i)));
        if seen[x] {
            return false;
        }
        seen[x] = true;
    }
    true
}
