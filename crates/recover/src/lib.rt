// Recovering a secret from the wardens' slips (R19.6 to R19.9).
//
// Any slips of one split, as many as its threshold says, give the secret back in whatever order
// they come (`secret_back`: recover, Back), and one beyond them that was changed is told
// (`changed_told`: recover, Changed). The curve is found by Newton's differences, since each takes
// one division; what is promised says nothing of that, but which curve it is.
#![tactic(auto)]

mod judge;
mod newton;
mod slip;
mod slips;

ghost use Rattle.std.specs.Prelude.{◌≡◌, true, [], map, ◌*◌, ◌≤◌, ◌<◌, eqb, length, get_or, drop};
ghost use Rattle.wire.specs.Answer.{demand};
ghost use Rattle.wire.specs.Every.{every};
ghost use Rattle.wire.specs.Over.{over};
ghost use Rattle.wire.specs.Writing.{Written};
ghost use Rattle.curve.specs.Curve.{through_at};
ghost use Rattle.split.specs.Split.{blocks_in};
ghost use Rattle.recover.specs.Recover.{slips_at, points, on_curves, values_at0, unfilled, combined, recovered, of_one_secret};
ghost use Rattle.recover.specs.Private.{slip_in, fitting, reads, element_in, kept};

use newton::Point;
use slip::Needs;
use slips::Slips;
use wire::Refusal;

// No slip needs more than so many, itself among them (R11.6).
const MOST_NEEDED: usize = 255;

// The value at 0 of the curve of block k through as many of the first slips as there is room for
// points, where every further slip is on it.
fn found(slips: &Slips, k: usize, curve: &mut [Point]) -> Option<[u64; 2]>
    requires { (length curve.old ≤ length slips.now) × (k < 14) }
    ensures { element_in result ≡ kept (fitting (length curve.old) k slips.now) (through_at (length curve.old) (points k (map slip_in slips.now)) 0) }
{
    newton::lay(slips, k, curve);
    if !newton::fits(slips, k, curve) {
        return None;
    }
    Some(newton::value(curve, 0))
}

// stays (5): t, of which three contracts say that there are so many slips and at most 255, is read
// from the first slip beside the secret's length, and goes down this one path.
//
// Block k of the secret, where every slip behind the first t is on its curve.
fn block(slips: &Slips, t: usize, k: usize) -> Option<[u64; 2]>
    requires { (t ≤ length slips.now) × (t ≤ 255) × (k < 14) }
    ensures { element_in result ≡ kept (fitting t k slips.now) (through_at t (points k (map slip_in slips.now)) 0) }
{
    let mut curve = [Point { x: 0, d: [0, 0] }; MOST_NEEDED];
    found(slips, k, &mut curve[..t])
}

// All blocks of the secret, one behind the other; false where a further slip is off a curve.
fn blocks(slips: &Slips, t: usize, count: usize, secret: &mut [u8]) -> bool
    requires { (t ≤ length slips.now) × (t ≤ 255) × (count ≤ 14) × (count * 16 ≤ length secret.old) }
    ensures { (result ≡ on_curves count 0 t (map slip_in slips.now) (drop t (map slip_in slips.now))) × (result ≡ true → secret.new ≡ over 0 (values_at0 count 0 t (map slip_in slips.now)) secret.old) }
{
    for k in 0..count {
        let Some(value) = block(slips, t, k) else {
            return false;
        };
        lend::copy(secret, k * 16, &field::bytes(value));
    }
    true
}

fn all_zeros(bs: &[u8]) -> bool
    ensures { result ≡ every (λ b. eqb b 0) bs.now }
{
    bs.iter().all(|b| *b == 0)
}

// The secret, where the slips fit each other.
fn secret(slips: &Slips, t: usize, len: usize, out: &mut [u8]) -> Result<usize, Refusal>
    requires { (t ≤ length slips.now) × (t ≤ 255) × (len ≤ 224) }
    ensures { Written 0 (demand (on_curves (blocks_in len) 0 t (map slip_in slips.now) (drop t (map slip_in slips.now))) 29 (unfilled len (values_at0 (blocks_in len) 0 t (map slip_in slips.now)))) out.old out.new result }
{
    let count = (len + 15) / 16;
    let mut filled = [0u8; wire::MOST_SHARE];
    if !blocks(slips, t, count, &mut filled) {
        return Err(Refusal::OffTheCurve);
    }
    let end = count * 16;
    if !all_zeros(&filled[len..end]) {
        return Err(Refusal::BadPadding);
    }
    lend::give(&filled[0..len], out)
}

// The secret of slips that were all read.
fn combine(slips: &Slips, first: Needs, out: &mut [u8]) -> Result<usize, Refusal>
    requires { (0 < length slips.now) × (first.threshold ≡ (slip_in (get_or slips.now 0 [])).threshold) × (first.len ≡ (slip_in (get_or slips.now 0 [])).len) × (first.threshold ≤ 255) × (first.len ≤ 224) }
    ensures { Written 0 (combined (map slip_in slips.now)) out.old out.new result }
{
    if slips.count() < first.threshold {
        return Err(Refusal::TooFewSlips);
    }
    let alike = judge::all_alike(slips);
    let distinct = judge::all_distinct(slips);
    if !alike {
        return Err(Refusal::UnlikeSlips);
    }
    if !distinct {
        return Err(Refusal::SlipTwice);
    }
    secret(slips, first.threshold, first.len, out)
}

// The secret of slips at the front of out, and its length; or the refusal, and nothing changed. The
// slips are shard payloads, which stand in s where starts and lens say; of a longer one of these
// two the rest is not looked at. First comes the refusal of the first slip that is none; then 26
// for too few, 27 for slips of two secrets, 28 for a number twice, 29 for a slip that does not fit
// the first ones, 30 for a last block that is not filled with zeros, and 11.
//
// stays (6): one list of spans would ask more of callers, who may lend two lists of unlike lengths
// (`slips_at`, in this clause).
pub fn recover(s: &[u8], starts: &[usize], lens: &[usize], out: &mut [u8]) -> Result<usize, Refusal>
    ensures { Written 0 (recovered (slips_at s.now starts.now lens.now)) out.old out.new result }
{
    let slips = Slips::new(s, starts, lens);
    judge::all_read(&slips)?;
    if slips.count() < 1 {
        return Err(Refusal::TooFewSlips);
    }
    let first = slip::terms(slips.payload(0));
    combine(&slips, first, out)
}

fn is_slip(payload: &[u8]) -> bool
    ensures { result ≡ reads payload.now }
{
    shard::read(payload).is_ok()
}

// True exactly where two payloads are slips of one secret: both are read, and they have the same
// type, threshold, count, length, hash and key.
//
// For whoever is told 27, and looks for the slip that does not belong to the others.
pub fn alike(a: &[u8], b: &[u8]) -> bool
    ensures { result ≡ of_one_secret a.now b.now }
{
    is_slip(a) && is_slip(b) && slip::agree(a, b)
}
