// The curve of one block in Newton's form: where its points are, and by how much each leaves the
// curve of those before it. From that its value anywhere takes one product and one sum a point.
ghost use Rattle.std.specs.Prelude.{◌≡◌, map, ◌≤◌, ◌<◌, length};
ghost use Rattle.field.specs.Element.{joined};
ghost use Rattle.recover.specs.Recover.{points};
ghost use Rattle.recover.specs.Private.{slip_in, left, newton_at, xs_of, ds_of, Laid, fitting};

use super::slip;
use super::slips::Slips;

// A point: its place, and by how much it leaves the curve of the points before it.
#[derive(Clone, Copy)]
pub(super) struct Point {
    pub x: u8,
    pub d: [u64; 2],
}

// What is left of the value y at x once the curve of the points before it is taken off, by the
// distance from each of them.
fn left(before: &[Point], x: u8, y: [u64; 2]) -> [u64; 2]
    ensures { joined result ≡ left (xs_of before.now) (ds_of before.now) x (joined y) }
{
    let mut rest = y;
    for p in before {
        let s = field::sum(rest, p.d);
        let q = field::over(s, x ^ p.x);
        rest = q;
    }
    rest
}

// The value at x.
pub(super) fn value(curve: &[Point], x: u8) -> [u64; 2]
    ensures { joined result ≡ newton_at (xs_of curve.now) (ds_of curve.now) x }
{
    let mut made = [0u64; 2];
    for k in (0..curve.len()).rev() {
        let p = field::scale(made, x ^ curve[k].x);
        let s = field::sum(curve[k].d, p);
        made = s;
    }
    made
}

// The curve of block k through as many of the first slips as it has points.
pub(super) fn lay(slips: &Slips, k: usize, curve: &mut [Point])
    requires { (length curve.old ≤ length slips.now) × (k < 14) }
    ensures { Laid (length curve.old) (points k (map slip_in slips.now)) curve.new × (length curve.new ≡ length curve.old) }
{
    for i in 0..curve.len() {
        let p = slips.payload(i);
        let x = slip::index(p);
        let y = slip::block(p, k);
        let d = left(&curve[..i], x, y);
        curve[i] = Point { x, d };
    }
}

// Whether each slip behind those of the curve is on it.
pub(super) fn fits(slips: &Slips, k: usize, curve: &[Point]) -> bool
    requires { (length curve.now ≤ length slips.now) × (k < 14) × Laid (length curve.now) (points k (map slip_in slips.now)) curve.now }
    ensures { result ≡ fitting (length curve.now) k slips.now }
{
    for i in curve.len()..slips.count() {
        let further = slips.payload(i);
        let there = value(curve, slip::index(further));
        if there != slip::block(further, k) {
            return false;
        }
    }
    true
}
