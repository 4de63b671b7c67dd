// Lay: the grid of one region, given as just one record, from counts, breaks and curves.
ghost use Rattle.std.specs.Prelude.{◌≡◌, false, ◌||◌, ltb};
ghost use Rattle.base.specs.Refusal.{outcome, then_test};
ghost use Rattle.curves.specs.Coons.{outcome_of};
ghost use Rattle.curves.specs.Lay.{tile_input, record_test, edges_test, breaks_test, lay_test, lay};
ghost use Rattle.curves.specs.Limits.{max_seam};
ghost use Rattle.curves.specs.inner.Curves.{lent};
ghost use Rattle.curves.specs.inner.Lays.{EdgesGiven, Counted, SideGiven, SideLaid, FourShort, lent_input};

use crate::coons::{check_curve_limits, coons_from_parameters};
use crate::limits::MAX_SEAM;
use crate::seam::side_seam;
use crate::sides::Sides;
use base::refusal::Refusal;
use regions::accept::check_limits;
use regions::region::{PLACES, RECORD_SIZE, empty_pair, side};

// The edges of a side.
const MAX_ALONG: usize = PLACES as usize;

// 1: not just one record, or a limit exceeded; n is the number of counts.
#[tactic(auto, unfolding(base::specs::Refusal::verdict_of, crate::specs::Lay::record_test))]
fn check_record(region: &[u16], n: usize) -> Result<(), Refusal>
    ensures { outcome result ≡ record_test region.now n }
{
    if region.len() != RECORD_SIZE {
        return Err(Refusal::Malformed);
    }
    check_limits(region, n)
}

// 3 along side k: an edge without a count.
fn check_edges(region: &[u16], n: usize, k: u32) -> Result<(), Refusal>
    ensures { outcome result ≡ edges_test region.now n k }
{
    if side(region, k).iter().all(|e| usize::from(*e) < n) {
        return Ok(());
    }
    Err(Refusal::EdgeOutOfRange(0, k))
}

fn check_all_edges(region: &[u16], n: usize) -> Result<(), Refusal>
    ensures { let on = edges_test region.now n in
        outcome result ≡ then_test (on 0) (then_test (on 1) (then_test (on 2) (on 3))) }
{
    check_edges(region, n, 0)?;
    check_edges(region, n, 1)?;
    check_edges(region, n, 2)?;
    check_edges(region, n, 3)
}

// 27 of side k: one break more than edges. The breaks of an empty pair are not read, so there may be any number of them.
#[tactic(auto, unfolding(base::specs::Refusal::verdict_of, crate::specs::Lay::breaks_test))]
fn check_breaks(region: &[u16], breaks: &[f64], k: u32) -> Result<(), Refusal>
    ensures { outcome result ≡ breaks_test region.now breaks.now k }
{
    let unread = empty_pair(region, k);
    if !unread && breaks.len() != side(region, k).len() + 1 {
        return Err(Refusal::BreaksMismatch(k));
    }
    Ok(())
}

fn check_all_breaks(region: &[u16], breaks: Sides<&[f64]>) -> Result<(), Refusal>
    ensures { let on = breaks_test region.now in let b = lent breaks.entry in
        outcome result ≡ then_test (on b.bottom 0) (then_test (on b.right 1)
        (then_test (on b.top 2) (on b.left 3))) }
{
    check_breaks(region, breaks.bottom, 0)?;
    check_breaks(region, breaks.right, 1)?;
    check_breaks(region, breaks.top, 2)?;
    check_breaks(region, breaks.left, 3)
}

// What lay tests before it makes its seams.
fn check_lay(
    region: &[u16],
    n: usize,
    breaks: Sides<&[f64]>,
    curves: Sides<&[f64]>,
) -> Result<(), Refusal>
    ensures { outcome result ≡ lay_test region.now n (lent_input breaks.entry curves.entry) }
{
    check_record(region, n)?;
    check_curve_limits(curves)?;
    check_all_edges(region, n)?;
    check_all_breaks(region, breaks)
}

// Writes the counts of a side's edges, and returns what they add up to. 64 bits hold it: a side has few edges.
fn counts_along(edges: &[u16], counts: &[u32], out: &mut [u32]) -> usize
    requires { EdgesGiven edges.now counts.now out.old }
    ensures { Counted edges.now counts.now out.old out.new result }
{
    let mut total = 0;
    for (i, e) in edges.iter().enumerate() {
        let n = counts[usize::from(*e)];
        out[i] = n;
        total += n as usize;
    }
    total
}

// Writes the seam of side k, unless it is too long, and returns how many values it has. Across an empty pair there is one cell.
fn lay_side(region: &[u16], counts: &[u32], k: u32, breaks: &[f64], out: &mut [f64]) -> usize
    requires { SideGiven region.now counts.now k breaks.now out.old }
    ensures { SideLaid region.now counts.now k breaks.now out.new result }
{
    if empty_pair(region, k) {
        out[0] = 0.0;
        out[1] = 1.0;
        return 2;
    }
    let edges = side(region, k);
    let mut along = [0u32; MAX_ALONG];
    let total = counts_along(edges, counts, &mut along);
    if total >= MAX_SEAM {
        return total + 1;
    }
    let n = edges.len();
    side_seam(breaks, &along[..n], out)
}

// Whether a seam has too many values, of the four numbers of them.
fn any_too_long(lengths: Sides<usize>) -> bool
    ensures value { result ≡ (ltb max_seam lengths.bottom || (ltb max_seam lengths.top
        || (ltb max_seam lengths.left || ltb max_seam lengths.right))) }
    ensures four_short { result ≡ false → FourShort lengths }
{
    lengths.bottom > MAX_SEAM
        || lengths.top > MAX_SEAM
        || lengths.left > MAX_SEAM
        || lengths.right > MAX_SEAM
}

// The grid of one region: its seams from counts and breaks, then the grid of its curves by them. Answers how many quads it has.
pub fn lay_region(
    region: &[u16],
    counts: &[u32],
    breaks: Sides<&[f64]>,
    curves: Sides<&[f64]>,
    out: &mut [f64],
) -> Result<u32, Refusal>
    ensures { let b = breaks.entry in let c = curves.entry in
        let f = tile_input b.bottom.now b.right.now b.top.now b.left.now
        c.bottom.now c.right.now c.top.now c.left.now in
        outcome_of result out.new ≡ lay region.now counts.now f out.old }
{
    check_lay(region, counts.len(), breaks, curves)?;
    let mut bottom_u = [0.0; MAX_SEAM];
    let mut right_v = [0.0; MAX_SEAM];
    let mut top_u = [0.0; MAX_SEAM];
    let mut left_v = [0.0; MAX_SEAM];
    let lengths = Sides {
        bottom: lay_side(region, counts, 0, breaks.bottom, &mut bottom_u),
        right: lay_side(region, counts, 1, breaks.right, &mut right_v),
        top: lay_side(region, counts, 2, breaks.top, &mut top_u),
        left: lay_side(region, counts, 3, breaks.left, &mut left_v),
    };
    if any_too_long(lengths) {
        return Err(Refusal::Malformed);
    }
    let seams = Sides {
        bottom: &bottom_u[..lengths.bottom],
        right: &right_v[..lengths.right],
        top: &top_u[..lengths.top],
        left: &left_v[..lengths.left],
    };
    coons_from_parameters(curves, seams, out)
}
