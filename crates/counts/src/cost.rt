// What a change of one edge costs, for every edge of a round; and the energy of counts.
ghost use Rattle.std.specs.Prelude.{◌≡◌, true, false, length, ltb};
ghost use Rattle.std.specs.Float.Ieee.{of_bits, add, sub};
ghost use Rattle.std.specs.Float.{binary64};
ghost use Rattle.counts.specs.Cost.{deviation, square, step, range_deviation, range_delta, by_ranges, energy_from};
ghost use Rattle.counts.specs.inner.Tables.{set_both, MaySetCosts, MayFillCosts, CostsFilled};

use crate::limits::CHANGES;

// A reading is taken in place of another one only where it costs less by more than this: 01's E.
pub(crate) const EPS_IMPROVEMENT: f64 = 1e-12;

// s/ideal - 1
fn deviation(s: f64, ideal: f64) -> f64
    ensures { result ≡ deviation s ideal }
{
    s / ideal - 1.0
}

// The square as one product, rounded once.
fn square(x: f64) -> f64
    ensures { result ≡ square x }
{
    x * x
}

// A change's +1 or -1.
fn step(plus: bool) -> f64
    ensures { result ≡ step plus }
{
    if plus {
        return 1.0;
    }
    -1.0
}

// The deviation of s from a range: nothing inside it.
fn range_deviation(s: f64, least: f64, most: f64) -> f64
    ensures { result ≡ range_deviation s least most }
{
    if s < least {
        return deviation(s, least);
    }
    if most < s {
        return deviation(s, most);
    }
    0.0
}

// The square of the deviation: what an edge costs at the count s.
fn squared_deviation(s: f64, least: f64, most: f64) -> f64
    ensures { result ≡ square (range_deviation s least most) }
{
    square(range_deviation(s, least, most))
}

// What +1 or -1 costs an edge whose count is s and which costs `before` there.
fn edge_delta(s: f64, before: f64, least: f64, most: f64, plus: bool) -> f64
    ensures { result ≡ sub binary64 (square (range_deviation (add binary64 s (step plus)) least most)) before }
{
    let to = s + step(plus);
    squared_deviation(to, least, most) - before
}

// The entries of edge e, whose count is s: what +1 and -1 cost, and whether each is allowed, at 2e + 1 and at 2e.
pub(crate) fn set_costs(
    s: u32,
    least: f64,
    most: f64,
    e: usize,
    costs: &mut [f64; CHANGES],
    allowed: &mut [bool; CHANGES],
)
    requires { MaySetCosts e costs.old allowed.old }
    ensures { (costs.new ≡ set_both costs.old e (range_delta s least most true) (range_delta s least most false))
        × (allowed.new ≡ set_both allowed.old e true (ltb 0 s)) }
{
    let down = e * 2;
    let up = down + 1;
    let count = s as f64;
    let before = squared_deviation(count, least, most);
    costs[up] = edge_delta(count, before, least, most, true);
    costs[down] = edge_delta(count, before, least, most, false);
    allowed[up] = true;
    allowed[down] = s > 0;
}

// The entries of every edge.
pub(crate) fn fill_costs(
    counts: &[u32],
    least: &[f64],
    most: &[f64],
    costs: &mut [f64; CHANGES],
    allowed: &mut [bool; CHANGES],
)
    requires { MayFillCosts counts.now least.now most.now costs.old allowed.old }
    ensures { CostsFilled (length counts.now) counts.now (by_ranges least.now most.now)
        costs.new allowed.new }
{
    let mut e = 0usize;
    while e < counts.len() {
        let s = counts[e];
        let low = least[e];
        let high = most[e];
        set_costs(s, low, high, e, costs, allowed);
        e += 1;
    }
}

// The sum of the squared deviations, edge after edge.
pub(crate) fn total_energy(counts: &[u32], ideals: &[f64]) -> f64
    requires { length counts.now ≡ length ideals.now }
    ensures { result ≡ energy_from (of_bits binary64 0) counts.now ideals.now }
{
    let mut total = 0.0;
    let mut e = 0usize;
    while e < counts.len() {
        let s = counts[e];
        let ideal = ideals[e];
        total += square(deviation(s as f64, ideal));
        e += 1;
    }
    total
}
