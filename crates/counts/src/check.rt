// The tests that turn input away before any work is done: those of values (specs/Values.antt), then what a round, a solve and an energy test in a
// row (specs/Solver.antt). Those of the records are in the crate regions.
#![tactic(auto, using(crate::proofs::check::Laws::chains, crate::proofs::EqualEnds::values_same), unfolding(base::specs::Refusal::verdict_of, regions::specs::Accept::limits_test, regions::specs::Accept::records_whole, regions::specs::Accept::records_test, crate::specs::inner::Checks::round_head, crate::specs::inner::Checks::solve_head, crate::specs::Solver::round_order, crate::specs::Solver::solve_order, crate::specs::Solver::energy_test))]

ghost use Rattle.std.specs.Prelude.{◌≡◌, [], ◌≤◌, length};
ghost use Rattle.regions.specs.Region.{places};
ghost use Rattle.base.specs.Refusal.{outcome};
ghost use Rattle.counts.specs.Cost.{within};
ghost use Rattle.regions.specs.Accept.{limits_test, max_edges};
ghost use Rattle.counts.specs.Values.{ranges_test, counts_test, limit_test, spacing_limits, values_test};
ghost use Rattle.counts.specs.inner.Checks.{round_head, solve_head};
ghost use Rattle.counts.specs.Solver.{energy_test};

use crate::limits::{MAX_COUNT, MAX_LIMIT};
use crate::ranges::Ranges;
use base::refusal::Refusal;
use floats::scalar::is_positive;
use regions::accept::{check_limits, check_records};
use regions::region::MAX_EDGES;

// 2, an end of a range that is not finite or not above 0; then 35, a least above its most.
fn check_ranges(ranges: Ranges) -> Result<(), Refusal>
    requires { length ranges.least.now ≤ max_edges }
    ensures { outcome result ≡ ranges_test ranges.entry.least.now ranges.entry.most.now }
{
    let bad = ranges
        .least
        .iter()
        .zip(ranges.most)
        .position(|(low, high)| !(is_positive(*low) && is_positive(*high)));
    if let Some(edge) = bad {
        return Err(Refusal::BadIdeal(edge as u32));
    }
    let reversed = ranges
        .least
        .iter()
        .zip(ranges.most)
        .position(|(low, high)| *high < *low);
    if let Some(edge) = reversed {
        return Err(Refusal::RangeReversed(edge as u32));
    }
    Ok(())
}

// 9: a count over 1,000,000.
fn check_counts(counts: &[u32]) -> Result<(), Refusal>
    requires { length counts.now ≤ max_edges }
    ensures { outcome result ≡ counts_test counts.now }
{
    if let Some(edge) = counts.iter().position(|count| *count > MAX_COUNT) {
        return Err(Refusal::CountTooLarge(edge as u32));
    }
    Ok(())
}

// 10: a limit over 100,000.
fn check_limit(limit: u32) -> Result<(), Refusal>
    ensures { outcome result ≡ limit_test limit }
{
    if limit > MAX_LIMIT {
        return Err(Refusal::LimitTooLarge);
    }
    Ok(())
}

// 1, of both lists of ranges.
fn check_spacing_limits(regions: &[u16], ranges: Ranges) -> Result<(), Refusal>
    ensures { outcome result ≡ spacing_limits places (within ranges.entry.least.now ranges.entry.most.now) regions.now }
{
    check_limits(regions, ranges.least.len())?;
    check_limits(regions, ranges.most.len())
}

// 8, then 2 and 35, then 9: as many counts as ranges, and each value as it should be.
fn check_values(counts: &[u32], ranges: Ranges) -> Result<(), Refusal>
    requires { length counts.now ≤ max_edges }
    ensures { outcome result ≡ values_test counts.now (within ranges.entry.least.now ranges.entry.most.now) }
{
    if ranges.least.len() != ranges.most.len() || counts.len() != ranges.least.len() {
        return Err(Refusal::LengthsDiffer);
    }
    check_ranges(ranges)?;
    check_counts(counts)
}

// What a round tests before it builds its tables.
pub(crate) fn check_round(
    regions: &[u16],
    ranges: Ranges,
    counts: &[u32],
    limit: u32,
) -> Result<(), Refusal>
    ensures { let spacing = within ranges.entry.least.now ranges.entry.most.now in
        outcome result ≡ round_head places regions.now spacing counts.now limit }
{
    check_spacing_limits(regions, ranges)?;
    check_limits(regions, counts.len())?;
    check_limit(limit)?;
    check_values(counts, ranges)?;
    check_records(regions, ranges.least.len())
}

// What solve tests before it builds its tables; room is the length of the lent counts.
pub(crate) fn check_solve(
    regions: &[u16],
    ranges: Ranges,
    room: usize,
    limit: u32,
) -> Result<(), Refusal>
    ensures { let spacing = within ranges.entry.least.now ranges.entry.most.now in
        outcome result ≡ solve_head places regions.now spacing room limit }
{
    // both are made, so that their order is a fact of its own
    check_spacing_limits(regions, ranges).and(check_limit(limit))?;
    if ranges.least.len() != ranges.most.len() {
        return Err(Refusal::LengthsDiffer);
    }
    if room < ranges.least.len() {
        return Err(Refusal::OutputTooShort);
    }
    check_ranges(ranges)?;
    check_records(regions, ranges.least.len())
}

// 1 where there are no regions: n is the length of a list with an entry for each edge.
fn check_edges(n: usize) -> Result<(), Refusal>
    ensures { outcome result ≡ limits_test places n [] }
{
    if n > MAX_EDGES {
        return Err(Refusal::Malformed);
    }
    Ok(())
}

// What energy tests; an ideal is a range whose ends are equal.
pub(crate) fn check_energy(counts: &[u32], ideals: &[f64]) -> Result<(), Refusal>
    ensures { outcome result ≡ energy_test counts.now ideals.now }
{
    check_edges(ideals.len())?;
    check_edges(counts.len())?;
    let ranges = Ranges {
        least: ideals,
        most: ideals,
    };
    check_values(counts, ranges)
}
