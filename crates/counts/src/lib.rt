// The public functions. Each takes any input; specs/Solver.antt defines what it answers and leaves.
#![tactic(auto)]

pub mod answer;
mod augment;
mod check;
mod components;
mod constraint;
mod cost;
mod graph;
mod limits;
pub mod ranges;
mod search;
mod solve;

ghost use Rattle.std.specs.Prelude.{◌≡◌};
ghost use Rattle.counts.specs.Cost.{by, within};
ghost use Rattle.counts.specs.Solver.{energy_of, energy, hold_of, constraints_hold, expansions, round_of, round, solve_of, solve};

use crate::answer::RoundOutcome;
use crate::check::{check_energy, check_round, check_solve};
use crate::constraint::regions_hold;
use crate::cost::total_energy;
use crate::graph::build_graph;
use crate::limits::{DEFAULT_LIMIT, EDGE_SLOTS, NO_ENTRY};
use crate::ranges::Ranges;
use crate::solve::{make_round, solve_from_zeros};
use base::refusal::Refusal;
use regions::accept::check_limits;

// One round, with a least and a most for each edge: the move found, if there is one, is made on the counts.
pub fn round_within(
    regions: &[u16],
    ranges: Ranges,
    counts: &mut [u32],
    limit: Option<u32>,
) -> Result<RoundOutcome, Refusal>
    ensures { let spacing = within ranges.entry.least.now ranges.entry.most.now in
        round_of result counts.new ≡ round regions.now spacing counts.old (expansions limit) }
{
    let limit = limit.unwrap_or(DEFAULT_LIMIT);
    check_round(regions, ranges, counts, limit)?;
    let mut incident = [NO_ENTRY; EDGE_SLOTS];
    let mut own = [0; EDGE_SLOTS];
    build_graph(regions, ranges.least.len(), &mut incident, &mut own)?;
    Ok(make_round(regions, &incident, &own, ranges, counts, limit))
}

// One round, with an ideal for each edge: a range whose ends are equal.
pub fn round(
    regions: &[u16],
    ideals: &[f64],
    counts: &mut [u32],
    limit: Option<u32>,
) -> Result<RoundOutcome, Refusal>
    ensures { let ideal = by ideals.now in
        round_of result counts.new ≡ round regions.now ideal counts.old (expansions limit) }
{
    let ranges = Ranges {
        least: ideals,
        most: ideals,
    };
    round_within(regions, ranges, counts, limit)
}

// The counts of every edge, with a least and a most for each: from zeros, round after round until one finds no move. The lent counts are output.
pub fn solve_counts_within(
    regions: &[u16],
    ranges: Ranges,
    counts: &mut [u32],
    limit: Option<u32>,
) -> Result<u32, Refusal>
    ensures { let spacing = within ranges.entry.least.now ranges.entry.most.now in
        solve_of result counts.new ≡ solve regions.now spacing counts.old (expansions limit) }
{
    let limit = limit.unwrap_or(DEFAULT_LIMIT);
    let room = counts.len();
    check_solve(regions, ranges, room, limit)?;
    let mut incident = [NO_ENTRY; EDGE_SLOTS];
    let mut own = [0; EDGE_SLOTS];
    let n = ranges.least.len();
    build_graph(regions, n, &mut incident, &mut own)?;
    solve_from_zeros(regions, &incident, &own, ranges, &mut counts[..n], limit)
}

// The counts of every edge, with an ideal for each.
pub fn solve_counts(
    regions: &[u16],
    ideals: &[f64],
    counts: &mut [u32],
    limit: Option<u32>,
) -> Result<u32, Refusal>
    ensures { let ideal = by ideals.now in
        solve_of result counts.new ≡ solve regions.now ideal counts.old (expansions limit) }
{
    let ranges = Ranges {
        least: ideals,
        most: ideals,
    };
    solve_counts_within(regions, ranges, counts, limit)
}

// The energy of the counts: the sum of (s/ideal - 1)² over the edges.
#[tactic(auto, using(crate::proofs::check::Laws::chains, crate::proofs::SolverLaws::energy_lengths), unfolding(crate::specs::Solver::energy, crate::specs::Solver::energy_of))]
pub fn energy(counts: &[u32], ideals: &[f64]) -> Result<f64, Refusal>
    ensures { energy_of result ≡ energy counts.now ideals.now }
{
    check_energy(counts, ideals)?;
    Ok(total_energy(counts, ideals))
}

// Whether opposite sides of every region add up to the same; where an edge number is not below the number of counts, they do not.
#[tactic(auto, using(crate::proofs::check::Laws::chains, regions::proofs::accept::Laws::limits_passed), unfolding(crate::specs::Solver::constraints_hold, crate::specs::Solver::hold_of))]
pub fn constraints_hold(regions: &[u16], counts: &[u32]) -> Result<bool, Refusal>
    ensures { hold_of result ≡ constraints_hold regions.now counts.now }
{
    check_limits(regions, counts.len())?;
    Ok(regions_hold(regions, counts))
}
