// Rounds and solves on tested input.
ghost use Rattle.std.specs.Prelude.{◌≡◌, length};
ghost use Rattle.counts.specs.Cost.{by_ranges};
ghost use Rattle.counts.specs.Round.{find_move, solve_from, solve_zeros, max_moves};
ghost use Rattle.counts.specs.Solver.{round_of, round_by, solve_of, solve_part};
ghost use Rattle.counts.specs.inner.Tables.{the_graph};
ghost use Rattle.counts.specs.inner.RoundContract.{SolveInput, RoundInput, RoundLent, MovesInput, MovesLent, MayMove, MoveApplied, solved_of};

use crate::answer::RoundOutcome;
use crate::augment::{apply_changes, find_augmentation, start_tables};
use crate::components::{label_edges, refresh_component};
use crate::limits::{CHANGES, EDGE_SLOTS, MARKS, MAX_AUGMENTATIONS, NO_CONSTRAINT, PATH_SIZE};
use crate::ranges::Ranges;
use crate::search::wide;
use base::refusal::Refusal;
use regions::region::MAX_EDGES;

fn wide_len(x: u32) -> usize
    ensures { result ≡ x }
{
    x as usize
}

// One round: the move found, if any, is made. The buffers are lent.
fn round_in(
    regions: &[u16],
    incident: &[u16; EDGE_SLOTS],
    own: &[u16; EDGE_SLOTS],
    ranges: Ranges,
    counts: &mut [u32],
    limit: u32,
    costs: &mut [f64; CHANGES],
    allowed: &mut [bool; CHANGES],
    used: &mut [bool; MARKS],
    path: &mut [u16; PATH_SIZE],
    best: &mut [u16; PATH_SIZE],
    kept: &mut [f64; CHANGES],
    cut: &mut [bool; CHANGES],
    known: &mut [bool; CHANGES],
) -> RoundOutcome
    requires { RoundLent regions.now incident.now own.now ranges.least.now ranges.most.now counts.old
        costs.old allowed.old used.old path.old best.old kept.old cut.old known.old }
    ensures { let before = counts.old in
        let model = by_ranges ranges.entry.least.now ranges.entry.most.now in
        round_of (Ok result) counts.new ≡ round_by (find_move (the_graph regions.now) model before limit) before }
{
    start_tables(counts, ranges.least, ranges.most, costs, allowed, known);
    let found = find_augmentation(
        regions,
        incident,
        own,
        costs,
        allowed,
        limit,
        used,
        path,
        best,
        kept,
        cut,
        known,
        counts.len(),
    );
    let len = wide_len(found.len);
    if len == 0 {
        return RoundOutcome {
            cost: None,
            cut: found.cut,
        };
    }
    apply_changes(counts, best, len);
    RoundOutcome {
        cost: Some(found.kept),
        cut: found.cut,
    }
}

pub(crate) fn make_round(
    regions: &[u16],
    incident: &[u16; EDGE_SLOTS],
    own: &[u16; EDGE_SLOTS],
    ranges: Ranges,
    counts: &mut [u32],
    limit: u32,
) -> RoundOutcome
    requires { RoundInput regions.now incident.now own.now ranges.least.now ranges.most.now counts.old }
    ensures { let before = counts.old in
        let model = by_ranges ranges.entry.least.now ranges.entry.most.now in
        round_of (Ok result) counts.new ≡ round_by (find_move (the_graph regions.now) model before limit) before }
{
    let mut costs = [0.0; CHANGES];
    let mut allowed = [false; CHANGES];
    let mut used = [false; MARKS];
    used[NO_CONSTRAINT] = true;
    let mut path = [0; PATH_SIZE];
    let mut best = [0; PATH_SIZE];
    let mut kept = [0.0; CHANGES];
    let mut cut = [false; CHANGES];
    let mut known = [false; CHANGES];
    round_in(
        regions,
        incident,
        own,
        ranges,
        counts,
        limit,
        &mut costs,
        &mut allowed,
        &mut used,
        &mut path,
        &mut best,
        &mut kept,
        &mut cut,
        &mut known,
    )
}

// The move made on the counts. The component of the farm that it touches gets new costs, and its results are forgotten.
fn make_move(
    counts: &mut [u32],
    ranges: Ranges,
    labels: &[u16; MAX_EDGES],
    best: &[u16; PATH_SIZE],
    len: usize,
    costs: &mut [f64; CHANGES],
    allowed: &mut [bool; CHANGES],
    known: &mut [bool; CHANGES],
)
    requires { MayMove counts.old ranges.least.now ranges.most.now best.now len costs.old allowed.old known.old }
    ensures { MoveApplied counts.old ranges.entry.least.now ranges.entry.most.now labels.now best.now len
        costs.old allowed.old known.old
        counts.new costs.new allowed.new known.new }
{
    apply_changes(counts, best, len);
    let first = wide(best[0]) / 2;
    let component = labels[first];
    refresh_component(
        labels,
        component,
        counts,
        ranges.least,
        ranges.most,
        costs,
        allowed,
        known,
    );
}

// Round after round until one finds no move: how many moves were made, or none if there is one too many. The buffers are lent.
fn moves_in(
    regions: &[u16],
    incident: &[u16; EDGE_SLOTS],
    own: &[u16; EDGE_SLOTS],
    labels: &[u16; MAX_EDGES],
    ranges: Ranges,
    counts: &mut [u32],
    limit: u32,
    costs: &mut [f64; CHANGES],
    allowed: &mut [bool; CHANGES],
    used: &mut [bool; MARKS],
    path: &mut [u16; PATH_SIZE],
    best: &mut [u16; PATH_SIZE],
    kept: &mut [f64; CHANGES],
    cut: &mut [bool; CHANGES],
    known: &mut [bool; CHANGES],
) -> Option<u32>
    requires { MovesLent regions.now incident.now own.now labels.now ranges.least.now ranges.most.now counts.old
        costs.old allowed.old used.old path.old best.old kept.old cut.old known.old }
    ensures { let model = by_ranges ranges.entry.least.now ranges.entry.most.now in
        solved_of result counts.new ≡ solve_from (the_graph regions.now) model limit max_moves 0 counts.old }
{
    start_tables(counts, ranges.least, ranges.most, costs, allowed, known);
    let mut moves = 0;
    loop {
        let found = find_augmentation(
            regions,
            incident,
            own,
            costs,
            allowed,
            limit,
            used,
            path,
            best,
            kept,
            cut,
            known,
            counts.len(),
        );
        let len = wide_len(found.len);
        if len == 0 {
            return Some(moves);
        }
        if moves == MAX_AUGMENTATIONS {
            return None;
        }
        make_move(counts, ranges, labels, best, len, costs, allowed, known);
        moves += 1;
    }
}

pub(crate) fn make_moves(
    regions: &[u16],
    incident: &[u16; EDGE_SLOTS],
    own: &[u16; EDGE_SLOTS],
    ranges: Ranges,
    counts: &mut [u32],
    limit: u32,
) -> Option<u32>
    requires { MovesInput regions.now incident.now own.now ranges.least.now ranges.most.now counts.old }
    ensures { let model = by_ranges ranges.entry.least.now ranges.entry.most.now in
        solved_of result counts.new ≡ solve_from (the_graph regions.now) model limit max_moves 0 counts.old }
{
    let mut costs = [0.0; CHANGES];
    let mut allowed = [false; CHANGES];
    let mut used = [false; MARKS];
    used[NO_CONSTRAINT] = true;
    let mut path = [0; PATH_SIZE];
    let mut best = [0; PATH_SIZE];
    let mut kept = [0.0; CHANGES];
    let mut cut = [false; CHANGES];
    let mut known = [false; CHANGES];
    let mut labels = [0; MAX_EDGES];
    label_edges(incident, counts.len(), &mut labels);
    moves_in(
        regions,
        incident,
        own,
        &labels,
        ranges,
        counts,
        limit,
        &mut costs,
        &mut allowed,
        &mut used,
        &mut path,
        &mut best,
        &mut kept,
        &mut cut,
        &mut known,
    )
}

// The counts solved from zeros, or zeros where there is a move too many.
pub(crate) fn solve_from_zeros(
    regions: &[u16],
    incident: &[u16; EDGE_SLOTS],
    own: &[u16; EDGE_SLOTS],
    ranges: Ranges,
    counts: &mut [u32],
    limit: u32,
) -> Result<u32, Refusal>
    requires { SolveInput regions.now incident.now own.now ranges.least.now ranges.most.now counts.old }
    ensures { let n = length ranges.entry.least.now in
        let model = by_ranges ranges.entry.least.now ranges.entry.most.now in
        solve_of result counts.new ≡ solve_part n (solve_zeros (the_graph regions.now) model limit n) }
{
    counts.fill(0);
    let Some(moves) = make_moves(regions, incident, own, ranges, counts, limit) else {
        counts.fill(0);
        return Err(Refusal::TooManyMoves);
    };
    Ok(moves)
}
