// A round: the searches from every start, the choice among them, and the move made.
ghost use Rattle.std.specs.Prelude.{◌≡◌, false, ◌||◌, ◌*◌, ◌≤◌, ◌<◌, replicate};
ghost use Rattle.counts.specs.Cost.{by_ranges};
ghost use Rattle.counts.specs.Move.{changed, apply_changes as changed_counts};
ghost use Rattle.counts.specs.Round.{improves as improves_on};
ghost use Rattle.counts.specs.inner.Tables.{MayFillCosts, path_of, changes};
ghost use Rattle.counts.specs.inner.RoundContract.{MaySearch, SearchedFrom, MayRecall, Recalled, MayFind, AllKnown, FoundIn, Started};
ghost use Rattle.counts.specs.inner.RoundContract.{MayChange, MayApply, StartIs, ChosenOf, weighed as weighed_of};
ghost use Rattle.regions.specs.Accept.{max_edges};

use crate::cost::{EPS_IMPROVEMENT, fill_costs};
use crate::limits::{CHANGES, EDGE_SLOTS, MARKS, PATH_SIZE};
use crate::search::{SearchState, fresh, infinity, run, wide};

const NO_START: usize = CHANGES;

// What the starts weighed so far come to: the kept cost, the start that it comes from, and whether any search was cut.
#[derive(Clone, Copy)]
pub struct Choice {
    pub kept: f64,
    pub winner: usize,
    pub cut: bool,
}

// The move found: its cost, how many changes it has (none: 0), and whether any search was cut. Its changes stand in a buffer.
#[derive(Clone, Copy)]
pub struct FoundMove {
    pub kept: f64,
    pub len: u32,
    pub cut: bool,
}

fn either(a: bool, b: bool) -> bool
    ensures { result ≡ (a || b) }
{
    if a {
        return true;
    }
    b
}

// The k-th start, packed: edges upward, +1 before -1.
fn start_at(k: usize) -> usize
    requires { k < changes }
    ensures { StartIs k result }
{
    k / 2 * 2 + (1 - k % 2)
}

// The search from one start; nothing where the change is not allowed.
fn search_from(
    regions: &[u16],
    incident: &[u16; EDGE_SLOTS],
    own: &[u16; EDGE_SLOTS],
    costs: &[f64; CHANGES],
    allowed: &[bool; CHANGES],
    limit: u32,
    used: &mut [bool; MARKS],
    path: &mut [u16; PATH_SIZE],
    best: &mut [u16; PATH_SIZE],
    c: usize,
) -> SearchState
    requires { MaySearch regions.now incident.now own.now used.old path.old best.old c }
    ensures { SearchedFrom regions.now costs.now allowed.now limit c
        used.new path.new best.new result }
{
    if allowed[c] {
        return run(
            regions, incident, own, costs, allowed, limit, used, path, best, c,
        );
    }
    fresh()
}

// Sees to it that the result from start c is known.
fn recall(
    regions: &[u16],
    incident: &[u16; EDGE_SLOTS],
    own: &[u16; EDGE_SLOTS],
    costs: &[f64; CHANGES],
    allowed: &[bool; CHANGES],
    limit: u32,
    used: &mut [bool; MARKS],
    path: &mut [u16; PATH_SIZE],
    best: &mut [u16; PATH_SIZE],
    kept: &mut [f64; CHANGES],
    cut: &mut [bool; CHANGES],
    known: &mut [bool; CHANGES],
    c: usize,
)
    requires { MayRecall regions.now incident.now own.now costs.now allowed.now limit
        used.old path.old best.old kept.old cut.old known.old c }
    ensures { Recalled regions.now costs.now allowed.now limit c known.old
        used.new path.new best.new kept.new cut.new known.new }
{
    if known[c] {
        return;
    }
    let r = search_from(
        regions, incident, own, costs, allowed, limit, used, path, best, c,
    );
    kept[c] = r.kept;
    cut[c] = r.cut;
    known[c] = true;
}

// Sees to it that the result from every start is known, of n edges.
fn search_starts(
    regions: &[u16],
    incident: &[u16; EDGE_SLOTS],
    own: &[u16; EDGE_SLOTS],
    costs: &[f64; CHANGES],
    allowed: &[bool; CHANGES],
    limit: u32,
    used: &mut [bool; MARKS],
    path: &mut [u16; PATH_SIZE],
    best: &mut [u16; PATH_SIZE],
    kept: &mut [f64; CHANGES],
    cut: &mut [bool; CHANGES],
    known: &mut [bool; CHANGES],
    n: usize,
)
    requires { MayFind regions.now incident.now own.now costs.now allowed.now limit
        used.old path.old best.old kept.old cut.old known.old n }
    ensures { AllKnown regions.now costs.now allowed.now limit (n * 2)
        used.new path.new best.new kept.new cut.new known.new }
{
    let mut c = 0;
    while c < n * 2 {
        recall(
            regions, incident, own, costs, allowed, limit, used, path, best, kept, cut, known, c,
        );
        c += 1;
    }
}

impl Choice {
    // Only a cost below -E, and below the kept cost by more than E, takes its place.
    fn improved_by(self, kept: f64) -> bool
        ensures { result ≡ improves_on self.kept kept }
    {
        if kept < -EPS_IMPROVEMENT {
            return kept < self.kept - EPS_IMPROVEMENT;
        }
        false
    }

    fn weighed(self, kept: f64, cut: bool, c: usize) -> Choice
        ensures { result ≡ weighed_of self kept cut c }
    {
        let any = either(self.cut, cut);
        if self.improved_by(kept) {
            return Choice {
                kept,
                winner: c,
                cut: any,
            };
        }
        Choice {
            kept: self.kept,
            winner: self.winner,
            cut: any,
        }
    }
}

// The start whose cost is kept, the starts weighed in their order.
fn choose(kept: &[f64; CHANGES], cut: &[bool; CHANGES], n: usize) -> Choice
    requires { n ≤ max_edges }
    ensures { ChosenOf kept.now cut.now n result }
{
    let mut out = Choice {
        kept: infinity(),
        winner: NO_START,
        cut: false,
    };
    let mut k = 0;
    while k < n * 2 {
        let c = start_at(k);
        out = out.weighed(kept[c], cut[c], c);
        k += 1;
    }
    out
}

// The move kept over all starts of n edges, its changes in `best`. Its start is searched once more, for the changes.
pub(crate) fn find_augmentation(
    regions: &[u16],
    incident: &[u16; EDGE_SLOTS],
    own: &[u16; EDGE_SLOTS],
    costs: &[f64; CHANGES],
    allowed: &[bool; CHANGES],
    limit: u32,
    used: &mut [bool; MARKS],
    path: &mut [u16; PATH_SIZE],
    best: &mut [u16; PATH_SIZE],
    kept: &mut [f64; CHANGES],
    cut: &mut [bool; CHANGES],
    known: &mut [bool; CHANGES],
    n: usize,
) -> FoundMove
    requires { MayFind regions.now incident.now own.now costs.now allowed.now limit
        used.old path.old best.old kept.old cut.old known.old n }
    ensures { FoundIn regions.now costs.now allowed.now limit n
        used.new path.new best.new kept.new cut.new known.new result }
{
    search_starts(
        regions, incident, own, costs, allowed, limit, used, path, best, kept, cut, known, n,
    );
    let choice = choose(kept, cut, n);
    let winner = choice.winner;
    if winner == NO_START {
        return FoundMove {
            kept: choice.kept,
            len: 0,
            cut: choice.cut,
        };
    }
    let r = search_from(
        regions, incident, own, costs, allowed, limit, used, path, best, winner,
    );
    FoundMove {
        kept: choice.kept,
        len: r.len,
        cut: choice.cut,
    }
}

// A count after +1 or -1.
fn changed_count(s: u32, plus: bool) -> u32
    requires { MayChange s plus }
    ensures { result ≡ changed plus s }
{
    if plus {
        return s + 1;
    }
    s - 1
}

// The first `len` changes, made.
pub(crate) fn apply_changes(counts: &mut [u32], best: &[u16; PATH_SIZE], len: usize)
    requires { MayApply counts.old best.now len }
    ensures { counts.new ≡ changed_counts (path_of len best.now) counts.old }
{
    let mut i = 0;
    while i < len {
        let c = wide(best[i]);
        let e = c / 2;
        let plus = c % 2 == 1;
        counts[e] = changed_count(counts[e], plus);
        i += 1;
    }
}

// Nothing is known any more.
fn forget(known: &mut [bool; CHANGES])
    ensures { known.new ≡ replicate changes false }
{
    *known = [false; CHANGES];
}

// The costs of every edge, and nothing known.
pub(crate) fn start_tables(
    counts: &[u32],
    least: &[f64],
    most: &[f64],
    costs: &mut [f64; CHANGES],
    allowed: &mut [bool; CHANGES],
    known: &mut [bool; CHANGES],
)
    requires { MayFillCosts counts.now least.now most.now costs.old allowed.old }
    ensures { let model = by_ranges least.now most.now in
        Started model counts.now costs.new allowed.new known.new }
{
    fill_costs(counts, least, most, costs, allowed);
    forget(known);
}
