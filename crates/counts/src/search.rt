// The search from one start for a unit move of low cost: `AugmentSearch` of 000, over tables that are made once. A complete reading takes the
// place of the kept one only if it costs less by more than E.
// A change is packed in one number, 2 * edge + 1 for +1 and 2 * edge for -1. A slot is 2 * edge + k: constraint k (0 or 1) of the edge;
// `incident` has the constraint's number there, or NO_CONSTRAINT if there is none, and `own` the number of the side on which the edge stands.
// `used` marks the constraints already crossed (NO_CONSTRAINT always), `path` has the changes so far, `best` the kept reading.
// `home` is the constraint of the start's edge that is still open, NO_CONSTRAINT if there is none: only there can a loop close.
// The definition's `dfs` (specs/Search.antt) enters an edge and visits its unused constraints. The code goes from constraint to constraint, since
// an edge has two at most:
//   run, by enter and cross     `run`
//   dfs                         `visit` of one unused constraint of the last edge; close_loop where that is `home`
//   try_step, end_chain         `try_step`, and with it `dfs` of the edge that is entered; end_chain where no constraint of it is left
//   changed_in                  `others_changed`
// SidesInside the search the state is handed over in fresh structs and not lent: a struct that a call is given as it stands lives in memory from then
// on, which makes the search two to three times as slow. It is lent where that is done once for each start, to `enter` and `cross`.
ghost use Rattle.std.specs.Prelude.{◌≡◌, true, false, ◌++◌, ◌/◌, ◌%◌, ◌<◌, length, take, get_or, eqb, ltb};
ghost use Rattle.std.specs.Float.{nan, inf};
ghost use Rattle.regions.specs.Region.{across};
ghost use Rattle.regions.specs.Accept.{max_edges};
ghost use Rattle.counts.specs.Search.{is_used};
ghost use Rattle.counts.specs.inner.Tables.{decoded, path_of, edges_on, edge_slots, changes, marks_size, path_size};
ghost use Rattle.counts.specs.inner.SearchContract.{SlotOf, OtherSlot, BalancesThere, MayReadSides, SidesRead, SidesInside, both_in, signed_in, changed_by};
ghost use Rattle.counts.specs.inner.SearchContract.{changed_among, MayScan, MayKeepPath, MayEndChain, Ended, MayCloseLoop, Closed, MayTryStep};
ghost use Rattle.counts.specs.inner.SearchContract.{Stepped, MayDfs, Crossed, fresh_state, MayEnter, Entered, MayCrossAll, CrossedAll, MayRun};
ghost use Rattle.counts.specs.inner.SearchContract.{Searched};

use crate::cost::EPS_IMPROVEMENT;
use crate::limits::{CHANGES, EDGE_SLOTS, MARKS, NO_CONSTRAINT, PATH_SIZE};
use regions::region::{SIDE_SIZE, opposite};

// The kept cost and the length of the kept reading, how many entries there were, and whether one was turned back.
#[derive(Clone, Copy)]
pub struct SearchState {
    pub kept: f64,
    pub expansions: u32,
    pub len: u32,
    pub cut: bool,
}

// Where the edges of a constraint stand in the records: `split` opposite ones from `opposite` on, then those of the own side from `own` on.
#[derive(Clone, Copy)]
pub struct Sides {
    pub opposite: usize,
    pub split: usize,
    pub own: usize,
    pub total: usize,
}

// The changed edges that a constraint holds besides the last one.
#[derive(Clone, Copy)]
pub enum Changed {
    Nothing,
    One(usize),
    Many,
}

pub(crate) fn wide(x: u16) -> usize
    ensures { (result ≡ x) × (result < 65536) }
{
    x as usize
}

// ---- reading the tables

fn entry(table: &[u16; EDGE_SLOTS], slot: usize) -> usize
    requires { slot < edge_slots }
    ensures { result ≡ get_or table.now slot 0 }
{
    wide(table[slot])
}

fn is_allowed(allowed: &[bool; CHANGES], change: usize) -> bool
    requires { change < changes }
    ensures { result ≡ get_or allowed.now change false }
{
    allowed[change]
}

fn edge_cost(costs: &[f64; CHANGES], change: usize) -> f64
    requires { change < changes }
    ensures { result ≡ get_or costs.now change nan }
{
    costs[change]
}

fn is_used(used: &[bool; MARKS], ci: usize) -> bool
    requires { (ci < marks_size) × (length used.now ≡ marks_size) }
    ensures { result ≡ is_used used.now ci }
{
    used[ci]
}

fn number_at(regions: &[u16], i: usize) -> usize
    requires { i < length regions.now }
    ensures { (result ≡ get_or regions.now i 0) × (result < 65536) }
{
    wide(regions[i])
}

// The slot of the edge's constraint besides ci.
fn other_slot(incident: &[u16; EDGE_SLOTS], edge: usize, ci: usize) -> usize
    requires { edge < max_edges }
    ensures { OtherSlot incident.now edge ci result }
{
    let k = edge * 2;
    if entry(incident, k) == ci { k + 1 } else { k }
}

// The slot of the edge's constraint ci.
fn slot_in(incident: &[u16; EDGE_SLOTS], edge: usize, ci: usize) -> usize
    requires { edge < max_edges }
    ensures { SlotOf incident.now edge ci result }
{
    let k = edge * 2;
    if entry(incident, k) == ci { k } else { k + 1 }
}

// Whether the edge stands on the first side of the constraint at its slot: the sides of a record are 0 to 3, and 0 and 1 are first sides.
fn on_first_side(own: &[u16; EDGE_SLOTS], slot: usize) -> bool
    requires { slot < edge_slots }
    ensures { result ≡ ltb (get_or own.now slot 0 % 4) 2 }
{
    entry(own, slot) % 4 < 2
}

// ---- the two sides of a constraint

// The side on which a slot's edge stands, and the opposite one.
fn sides_of(regions: &[u16], own: &[u16; EDGE_SLOTS], slot: usize) -> Sides
    requires { (slot < edge_slots) × MayReadSides regions.now (get_or own.now slot 0) }
    ensures { SidesRead regions.now (get_or own.now slot 0) result }
{
    let here = entry(own, slot);
    let there = opposite(here);
    let split = number_at(regions, there * SIDE_SIZE);
    let count = number_at(regions, here * SIDE_SIZE);
    Sides {
        opposite: there * SIDE_SIZE + 1,
        split,
        own: here * SIDE_SIZE + 1,
        total: split + count,
    }
}

// The edge at j of the two sides.
fn edge_at(regions: &[u16], sides: Sides, j: usize) -> usize
    requires { SidesInside regions.now sides × (j < sides.total) }
    ensures { result ≡ get_or (both_in regions.now sides) j 0 }
{
    let split = sides.split;
    if j < split {
        number_at(regions, sides.opposite + j)
    } else {
        number_at(regions, sides.own + (j - split))
    }
}

// The same as a change that could follow: the same sign on the opposite side, the other sign on the own side.
fn partner(regions: &[u16], sides: Sides, change: usize, j: usize) -> usize
    requires { SidesInside regions.now sides × (j < sides.total) }
    ensures { decoded result ≡ get_or (signed_in regions.now sides (eqb (change % 2) 1)) j (decoded 0) }
{
    let split = sides.split;
    if j < split {
        number_at(regions, sides.opposite + j) * 2 + change % 2
    } else {
        number_at(regions, sides.own + (j - split)) * 2 + (1 - change % 2)
    }
}

// Whether the start's change and another one, at a slot of `home`, balance there.
fn balances_with_start(
    incident: &[u16; EDGE_SLOTS],
    own: &[u16; EDGE_SLOTS],
    slot: usize,
    change: usize,
    start: usize,
    home: usize,
) -> bool
    requires { (slot < edge_slots) × (start < changes) }
    ensures { BalancesThere incident.now own.now slot change start home result }
{
    let start_slot = slot_in(incident, start / 2, home);
    let start_first = on_first_side(own, start_slot);
    let first = on_first_side(own, slot);
    if start_first == first {
        return start % 2 != change % 2;
    }
    start % 2 == change % 2
}

// The changed edges that the constraint at a slot holds besides the slot's own edge; left at the second one found.
fn changed_in(
    regions: &[u16],
    own: &[u16; EDGE_SLOTS],
    slot: usize,
    path: &[u16; PATH_SIZE],
    depth: usize,
) -> Changed
    requires { MayScan regions.now own.now path.now depth slot }
    ensures { let side = get_or own.now slot 0 in
        let edges = edges_on regions.now (across side) ++ edges_on regions.now side in
        result ≡ changed_by (changed_among edges (slot / 2) (path_of depth path.now)) }
{
    let sides = sides_of(regions, own, slot);
    let total = sides.total;
    let mut found = Changed::Nothing;
    let mut i = 0;
    'changes: while i < depth {
        let edge = wide(path[i]) / 2;
        if edge != slot / 2 {
            let mut j = 0;
            while j < total {
                if edge_at(regions, sides, j) == edge {
                    match found {
                        Changed::Nothing => {
                            found = Changed::One(edge);
                            break;
                        }
                        _ => {
                            found = Changed::Many;
                            break 'changes;
                        }
                    }
                }
                j += 1;
            }
        }
        i += 1;
    }
    found
}

// ---- keeping a reading

fn keep_path(path: &[u16; PATH_SIZE], depth: usize, best: &mut [u16; PATH_SIZE])
    requires { MayKeepPath path.now best.old depth }
    ensures { (take depth best.new ≡ take depth path.now) × (length best.new ≡ path_size) }
{
    let mut i = 0;
    while i < depth {
        best[i] = path[i];
        i += 1;
    }
}

// The entry to an edge whose constraints are all used: a chain ends there, complete if the start has no open constraint.
fn end_chain(
    costs: &[f64; CHANGES],
    limit: u32,
    path: &mut [u16; PATH_SIZE],
    best: &mut [u16; PATH_SIZE],
    depth: usize,
    change: usize,
    cost: f64,
    home: usize,
    state: SearchState,
) -> SearchState
    requires { MayEndChain path.old best.old depth change }
    ensures { Ended costs.now limit path.old best.old depth change cost home state
        path.new best.new result }
{
    if state.expansions >= limit {
        return SearchState {
            kept: state.kept,
            expansions: state.expansions,
            len: state.len,
            cut: true,
        };
    }
    if home == NO_CONSTRAINT {
        let c = cost + edge_cost(costs, change);
        if c < state.kept - EPS_IMPROVEMENT {
            path[depth] = change as u16;
            keep_path(path, depth + 1, best);
            return SearchState {
                kept: c,
                expansions: state.expansions + 1,
                len: (depth + 1) as u32,
                cut: state.cut,
            };
        }
    }
    SearchState {
        kept: state.kept,
        expansions: state.expansions + 1,
        len: state.len,
        cut: state.cut,
    }
}

// The last edge stands in the start's open constraint: the loop closes there if the two balance and no other edge was changed in it.
fn close_loop(
    regions: &[u16],
    incident: &[u16; EDGE_SLOTS],
    own: &[u16; EDGE_SLOTS],
    path: &[u16; PATH_SIZE],
    best: &mut [u16; PATH_SIZE],
    depth: usize,
    slot: usize,
    cost: f64,
    home: usize,
    state: SearchState,
) -> SearchState
    requires { MayCloseLoop regions.now incident.now own.now path.now best.old depth slot home }
    ensures { Closed regions.now incident.now path.now best.old depth slot home cost state
        best.new result }
{
    let start = wide(path[0]);
    let change = wide(path[depth - 1]);
    if balances_with_start(incident, own, slot, change, start, home) {
        if cost < state.kept - EPS_IMPROVEMENT {
            if let Changed::One(edge) = changed_in(regions, own, slot, path, depth) {
                if edge == start / 2 {
                    keep_path(path, depth, best);
                    let len = depth as u32;
                    return SearchState {
                        kept: cost,
                        expansions: state.expansions,
                        len,
                        cut: state.cut,
                    };
                }
            }
        }
    }
    state
}

// ---- the search

// May a change follow through constraint ci, which is used already? Then its edge is entered, and its other constraint crossed.
#[cycle(dfs_try_step)]
fn try_step(
    regions: &[u16],
    incident: &[u16; EDGE_SLOTS],
    own: &[u16; EDGE_SLOTS],
    costs: &[f64; CHANGES],
    allowed: &[bool; CHANGES],
    limit: u32,
    used: &mut [bool; MARKS],
    path: &mut [u16; PATH_SIZE],
    best: &mut [u16; PATH_SIZE],
    depth: usize,
    current: usize,
    change: usize,
    cost: f64,
    ci: usize,
    home: usize,
    state: SearchState,
) -> SearchState
    requires { MayTryStep regions.now incident.now own.now used.old path.old best.old depth current ci change home }
    ensures { Stepped regions.now costs.now allowed.now limit
        used.old path.old best.old depth current ci change cost state
        used.new path.new best.new result }
{
    if change / 2 != current {
        if is_allowed(allowed, change) {
            let slot = other_slot(incident, change / 2, ci);
            let other = entry(incident, slot);
            if other == NO_CONSTRAINT {
                let t = SearchState {
                    kept: state.kept,
                    expansions: state.expansions,
                    len: state.len,
                    cut: state.cut,
                };
                return end_chain(costs, limit, path, best, depth, change, cost, home, t);
            }
            if is_used(used, other) {
                return state;
            }
            if state.expansions >= limit {
                return SearchState {
                    kept: state.kept,
                    expansions: state.expansions,
                    len: state.len,
                    cut: true,
                };
            }
            path[depth] = change as u16;
            let c = cost + edge_cost(costs, change);
            let t = SearchState {
                kept: state.kept,
                expansions: state.expansions + 1,
                len: state.len,
                cut: state.cut,
            };
            let r = dfs(
                regions,
                incident,
                own,
                costs,
                allowed,
                limit,
                used,
                path,
                best,
                depth + 1,
                slot,
                c,
                home,
                t,
            );
            return SearchState {
                kept: r.kept,
                expansions: r.expansions,
                len: r.len,
                cut: r.cut,
            };
        }
    }
    state
}

// Crosses the unused constraint at a slot of the last changed edge: tries its opposite edges, then the others of the own side.
#[cycle(dfs_try_step)]
fn dfs(
    regions: &[u16],
    incident: &[u16; EDGE_SLOTS],
    own: &[u16; EDGE_SLOTS],
    costs: &[f64; CHANGES],
    allowed: &[bool; CHANGES],
    limit: u32,
    used: &mut [bool; MARKS],
    path: &mut [u16; PATH_SIZE],
    best: &mut [u16; PATH_SIZE],
    depth: usize,
    slot: usize,
    cost: f64,
    home: usize,
    state: SearchState,
) -> SearchState
    requires { MayDfs regions.now incident.now own.now used.old path.old best.old depth slot home }
    ensures { Crossed regions.now incident.now costs.now allowed.now limit
        used.old path.old best.old depth slot cost state
        used.new path.new best.new result }
{
    let ci = entry(incident, slot);
    if ci == home {
        let t = SearchState {
            kept: state.kept,
            expansions: state.expansions,
            len: state.len,
            cut: state.cut,
        };
        return close_loop(
            regions, incident, own, path, best, depth, slot, cost, home, t,
        );
    }
    let last = wide(path[depth - 1]);
    let sides = sides_of(regions, own, slot);
    let total = sides.total;
    let mut out = SearchState {
        kept: state.kept,
        expansions: state.expansions,
        len: state.len,
        cut: state.cut,
    };
    used[ci] = true;
    let mut j = 0;
    while j < total {
        let change = partner(regions, sides, last, j);
        out = try_step(
            regions,
            incident,
            own,
            costs,
            allowed,
            limit,
            used,
            path,
            best,
            depth,
            slot / 2,
            change,
            cost,
            ci,
            home,
            out,
        );
        j += 1;
    }
    used[ci] = false;
    out
}

pub(crate) fn infinity() -> f64
    ensures { result ≡ inf false }
{
    f64::from_bits(0x7ff0_0000_0000_0000)
}

// ---- the search from one start: the entry to it, then the crossing of each of its constraints
// `enter` and `cross` are lent the state: each hands it to its core, and stores what comes back. `run` alone calls them, so that no other caller
// has to do with a state that is lent.

// The state that a search starts with.
pub(crate) fn fresh() -> SearchState
    ensures { result ≡ fresh_state }
{
    let kept = infinity();
    SearchState {
        kept,
        expansions: 0,
        len: 0,
        cut: false,
    }
}

// The entry to the start, which is turned back past the limit. An edge without a constraint is a move by itself.
fn enter_start(
    state: SearchState,
    incident: &[u16; EDGE_SLOTS],
    costs: &[f64; CHANGES],
    limit: u32,
    path: &mut [u16; PATH_SIZE],
    best: &mut [u16; PATH_SIZE],
    start: usize,
) -> SearchState
    requires { MayEnter path.old best.old start }
    ensures { Entered incident.now costs.now limit start
        path.old best.old state
        path.new best.new result }
{
    path[0] = start as u16;
    if limit <= state.expansions {
        return SearchState {
            kept: state.kept,
            expansions: state.expansions,
            len: state.len,
            cut: true,
        };
    }
    let next = SearchState {
        kept: state.kept,
        expansions: state.expansions + 1,
        len: state.len,
        cut: state.cut,
    };
    if entry(incident, start / 2 * 2) != NO_CONSTRAINT {
        return next;
    }
    let cost = edge_cost(costs, start);
    if cost < next.kept - EPS_IMPROVEMENT {
        keep_path(path, 1, best);
        return SearchState {
            kept: cost,
            expansions: next.expansions,
            len: 1,
            cut: next.cut,
        };
    }
    next
}

// Crosses each constraint of the start, while the other one is `home`; none if the start was turned back.
fn cross_start(
    state: SearchState,
    regions: &[u16],
    incident: &[u16; EDGE_SLOTS],
    own: &[u16; EDGE_SLOTS],
    costs: &[f64; CHANGES],
    allowed: &[bool; CHANGES],
    limit: u32,
    used: &mut [bool; MARKS],
    path: &mut [u16; PATH_SIZE],
    best: &mut [u16; PATH_SIZE],
    start: usize,
) -> SearchState
    requires { MayCrossAll regions.now incident.now own.now used.old path.old best.old start }
    ensures { CrossedAll regions.now costs.now allowed.now limit start
        used.old path.old best.old state
        used.new path.new best.new result }
{
    if state.cut {
        return state;
    }
    let slot = start / 2 * 2;
    let first = entry(incident, slot);
    if first == NO_CONSTRAINT {
        return state;
    }
    let second = entry(incident, slot + 1);
    let cost = edge_cost(costs, start);
    let t = SearchState {
        kept: state.kept,
        expansions: state.expansions,
        len: state.len,
        cut: state.cut,
    };
    let r = dfs(
        regions, incident, own, costs, allowed, limit, used, path, best, 1, slot, cost, second, t,
    );
    if second == NO_CONSTRAINT {
        return SearchState {
            kept: r.kept,
            expansions: r.expansions,
            len: r.len,
            cut: r.cut,
        };
    }
    let u = SearchState {
        kept: r.kept,
        expansions: r.expansions,
        len: r.len,
        cut: r.cut,
    };
    dfs(
        regions,
        incident,
        own,
        costs,
        allowed,
        limit,
        used,
        path,
        best,
        1,
        slot + 1,
        cost,
        first,
        u,
    )
}

fn enter(
    state: &mut SearchState,
    incident: &[u16; EDGE_SLOTS],
    costs: &[f64; CHANGES],
    limit: u32,
    path: &mut [u16; PATH_SIZE],
    best: &mut [u16; PATH_SIZE],
    start: usize,
)
    requires { MayEnter path.old best.old start }
    ensures { Entered incident.now costs.now limit start
        path.old best.old state.old
        path.new best.new state.new }
{
    *state = enter_start(*state, incident, costs, limit, path, best, start);
}

fn cross(
    state: &mut SearchState,
    regions: &[u16],
    incident: &[u16; EDGE_SLOTS],
    own: &[u16; EDGE_SLOTS],
    costs: &[f64; CHANGES],
    allowed: &[bool; CHANGES],
    limit: u32,
    used: &mut [bool; MARKS],
    path: &mut [u16; PATH_SIZE],
    best: &mut [u16; PATH_SIZE],
    start: usize,
)
    requires { MayCrossAll regions.now incident.now own.now used.old path.old best.old start }
    ensures { CrossedAll regions.now costs.now allowed.now limit start
        used.old path.old best.old state.old
        used.new path.new best.new state.new }
{
    *state = cross_start(
        *state, regions, incident, own, costs, allowed, limit, used, path, best, start,
    );
}

// The whole search from one change.
pub(crate) fn run(
    regions: &[u16],
    incident: &[u16; EDGE_SLOTS],
    own: &[u16; EDGE_SLOTS],
    costs: &[f64; CHANGES],
    allowed: &[bool; CHANGES],
    limit: u32,
    used: &mut [bool; MARKS],
    path: &mut [u16; PATH_SIZE],
    best: &mut [u16; PATH_SIZE],
    start: usize,
) -> SearchState
    requires { MayRun regions.now incident.now own.now used.old path.old best.old start }
    ensures { Searched regions.now costs.now allowed.now limit start
        used.new path.new best.new result }
{
    let mut state = fresh();
    enter(&mut state, incident, costs, limit, path, best, start);
    cross(
        &mut state, regions, incident, own, costs, allowed, limit, used, path, best, start,
    );
    state
}
