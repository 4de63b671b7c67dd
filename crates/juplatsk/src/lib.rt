// The public functions of the libraries below, for callers in C and Rust. include/juplatsk.h says what each is lent and leaves. A lent list
// is a pointer and a length there. Each function returns the refusal's number, 0 if the call is accepted.
// stays: the C interface is of numbers, flags and lists, each a parameter, of all functions below
#![tactic(auto)]

mod answers;
mod limit;
mod version;

ghost use Rattle.std.specs.Prelude.{◌≡◌, [], ◌∷◌};
ghost use Rattle.counts.specs.Cost.{by, within};
ghost use Rattle.counts.specs.Solver.{expansions, solve, round, energy, constraints_hold};
ghost use Rattle.base.specs.Answers.{verdict};
ghost use Rattle.floats.specs.Root.{root_answer};
ghost use Rattle.curves.specs.Grid.{seams};
ghost use Rattle.curves.specs.Coons.{coons_seamed, coons_quads};
ghost use Rattle.curves.specs.Lay.{tile_input, lay};
ghost use Rattle.mesh.specs.Mesh.{mesh_tile_curves};
ghost use Rattle.mesh.specs.Tile.{coons_checked, mesh_tile};
ghost use Rattle.juplatsk.specs.Limit.{limit_told};
ghost use Rattle.juplatsk.specs.Version.{version};
ghost use Rattle.juplatsk.specs.Stored.{solve_stored, hold_stored, energy_stored, round_stored, grid_stored, cost_of, root_value};

use crate::answers::{store_flag, store_number, store_root, store_round, store_sum};
use crate::limit::search_limit;
use crate::version::VERSION;
use counts::ranges::Ranges;
use curves::sides::Sides;

#[unsafe(no_mangle)]
pub extern "C" fn juplatsk_version() -> u32
    ensures { result ≡ version }
{
    VERSION
}

#[unsafe(no_mangle)]
pub extern "C" fn juplatsk_solve_counts(
    regions: &[u16],
    ideals: &[f64],
    counts: &mut [u32],
    stated: bool,
    limit: u32,
    answer: &mut [u32; 3],
) -> u32
    ensures { let o = solve regions.now (by ideals.now) counts.old (expansions (limit_told stated limit)) in
        (result ≡ o.verdict.number) × (answer.new ≡ solve_stored o) × (counts.new ≡ o.counts) }
{
    let limit = search_limit(stated, limit);
    let solved = counts::solve_counts(regions, ideals, counts, limit);
    store_number(solved, answer)
}

#[unsafe(no_mangle)]
pub extern "C" fn juplatsk_round(
    regions: &[u16],
    ideals: &[f64],
    counts: &mut [u32],
    stated: bool,
    limit: u32,
    answer: &mut [u32; 4],
    cost: &mut [f64; 1],
) -> u32
    ensures { let o = round regions.now (by ideals.now) counts.old (expansions (limit_told stated limit)) in
        (result ≡ o.verdict.number) × (answer.new ≡ round_stored o)
        × (cost.new ≡ cost_of o.move ∷ []) × (counts.new ≡ o.counts) }
{
    let limit = search_limit(stated, limit);
    let made = counts::round(regions, ideals, counts, limit);
    store_round(made, answer, cost)
}

#[unsafe(no_mangle)]
pub extern "C" fn juplatsk_solve_counts_within(
    regions: &[u16],
    least: &[f64],
    most: &[f64],
    counts: &mut [u32],
    stated: bool,
    limit: u32,
    answer: &mut [u32; 3],
) -> u32
    ensures { let ranges = within least.now most.now in
        let o = solve regions.now ranges counts.old (expansions (limit_told stated limit)) in
        (result ≡ o.verdict.number) × (answer.new ≡ solve_stored o) × (counts.new ≡ o.counts) }
{
    let limit = search_limit(stated, limit);
    let solved = counts::solve_counts_within(regions, Ranges { least, most }, counts, limit);
    store_number(solved, answer)
}

#[unsafe(no_mangle)]
pub extern "C" fn juplatsk_round_within(
    regions: &[u16],
    least: &[f64],
    most: &[f64],
    counts: &mut [u32],
    stated: bool,
    limit: u32,
    answer: &mut [u32; 4],
    cost: &mut [f64; 1],
) -> u32
    ensures { let ranges = within least.now most.now in
        let o = round regions.now ranges counts.old (expansions (limit_told stated limit)) in
        (result ≡ o.verdict.number) × (answer.new ≡ round_stored o)
        × (cost.new ≡ cost_of o.move ∷ []) × (counts.new ≡ o.counts) }
{
    let limit = search_limit(stated, limit);
    let made = counts::round_within(regions, Ranges { least, most }, counts, limit);
    store_round(made, answer, cost)
}

#[unsafe(no_mangle)]
pub extern "C" fn juplatsk_energy(
    counts: &[u32],
    ideals: &[f64],
    answer: &mut [u32; 2],
    sum: &mut [f64; 1],
) -> u32
    ensures { let o = energy counts.now ideals.now in
        (result ≡ o.verdict.number) × (answer.new ≡ energy_stored o) × (sum.new ≡ o.total ∷ []) }
{
    let total = counts::energy(counts, ideals);
    store_sum(total, answer, sum)
}

#[unsafe(no_mangle)]
pub extern "C" fn juplatsk_constraints_hold(
    regions: &[u16],
    counts: &[u32],
    answer: &mut [u32; 3],
) -> u32
    ensures { let o = constraints_hold regions.now counts.now in
        (result ≡ o.verdict.number) × (answer.new ≡ hold_stored o) }
{
    let held = counts::constraints_hold(regions, counts);
    store_flag(held, answer)
}

#[unsafe(no_mangle)]
pub extern "C" fn juplatsk_root(x: f64, root: &mut [f64; 1]) -> u32
    ensures value { result ≡ (verdict (root_answer x)).number }
    ensures root_after { root.new ≡ root_value (root_answer x) ∷ [] }
{
    let taken = floats::root::root(x);
    store_root(taken, root)
}

#[unsafe(no_mangle)]
pub extern "C" fn juplatsk_coons_from_parameters(
    bottom: &[f64],
    right: &[f64],
    top: &[f64],
    left: &[f64],
    bottom_u: &[f64],
    top_u: &[f64],
    left_v: &[f64],
    right_v: &[f64],
    out: &mut [f64],
    answer: &mut [u32; 3],
) -> u32
    ensures { let s = seams bottom_u.now top_u.now left_v.now right_v.now in
        let o = coons_seamed bottom.now right.now top.now left.now s out.old in
        (result ≡ o.verdict.number) × (answer.new ≡ grid_stored o) × (out.new ≡ o.out) }
{
    let curves = Sides {
        bottom,
        right,
        top,
        left,
    };
    let seams = Sides {
        bottom: bottom_u,
        right: right_v,
        top: top_u,
        left: left_v,
    };
    let made = curves::coons::coons_from_parameters(curves, seams, out);
    store_number(made, answer)
}

#[unsafe(no_mangle)]
pub extern "C" fn juplatsk_coons_curves(
    bottom: &[f64],
    right: &[f64],
    top: &[f64],
    left: &[f64],
    n_u: u32,
    n_v: u32,
    out: &mut [f64],
    answer: &mut [u32; 3],
) -> u32
    ensures { let o = coons_quads bottom.now right.now top.now left.now n_u n_v out.old in
        (result ≡ o.verdict.number) × (answer.new ≡ grid_stored o) × (out.new ≡ o.out) }
{
    let curves = Sides {
        bottom,
        right,
        top,
        left,
    };
    let made = curves::coons::coons_curves(curves, n_u, n_v, out);
    store_number(made, answer)
}

#[unsafe(no_mangle)]
pub extern "C" fn juplatsk_lay_region(
    region: &[u16],
    counts: &[u32],
    breaks0: &[f64],
    breaks1: &[f64],
    breaks2: &[f64],
    breaks3: &[f64],
    bottom: &[f64],
    right: &[f64],
    top: &[f64],
    left: &[f64],
    out: &mut [f64],
    answer: &mut [u32; 3],
) -> u32
    ensures { let tile = tile_input breaks0.now breaks1.now breaks2.now breaks3.now
        bottom.now right.now top.now left.now in
        let o = lay region.now counts.now tile out.old in
        (result ≡ o.verdict.number) × (answer.new ≡ grid_stored o) × (out.new ≡ o.out) }
{
    let breaks = Sides {
        bottom: breaks0,
        right: breaks1,
        top: breaks2,
        left: breaks3,
    };
    let curves = Sides {
        bottom,
        right,
        top,
        left,
    };
    let made = curves::lay::lay_region(region, counts, breaks, curves, out);
    store_number(made, answer)
}

#[unsafe(no_mangle)]
pub extern "C" fn juplatsk_mesh_tile_curves(
    bottom: &[f64],
    right: &[f64],
    top: &[f64],
    left: &[f64],
    n_u: u32,
    n_v: u32,
    points: &mut [f64],
    cells: &mut [u32],
    answer: &mut [u32; 3],
) -> u32
    ensures { let o = mesh_tile_curves bottom.now right.now top.now left.now
        n_u n_v points.old cells.old in
        (result ≡ o.grid.verdict.number) × (answer.new ≡ grid_stored o.grid)
        × (points.new ≡ o.grid.out) × (cells.new ≡ o.cells) }
{
    let curves = Sides {
        bottom,
        right,
        top,
        left,
    };
    let made = mesh::tile::mesh_tile_curves(curves, n_u, n_v, points, cells);
    store_number(made, answer)
}

#[unsafe(no_mangle)]
pub extern "C" fn juplatsk_coons_checked(
    boundary: &[f64],
    n_u: u32,
    n_v: u32,
    out: &mut [f64],
    answer: &mut [u32; 3],
) -> u32
    ensures { let o = coons_checked boundary.now n_u n_v out.old in
        (result ≡ o.verdict.number) × (answer.new ≡ grid_stored o) × (out.new ≡ o.out) }
{
    let made = mesh::tile::coons_checked(boundary, n_u, n_v, out);
    store_number(made, answer)
}

#[unsafe(no_mangle)]
pub extern "C" fn juplatsk_mesh_tile(
    boundary: &[f64],
    n_u: u32,
    n_v: u32,
    points: &mut [f64],
    cells: &mut [u32],
    answer: &mut [u32; 3],
) -> u32
    ensures { let o = mesh_tile boundary.now n_u n_v points.old cells.old in
        (result ≡ o.grid.verdict.number) × (answer.new ≡ grid_stored o.grid)
        × (points.new ≡ o.grid.out) × (cells.new ≡ o.cells) }
{
    let made = mesh::tile::mesh_tile(boundary, n_u, n_v, points, cells);
    store_number(made, answer)
}
