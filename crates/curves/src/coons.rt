// The public functions of the grid: limits, then the patch, by seams that are lent or even ones. Each answers how many quads the grid has.
// specs/Coons.antt defines what each answers and leaves.
ghost use Rattle.std.specs.Prelude.{◌≡◌};
ghost use Rattle.base.specs.Refusal.{outcome, then_test};
ghost use Rattle.curves.specs.Grid.{seams as seams_of};
ghost use Rattle.curves.specs.Coons.{outcome_of, seam_limit, seams_limit, curve_limit, curves_limit, cells_limit};
ghost use Rattle.curves.specs.Coons.{coons_from_parameters, coons_seamed, coons_curves, coons_quads, coons_nodes};
ghost use Rattle.curves.specs.inner.Curves.{lent};
ghost use Rattle.curves.specs.inner.Grids.{lent_seams, CellsFitIn, EvenPatchMade};

use crate::limits::{MAX_CELLS, MAX_CURVE, MAX_SEAM, SMALL_CELLS, SMALL_SEAM};
use crate::room::patch_in_room;
use crate::rows::Layout;
use crate::seam::uniform_parameters;
use crate::sides::Sides;
use base::refusal::Refusal;

// 1, of a curve: at most 1,024 points, each an x and a y.
#[tactic(auto, unfolding(base::specs::Refusal::verdict_of, crate::specs::Coons::curve_limit))]
fn check_curve_limit(points: &[f64]) -> Result<(), Refusal>
    ensures { outcome result ≡ curve_limit points.now }
{
    if points.len() > MAX_CURVE || points.len() % 2 != 0 {
        return Err(Refusal::Malformed);
    }
    Ok(())
}

pub(crate) fn check_curve_limits(curves: Sides<&[f64]>) -> Result<(), Refusal>
    ensures { let p = lent curves.entry in
        outcome result ≡ curves_limit p.bottom p.right p.top p.left }
{
    check_curve_limit(curves.bottom)?;
    check_curve_limit(curves.right)?;
    check_curve_limit(curves.top)?;
    check_curve_limit(curves.left)
}

// 1, of a seam.
#[tactic(auto, unfolding(base::specs::Refusal::verdict_of, crate::specs::Coons::seam_limit))]
fn check_seam_limit(values: &[f64]) -> Result<(), Refusal>
    ensures { outcome result ≡ seam_limit values.now }
{
    if values.len() > MAX_SEAM {
        return Err(Refusal::Malformed);
    }
    Ok(())
}

// stays: seams are tested in another order than curves, which specs/Coons has as well
fn check_seam_limits(seams: Sides<&[f64]>) -> Result<(), Refusal>
    ensures { outcome result ≡ seams_limit (lent_seams seams.entry) }
{
    check_seam_limit(seams.bottom)?;
    check_seam_limit(seams.top)?;
    check_seam_limit(seams.left)?;
    check_seam_limit(seams.right)
}

// 1 and 26, of the numbers of cells.
#[tactic(auto, unfolding(base::specs::Refusal::verdict_of, crate::specs::Coons::cells_limit))]
fn check_cell_limits(n_u: u32, n_v: u32) -> Result<(), Refusal>
    ensures { outcome result ≡ cells_limit n_u n_v }
{
    if n_u > MAX_CELLS || n_v > MAX_CELLS {
        return Err(Refusal::Malformed);
    }
    if n_u == 0 || n_v == 0 {
        return Err(Refusal::NoCells);
    }
    Ok(())
}

// 1, of curves and seams.
fn check_seamed_limits(curves: Sides<&[f64]>, seams: Sides<&[f64]>) -> Result<(), Refusal>
    ensures { let p = lent curves.entry in
        outcome result ≡ then_test (curves_limit p.bottom p.right p.top p.left) (seams_limit (lent_seams seams.entry)) }
{
    check_curve_limits(curves)?;
    check_seam_limits(seams)
}

// 1 and 26, of curves and numbers of cells.
fn check_even_limits(curves: Sides<&[f64]>, n_u: u32, n_v: u32) -> Result<(), Refusal>
    ensures { let p = lent curves.entry in
        outcome result ≡ then_test (curves_limit p.bottom p.right p.top p.left) (cells_limit n_u n_v) }
{
    check_curve_limits(curves)?;
    check_cell_limits(n_u, n_v)
}

// A grid from four seams, in either layout.
fn from_parameters(
    curves: Sides<&[f64]>,
    seams: Sides<&[f64]>,
    layout: Layout,
    out: &mut [f64],
) -> Result<u32, Refusal>
    ensures { let p = lent curves.entry in
        outcome_of result out.new ≡ coons_from_parameters layout
        p.bottom p.right p.top p.left (lent_seams seams.entry) out.old }
{
    check_seamed_limits(curves, seams)?;
    patch_in_room(curves, seams, layout, out)
}

// A patch of even seams, one on opposite sides, made in a room of so many values. In a frame of its own, as other rooms (room.rt).
#[inline(never)]
#[tactic(auto, using(crate::proofs::coons::Laws::even_part, crate::proofs::coons::Laws::same_seams))]
fn even_patch_in<const SEAM: usize>(
    curves: Sides<&[f64]>,
    n_u: u32,
    n_v: u32,
    layout: Layout,
    out: &mut [f64],
) -> Result<u32, Refusal>
    requires { CellsFitIn SEAM (lent curves) n_u n_v }
    ensures { EvenPatchMade layout curves.entry n_u n_v out.old (outcome_of result out.new) }
{
    let mut us = [0.0; SEAM];
    let mut vs = [0.0; SEAM];
    uniform_parameters(n_u, &mut us);
    uniform_parameters(n_v, &mut vs);
    let along_u = &us[..n_u as usize + 1];
    let along_v = &vs[..n_v as usize + 1];
    let seams = Sides {
        bottom: along_u,
        right: along_v,
        top: along_u,
        left: along_v,
    };
    patch_in_room(curves, seams, layout, out)
}

// A grid of even seams, in either layout.
fn from_cells(
    curves: Sides<&[f64]>,
    n_u: u32,
    n_v: u32,
    layout: Layout,
    out: &mut [f64],
) -> Result<u32, Refusal>
    ensures { let p = lent curves.entry in
        outcome_of result out.new ≡ coons_curves layout p.bottom p.right p.top p.left n_u n_v out.old }
{
    check_even_limits(curves, n_u, n_v)?;
    if n_u <= SMALL_CELLS && n_v <= SMALL_CELLS {
        return even_patch_in::<SMALL_SEAM>(curves, n_u, n_v, layout, out);
    }
    even_patch_in::<MAX_SEAM>(curves, n_u, n_v, layout, out)
}

// The quads between four boundary curves, by four seams.
pub fn coons_from_parameters(
    curves: Sides<&[f64]>,
    seams: Sides<&[f64]>,
    out: &mut [f64],
) -> Result<u32, Refusal>
    ensures { let c = curves.entry in let s = seams.entry in
        outcome_of result out.new ≡ coons_seamed c.bottom.now c.right.now c.top.now c.left.now
        (seams_of s.bottom.now s.top.now s.left.now s.right.now) out.old }
{
    from_parameters(curves, seams, Layout::Quads, out)
}

// The n_u by n_v quads between four boundary curves.
pub fn coons_curves(
    curves: Sides<&[f64]>,
    n_u: u32,
    n_v: u32,
    out: &mut [f64],
) -> Result<u32, Refusal>
    ensures { let c = curves.entry in
        outcome_of result out.new ≡ coons_quads c.bottom.now c.right.now c.top.now c.left.now n_u n_v out.old }
{
    from_cells(curves, n_u, n_v, Layout::Quads, out)
}

// The points of the same grid, for a mesh: x, y and 0 each, rows from the bottom. It too answers the number of quads.
// stays: `coons_curves` and this one are what is public of one function, `from_cells`, and each has its definition in specs/Coons
pub fn coons_nodes(
    curves: Sides<&[f64]>,
    n_u: u32,
    n_v: u32,
    out: &mut [f64],
) -> Result<u32, Refusal>
    ensures { let c = curves.entry in
        outcome_of result out.new ≡ coons_nodes c.bottom.now c.right.now c.top.now c.left.now n_u n_v out.old }
{
    from_cells(curves, n_u, n_v, Layout::Nodes, out)
}
