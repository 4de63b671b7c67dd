// What is tested of a patch once its limits are kept to, then its grid; all room is lent. What is answered is the number of quads.
ghost use Rattle.std.specs.Prelude.{◌≡◌};
ghost use Rattle.curves.specs.Coons.{outcome_of, grid_stage};
ghost use Rattle.curves.specs.inner.Curves.{lent, curves_of};
ghost use Rattle.curves.specs.inner.Grids.{lent_seams, StageGiven, TileGiven, PatchMade};

use crate::boundary::Patch;
use crate::curve::Knot;
use crate::grid::coons_grid;
use crate::patch::Column;
use crate::point::Point;
use crate::rows::{Layout, needed};
use crate::seam::check_seams;
use crate::sides::Sides;
use base::refusal::Refusal;

// The tests of the seams (18 to 22) and of the output's room (11), then the grid. Room is lent for its columns and two of its rows.
fn grid_stage(
    patch: &Patch,
    seams: Sides<&[f64]>,
    layout: Layout,
    table: &mut [Column],
    low: &mut [Point],
    high: &mut [Point],
    out: &mut [f64],
) -> Result<u32, Refusal>
    requires { StageGiven (lent_seams seams) table.old low.old high.old }
    ensures { outcome_of result out.new ≡ grid_stage layout (curves_of patch.now) (lent_seams seams.entry) out.old }
{
    check_seams(seams)?;
    let n_u = seams.bottom.len() - 1;
    let n_v = seams.left.len() - 1;
    if out.len() < needed(layout, n_u, n_v) {
        return Err(Refusal::OutputTooShort);
    }
    coons_grid(patch, seams, layout, table, low, high, out)?;
    Ok((n_v * n_u) as u32)
}

// The tests of the curves (13 to 17), then the rest. Room is lent for the knots of the curves, for columns and for two rows.
pub(crate) fn patch_in(
    curves: Sides<&[f64]>,
    seams: Sides<&[f64]>,
    layout: Layout,
    knots: &mut [Knot],
    table: &mut [Column],
    low: &mut [Point],
    high: &mut [Point],
    out: &mut [f64],
) -> Result<u32, Refusal>
    requires { TileGiven (lent curves) (lent_seams seams) knots.old table.old low.old high.old }
    ensures { PatchMade layout curves.entry seams.entry out.old (outcome_of result out.new) }
{
    let patch = Patch::new(curves, knots)?;
    grid_stage(&patch, seams, layout, table, low, high, out)
}
