// Room for a patch, in three sizes: for the knots of its curves, and for columns and two rows of its grid. To clear room for the largest would take
// longer than most grids.
ghost use Rattle.std.specs.Prelude.{◌≡◌, true};
ghost use Rattle.curves.specs.Limits.{max_curve};
ghost use Rattle.curves.specs.Coons.{outcome_of};
ghost use Rattle.curves.specs.inner.Curves.{lent, ShortCurves};
ghost use Rattle.curves.specs.inner.Grids.{lent_seams, TileShort, KnotsFitIn, TileFitsIn, PatchMade};

use crate::curve::Knot;
use crate::limits::{
    MAX_KNOTS, MAX_SEAM, SMALL_CURVE, SMALL_KNOTS, SMALL_SEAM, TINY_CURVE, TINY_KNOTS, TINY_SEAM,
};
use crate::patch::Column;
use crate::point::Point;
use crate::rows::Layout;
use crate::sides::Sides;
use crate::stage::patch_in;
use base::refusal::Refusal;

// A patch with room for so many knots, and for the columns and two rows of so many values of a seam. The pages of a frame are touched on entry, and the compiler
// puts a function with one caller into its caller's frame: not so this one, so that a call pays for no other room than its own.
#[inline(never)]
fn with_room<const KNOTS: usize, const SEAM: usize>(
    curves: Sides<&[f64]>,
    seams: Sides<&[f64]>,
    layout: Layout,
    out: &mut [f64],
) -> Result<u32, Refusal>
    requires { TileFitsIn KNOTS SEAM (lent curves) (lent_seams seams) }
    ensures { PatchMade layout curves.entry seams.entry out.old (outcome_of result out.new) }
{
    let mut knots = [Knot::NONE; KNOTS];
    let mut table = [Column::NONE; SEAM];
    let mut low = [Point::ORIGIN; SEAM];
    let mut high = [Point::ORIGIN; SEAM];
    patch_in(
        curves, seams, layout, &mut knots, &mut table, &mut low, &mut high, out,
    )
}

// The same, with columns and rows in the smallest room that will do.
fn with_knots<const KNOTS: usize>(
    curves: Sides<&[f64]>,
    seams: Sides<&[f64]>,
    layout: Layout,
    out: &mut [f64],
) -> Result<u32, Refusal>
    requires { KnotsFitIn KNOTS (lent curves) (lent_seams seams) }
    ensures { PatchMade layout curves.entry seams.entry out.old (outcome_of result out.new) }
{
    if seams.bottom.len() <= TINY_SEAM {
        return with_room::<KNOTS, TINY_SEAM>(curves, seams, layout, out);
    }
    if seams.bottom.len() <= SMALL_SEAM {
        return with_room::<KNOTS, SMALL_SEAM>(curves, seams, layout, out);
    }
    with_room::<KNOTS, MAX_SEAM>(curves, seams, layout, out)
}

// Whether no curve has more values than so many.
fn has_short_curves(limit: usize, curves: Sides<&[f64]>) -> bool
    ensures { result ≡ true → ShortCurves limit (lent curves.entry) }
{
    curves.bottom.len() <= limit
        && curves.right.len() <= limit
        && curves.top.len() <= limit
        && curves.left.len() <= limit
}

// A patch within its limits, with knots in the smallest room that will do.
pub(crate) fn patch_in_room(
    curves: Sides<&[f64]>,
    seams: Sides<&[f64]>,
    layout: Layout,
    out: &mut [f64],
) -> Result<u32, Refusal>
    requires { TileShort max_curve (lent curves) (lent_seams seams) }
    ensures { PatchMade layout curves.entry seams.entry out.old (outcome_of result out.new) }
{
    if has_short_curves(TINY_CURVE, curves) {
        return with_knots::<TINY_KNOTS>(curves, seams, layout, out);
    }
    if has_short_curves(SMALL_CURVE, curves) {
        return with_knots::<SMALL_KNOTS>(curves, seams, layout, out);
    }
    with_knots::<MAX_KNOTS>(curves, seams, layout, out)
}
