// Columns of the patch that are worked out once for all the level lines of a grid.
ghost use Rattle.std.specs.Prelude.{◌≡◌, length};
ghost use Rattle.curves.specs.inner.Columns.{Table, LevelPoints};
ghost use Rattle.curves.specs.inner.Grids.{SeamColumns, Levels};

use crate::boundary::Patch;
use crate::level::are_upright;
use crate::patch::{Column, Row, column_at, patch_point};
use crate::point::Point;
use crate::sides::Sides;
use floats::scalar::clamp_unit;

// The columns at the parameters of a seam.
fn fill_columns(patch: &Patch, seam: &[f64], hints: &mut Sides<usize>, columns: &mut [Column])
    requires { length columns.old ≡ length seam.now }
    ensures { Table patch.now seam.now columns.new }
{
    for (i, value) in seam.iter().enumerate() {
        columns[i] = column_at(patch, clamp_unit(*value), hints);
    }
}

// The same where all lines from bottom to top are upright, so that level lines can go by them. Else there are none.
pub(crate) fn level_columns<'a>(
    patch: &Patch,
    bottom_u: &[f64],
    top_u: &[f64],
    hints: &mut Sides<usize>,
    table: &'a mut [Column],
) -> Option<&'a [Column]>
    requires { SeamColumns bottom_u.now top_u.now table.old }
    ensures { Levels patch.now bottom_u.now top_u.now result }
{
    if !are_upright(bottom_u, top_u) {
        return None;
    }
    let n = bottom_u.len();
    fill_columns(patch, bottom_u, hints, &mut table[..n]);
    Some(&table[..n])
}

// The points of a level line: those of the columns on the row of the patch at v.
pub(crate) fn level_points(columns: &[Column], row: Row, v: f64, points: &mut [Point])
    requires { length points.old ≡ length columns.now }
    ensures { LevelPoints columns.now row v points.new }
{
    for (i, column) in columns.iter().enumerate() {
        points[i] = patch_point(*column, row, v);
    }
}
