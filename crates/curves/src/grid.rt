// The grid of a patch: its points row by row, the tests of its points and quads (23 to 25), and what is written of it.
ghost use Rattle.std.specs.Prelude.{◌≡◌, cond};
ghost use Rattle.base.specs.Refusal.{outcome, is_passed};
ghost use Rattle.base.specs.Buffers.{splice};
ghost use Rattle.curves.specs.Grid.{crossings, row_of, n_u, n_v, grid_of, needed};
ghost use Rattle.curves.specs.Quad.{zeros};
ghost use Rattle.curves.specs.inner.Curves.{curves_of};
ghost use Rattle.curves.specs.inner.Rows.{RowFilled, Laid};
ghost use Rattle.curves.specs.inner.Grids.{lent_seams, RowGiven, PointsGiven, Mapped, RowsGiven, CellsRoom, GridGiven, Gridded, row_cells};

use crate::boundary::Patch;
use crate::columns::{level_columns, level_points};
use crate::crossing::logical_intersection;
use crate::level::is_straight;
use crate::patch::{Column, coons_point, row_at};
use crate::point::Point;
use crate::quad::clear;
use crate::rows::{Layout, needed, row_size, write_row};
use crate::sides::Sides;
use base::refusal::Refusal;
use std::mem::swap;

// The crossings of row j of the logical grid, which lie on the line from (0, v0) to (1, v1) (23, 24).
fn fill_crossings(
    v0: f64,
    v1: f64,
    seam0: &[f64],
    seam2: &[f64],
    j: u32,
    row: &mut [Point],
) -> Result<(), Refusal>
    requires { RowGiven seam0.now seam2.now row.old }
    ensures { let f = crossings seam0.now seam2.now v0 v1 j in
        RowFilled f (row_cells seam0.now) row.new (outcome result) }
{
    for (i, u0) in seam0.iter().enumerate() {
        row[i] = logical_intersection(v0, v1, *u0, seam2[i], i as u32, j)?;
    }
    Ok(())
}

// Puts the patch's points in the place of pairs u, v. A loop of its own, since the crossings of a row do not wait for each other, nor do its
// points.
fn map_points(patch: &Patch, hints: &mut Sides<usize>, row: &mut [Point])
    ensures { Mapped (curves_of patch.now) row.old row.new }
{
    for p in row.iter_mut() {
        *p = coons_point(patch, p.x, p.y, hints);
    }
}

// The points of row j, which lie on the line from (0, v0) to (1, v1) (23, 24). Where it is level, and there are columns, since the lines across
// it are upright, the points are those of the columns.
fn fill_row(
    patch: &Patch,
    columns: Option<&[Column]>,
    hints: &mut Sides<usize>,
    v0: f64,
    v1: f64,
    bottom_u: &[f64],
    top_u: &[f64],
    j: usize,
    row: &mut [Point],
) -> Result<(), Refusal>
    requires { PointsGiven patch.now columns bottom_u.now top_u.now j row.old }
    ensures { let f = row_of (curves_of patch.now) bottom_u.now top_u.now v0 v1 j in
        RowFilled f (row_cells bottom_u.now) row.new (outcome result) }
{
    if let Some(columns) = columns {
        if is_straight(v0, v1) {
            let across = row_at(patch, v0, hints);
            level_points(columns, across, v0, row);
            return Ok(());
        }
    }
    fill_crossings(v0, v1, bottom_u, top_u, j as u32, row)?;
    map_points(patch, hints, row);
    Ok(())
}

// The rows of a grid from the bottom. All points are tested before any quad is refused, so a quad's refusal waits for the end. What a
// refusal leaves of them in the output is still to be cleared. The two rows change places: the row above is the one below the next.
fn grid_rows<'a>(
    patch: &Patch,
    columns: Option<&[Column]>,
    hints: &mut Sides<usize>,
    seams: Sides<&[f64]>,
    layout: Layout,
    mut low: &'a mut [Point],
    mut high: &'a mut [Point],
    out: &mut [f64],
) -> Result<(), Refusal>
    requires { RowsGiven patch.now (lent_seams seams) layout columns low.old high.old out.old }
    ensures { let s = lent_seams seams.entry in
        Laid layout (grid_of (curves_of patch.now) s) (n_u s) (n_v s) out.old out.new (outcome result) }
{
    let n = seams.bottom.len() - 1;
    let mut cells = Ok(());
    let mut at = 0usize;
    for (j, v0) in seams.left.iter().enumerate() {
        fill_row(
            patch,
            columns,
            hints,
            *v0,
            seams.right[j],
            seams.bottom,
            seams.top,
            j,
            high,
        )?;
        let below = write_row(layout, low, high, n, j, at, out);
        cells = cells.and(below);
        at += row_size(layout, n, j);
        swap(&mut low, &mut high);
    }
    cells
}

// Where the grid of n by m cells is refused, the needed output is cleared.
fn clear_refused(answer: Result<(), Refusal>, layout: Layout, n: usize, m: usize, out: &mut [f64])
    requires { CellsRoom layout n m out.old }
    ensures { let cleared = splice out.old 0 (zeros (needed layout n m)) in
        out.new ≡ cond (is_passed (outcome answer)) out.old cleared }
{
    if answer.is_err() {
        clear(needed(layout, n, m), out);
    }
}

// The grid of a patch. A refusal leaves the needed output +0.0. `table`, `low` and `high` are room for columns and two rows, and may hold anything.
pub(crate) fn coons_grid(
    patch: &Patch,
    seams: Sides<&[f64]>,
    layout: Layout,
    table: &mut [Column],
    low: &mut [Point],
    high: &mut [Point],
    out: &mut [f64],
) -> Result<(), Refusal>
    requires { GridGiven (lent_seams seams) layout table.old low.old high.old out.old }
    ensures { let s = lent_seams seams.entry in
        Gridded layout (grid_of (curves_of patch.now) s) (n_u s) (n_v s) out.old out.new (outcome result) }
{
    let mut hints = Sides {
        bottom: 0,
        right: 0,
        top: 0,
        left: 0,
    };
    let columns = level_columns(patch, seams.bottom, seams.top, &mut hints, table);
    let width = seams.bottom.len();
    let answer = grid_rows(
        patch,
        columns,
        &mut hints,
        seams,
        layout,
        &mut low[..width],
        &mut high[..width],
        out,
    );
    clear_refused(answer, layout, width - 1, seams.left.len() - 1, out);
    answer
}
