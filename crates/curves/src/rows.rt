// What is tested and written once two rows of grid points are there: the cells between them (25), and the part of the output that the upper
// row adds.
ghost use Rattle.std.specs.Prelude.{◌≡◌, ◌+◌, ◌<◌, ◌≤◌, length, true};
ghost use Rattle.base.specs.Refusal.{outcome};
ghost use Rattle.base.specs.Buffers.{splice};
ghost use Rattle.curves.specs.inner.Rows.{cell, cells_test, below_test, quads_between, nodes_of, row_size, AllSound};
ghost use Rattle.curves.specs.inner.Rows.{TwoRows, QuadsRoom, NodesRoom, RowRoom, RowLaid};
ghost use Rattle.curves.specs.declared.rows.Layout.TheVariants.{Quads};
ghost use Rattle.curves.specs.Grid.{corner_values, node_values, needed};
ghost use Rattle.curves.specs.Limits.{max_cells};

use crate::point::Point;
use crate::quad::Quad;
use base::refusal::Refusal;

// What an output holds of a grid: its quads, or its points for a mesh.
// stays: a value that is handed on, and no closures or trait: each of the three functions that match on it is one table of both
#[derive(Clone, Copy)]
pub(crate) enum Layout {
    Quads,
    Nodes,
}

// The cell i between two rows.
fn cell(low: &[Point], high: &[Point], i: usize) -> Quad
    requires { (i + 1 < length low.now) × (i + 1 < length high.now) }
    ensures { result ≡ cell low.now high.now i }
{
    Quad {
        lower_left: low[i],
        lower_right: low[i + 1],
        upper_right: high[i + 1],
        upper_left: high[i],
    }
}

// 25 along row j of the cells.
fn check_cells(low: &[Point], high: &[Point], n: usize, j: usize) -> Result<(), Refusal>
    requires { TwoRows low.now high.now n j }
    ensures { outcome result ≡ cells_test low.now high.now n j }
{
    let row = j as u32;
    for i in 0..n {
        cell(low, high, i).check(i as u32, row)?;
    }
    Ok(())
}

// 25 of the cells below row j of the points: the lowest row has none, and `low` is not read there.
#[tactic(auto, using(crate::proofs::rows::Laws::below_first, crate::proofs::rows::Laws::below_later))]
fn check_row(low: &[Point], high: &[Point], n: usize, j: usize) -> Result<(), Refusal>
    requires { TwoRows low.now high.now n j }
    ensures { outcome result ≡ below_test low.now high.now n j }
{
    if j == 0 {
        return Ok(());
    }
    check_cells(low, high, n, j - 1)
}

#[tactic(auto, using(crate::proofs::rows::Laws::quad_stored))]
fn write_quad(quad: Quad, from: usize, out: &mut [f64])
    requires { from + 8 ≤ length out.old }
    ensures { out.new ≡ splice out.old from (corner_values quad) }
{
    out[from] = quad.lower_left.x;
    out[from + 1] = quad.lower_left.y;
    out[from + 2] = quad.lower_right.x;
    out[from + 3] = quad.lower_right.y;
    out[from + 4] = quad.upper_right.x;
    out[from + 5] = quad.upper_right.y;
    out[from + 6] = quad.upper_left.x;
    out[from + 7] = quad.upper_left.y;
}

// Writes the n quads between two rows, from an index on, and says whether each has an area: one pass over both rows does for the two.
fn write_quads(low: &[Point], high: &[Point], n: usize, from: usize, out: &mut [f64]) -> bool
    requires { QuadsRoom low.now high.now n from out.old }
    ensures all_sound { result ≡ true → AllSound low.now high.now n }
    ensures out_after { let quads = quads_between low.now high.now n in
        out.new ≡ splice out.old from quads }
{
    let mut sound = true;
    for i in 0..n {
        let quad = cell(low, high, i);
        write_quad(quad, from + 8 * i, out);
        if !quad.has_area() {
            sound = false;
        }
    }
    sound
}

#[tactic(auto, using(crate::proofs::rows::Laws::node_stored))]
fn write_node(p: Point, from: usize, out: &mut [f64])
    requires { from + 3 ≤ length out.old }
    ensures { out.new ≡ splice out.old from (node_values p) }
{
    out[from] = p.x;
    out[from + 1] = p.y;
    out[from + 2] = 0.0;
}

// Writes the n + 1 points of a row, from an index on.
fn write_nodes(row: &[Point], n: usize, from: usize, out: &mut [f64])
    requires { NodesRoom row.now n from out.old }
    ensures { out.new ≡ splice out.old from (nodes_of row.now n) }
{
    for i in 0..n + 1 {
        write_node(row[i], from + 3 * i, out);
    }
}

// Writes the quads below row j of the points, and tests them (25). The lowest row has none.
fn lay_quads(
    low: &[Point],
    high: &[Point],
    n: usize,
    j: usize,
    from: usize,
    out: &mut [f64],
) -> Result<(), Refusal>
    requires { RowRoom Quads low.now high.now n j from out.old }
    ensures { RowLaid Quads low.now high.now n j from out.old out.new (outcome result) }
{
    if j == 0 {
        return Ok(());
    }
    if write_quads(low, high, n, from, out) {
        return Ok(());
    }
    // one is at fault: which?
    check_cells(low, high, n, j - 1)
}

// Writes what row j of the points adds, from an index on, and tests the cells below it (25). At the lowest row `low` is not read.
pub(crate) fn write_row(
    layout: Layout,
    low: &[Point],
    high: &[Point],
    n: usize,
    j: usize,
    from: usize,
    out: &mut [f64],
) -> Result<(), Refusal>
    requires { RowRoom layout low.now high.now n j from out.old }
    ensures { RowLaid layout low.now high.now n j from out.old out.new (outcome result) }
{
    match layout {
        Layout::Quads => lay_quads(low, high, n, j, from, out),
        Layout::Nodes => {
            write_nodes(high, n, from, out);
            check_row(low, high, n, j)
        }
    }
}

// How many values row j of the points adds.
#[tactic(auto, using(crate::proofs::rows::Laws::first_size, crate::proofs::rows::Laws::quads_size, crate::proofs::rows::Laws::nodes_size))]
pub(crate) fn row_size(layout: Layout, n: usize, j: usize) -> usize
    requires { n ≤ max_cells }
    ensures { result ≡ row_size layout n j }
{
    match layout {
        Layout::Quads if j == 0 => 0,
        Layout::Quads => 8 * n,
        Layout::Nodes => 3 * (n + 1),
    }
}

// How many values a grid of n by m cells writes.
#[tactic(auto, unfolding(crate::specs::Grid::needed))]
pub(crate) fn needed(layout: Layout, n: usize, m: usize) -> usize
    requires { (n ≤ max_cells) × (m ≤ max_cells) }
    ensures { result ≡ needed layout n m }
{
    match layout {
        Layout::Quads => m * (8 * n),
        Layout::Nodes => (m + 1) * (3 * (n + 1)),
    }
}
