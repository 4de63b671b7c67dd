// The quads of a mesh as indices of its points. specs/Mesh.antt has the definitions.
ghost use Rattle.std.specs.Prelude.{◌≡◌, ◌≤◌, length};
ghost use Rattle.base.specs.Refusal.{verdict_of};
ghost use Rattle.base.specs.Buffers.{splice};
ghost use Rattle.mesh.specs.Mesh.{row_cells, mesh_cells, no_cells, zeroes};
ghost use Rattle.mesh.specs.inner.Cells.{RowGiven, CellsGiven};

use base::refusal::Refusal;

// Writes the n cells of row j, from an index on.
fn write_row(n: u32, j: u32, from: usize, cells: &mut [u32])
    requires { RowGiven n j from cells.old }
    ensures { cells.new ≡ splice cells.old from (row_cells n j) }
{
    let across = n + 1;
    let first = j * across;
    for i in 0..n {
        let low = first + i;
        let high = low + across;
        let at = from + 4 * i as usize;
        cells[at] = low;
        cells[at + 1] = low + 1;
        cells[at + 2] = high + 1;
        cells[at + 3] = high;
    }
}

pub(crate) fn write_cells(n: u32, m: u32, cells: &mut [u32])
    requires { CellsGiven n m cells.old }
    ensures { cells.new ≡ splice cells.old 0 (mesh_cells n m) }
{
    let width = 4 * n as usize;
    for j in 0..m {
        write_row(n, j, j as usize * width, cells);
    }
}

// Whether a grid that was refused for this cause has zeroed its points.
#[tactic(auto, unfolding(base::specs::Refusal::verdict_of))]
pub(crate) fn zeroes(cause: Refusal) -> bool
    ensures { result ≡ zeroes (verdict_of cause) }
{
    matches!(
        cause,
        Refusal::LinesParallel(..) | Refusal::CrossingOutside(..) | Refusal::BadQuadArea(..)
    )
}
