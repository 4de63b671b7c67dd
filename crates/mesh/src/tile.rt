// The public functions on a tile: its mesh from four boundary curves, and its quads and its mesh from a loop of points. Each answers how many quads
// there are. specs/Mesh.antt and specs/Tile.antt define what each answers and leaves.
ghost use Rattle.std.specs.Prelude.{◌≡◌, length, leb};
ghost use Rattle.curves.specs.Coons.{outcome_of};
ghost use Rattle.base.specs.Answers.{answered};
ghost use Rattle.mesh.specs.Mesh.{mesh_of, needed_cells, mesh_tile_curves};
ghost use Rattle.mesh.specs.Tile.{tile_loop, coons_checked, mesh_tile};

use crate::boundary::{Pieces, from_loop};
use crate::cells::{write_cells, zeroes};
use base::refusal::Refusal;
use curves::coons::{coons_curves, coons_nodes};
use curves::limits::MAX_CELLS;
use curves::sides::Sides;

// Whether the indices of n_u by n_v quads fit. The numbers may be anything here, so that a product with 4 could overflow.
fn fits(n_u: u32, n_v: u32, cells: &[u32]) -> bool
    ensures { result ≡ leb (needed_cells n_u n_v) (length cells.now) }
{
    let quads = u64::from(n_v) * u64::from(n_u);
    let room = cells.len() / 4;
    quads <= room as u64
}

// The n_u by n_v quads between four boundary curves as a mesh: the points of the grid, and four indices a quad.
pub fn mesh_tile_curves(
    curves: Sides<&[f64]>,
    n_u: u32,
    n_v: u32,
    points: &mut [f64],
    cells: &mut [u32],
) -> Result<u32, Refusal>
    ensures { let c = curves.entry in
        mesh_of result points.new cells.new
        ≡ mesh_tile_curves c.bottom.now c.right.now c.top.now c.left.now
        n_u n_v points.old cells.old }
{
    if !fits(n_u, n_v, cells) {
        // Without room for the points the grid makes its tests and then refuses.
        return coons_nodes(curves, n_u, n_v, &mut []);
    }
    let made = coons_nodes(curves, n_u, n_v, points);
    match made {
        Ok(_) => write_cells(n_u, n_v, cells),
        Err(cause) => {
            if zeroes(cause) {
                let quads = n_v as usize * n_u as usize;
                cells[..4 * quads].fill(0);
            }
        }
    }
    made
}

// 1 of the numbers of cells, then 1 and 12 of the loop.
fn tile_loop(boundary: &[f64], n_u: u32, n_v: u32) -> Result<Pieces, Refusal>
    ensures { answered result ≡ tile_loop boundary.now n_u n_v }
{
    if n_u > MAX_CELLS || n_v > MAX_CELLS {
        return Err(Refusal::Malformed);
    }
    from_loop(boundary)
}

// The n_u by n_v quads of a tile.
pub fn coons_checked(boundary: &[f64], n_u: u32, n_v: u32, out: &mut [f64]) -> Result<u32, Refusal>
    ensures { outcome_of result out.new ≡ coons_checked boundary.now n_u n_v out.old }
{
    let pieces = tile_loop(boundary, n_u, n_v)?;
    let closing = [boundary[6], boundary[7], boundary[0], boundary[1]];
    coons_curves(pieces.curves(boundary, &closing), n_u, n_v, out)
}

// The same quads as a mesh.
pub fn mesh_tile(
    boundary: &[f64],
    n_u: u32,
    n_v: u32,
    points: &mut [f64],
    cells: &mut [u32],
) -> Result<u32, Refusal>
    ensures { mesh_of result points.new cells.new
        ≡ mesh_tile boundary.now n_u n_v points.old cells.old }
{
    let pieces = tile_loop(boundary, n_u, n_v)?;
    let closing = [boundary[6], boundary[7], boundary[0], boundary[1]];
    mesh_tile_curves(pieces.curves(boundary, &closing), n_u, n_v, points, cells)
}
