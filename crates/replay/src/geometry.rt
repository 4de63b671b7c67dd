// The operations of the root, of grids, of lay and of meshes: as those of the solver. An output is lent as long as the case says, and
// compared whole with what should be written to it and what should be left.
use crate::reading::Case;
use base::refusal::Refusal;
use curves::sides::Sides;
use regions::region::RECORD_SIZE;

// The longest lists of any case: two records, 257 counts, 1,026 breaks (of an empty pair, where any number will do), 1,025 points of a curve,
// 1,026 values of a seam, 4,098 points of a loop. The longest outputs have the quads of 1,025 by 2 cells, and the points and the cells of a
// mesh of 1,024 by 1 with one value more.
const RECORDS: usize = 2 * RECORD_SIZE;

const EDGES: usize = 257;

const BREAKS: usize = 1026;

const CURVE: usize = 2050;

const SEAM: usize = 1026;

const LOOP: usize = 8196;

const QUADS: usize = 16400;

const POINTS: usize = 6151;

const CELLS: usize = 4097;

pub(crate) fn root(case: &mut Case) -> bool {
    let answer = floats::root::root(case.next());
    case.is_answer(answer) && case.is_end()
}

// The room of each side: a quarter of what there is.
fn quarters(room: &mut [f64]) -> Sides<&mut [f64]> {
    let quarter = room.len() / 4;
    let (low, high) = room.split_at_mut(2 * quarter);
    let (bottom, right) = low.split_at_mut(quarter);
    let (top, left) = high.split_at_mut(quarter);
    Sides {
        bottom,
        right,
        top,
        left,
    }
}

// Four lists, of the sides bottom, right, top and left.
fn sides<'a>(case: &mut Case, room: &'a mut [f64]) -> Sides<&'a [f64]> {
    let Sides {
        bottom,
        right,
        top,
        left,
    } = quarters(room);
    Sides {
        bottom: case.list(bottom),
        right: case.list(right),
        top: case.list(top),
        left: case.list(left),
    }
}

// Seams stand in another order: bottom, top, left, right.
fn seams<'a>(case: &mut Case, room: &'a mut [f64]) -> Sides<&'a [f64]> {
    let Sides {
        bottom,
        right,
        top,
        left,
    } = quarters(room);
    let bottom = case.list(bottom);
    let top = case.list(top);
    let left = case.list(left);
    Sides {
        bottom,
        right: case.list(right),
        top,
        left,
    }
}

// Whether the rest of a case of a grid is this answer and this output.
// stays: no twin of `is_solved`: an output is compared beyond what is written, and a list of counts by its length
fn is_grid(case: &mut Case, answer: Result<u32, Refusal>, out: &[f64]) -> bool {
    case.is_answer(answer) && case.is_written(out) && case.is_end()
}

pub(crate) fn coons_from_parameters(case: &mut Case) -> bool {
    let mut curve_room = [0.0; 4 * CURVE];
    let mut seam_room = [0.0; 4 * SEAM];
    let mut space = [0.0; QUADS];
    let curves = sides(case, &mut curve_room);
    let seams = seams(case, &mut seam_room);
    let Some(out) = case.lend(&mut space) else {
        return false;
    };
    let answer = curves::coons::coons_from_parameters(curves, seams, out);
    is_grid(case, answer, out)
}

pub(crate) fn coons_curves(case: &mut Case) -> bool {
    let mut curve_room = [0.0; 4 * CURVE];
    let mut space = [0.0; QUADS];
    let curves = sides(case, &mut curve_room);
    let n_u = case.next();
    let n_v = case.next();
    let Some(out) = case.lend(&mut space) else {
        return false;
    };
    let answer = curves::coons::coons_curves(curves, n_u, n_v, out);
    is_grid(case, answer, out)
}

pub(crate) fn lay(case: &mut Case) -> bool {
    let mut curve_room = [0.0; 4 * CURVE];
    let mut break_room = [0.0; 4 * BREAKS];
    let mut region = [0u16; RECORDS];
    let mut counts = [0u32; EDGES];
    let mut space = [0.0; QUADS];
    let curves = sides(case, &mut curve_room);
    let breaks = sides(case, &mut break_room);
    let region = case.list(&mut region);
    let counts = case.list(&mut counts);
    let Some(out) = case.lend(&mut space) else {
        return false;
    };
    let answer = curves::lay::lay_region(region, counts, breaks, curves, out);
    is_grid(case, answer, out)
}

pub(crate) fn coons_checked(case: &mut Case) -> bool {
    let mut boundary = [0.0; LOOP];
    let mut space = [0.0; QUADS];
    let boundary = case.list(&mut boundary);
    let n_u = case.next();
    let n_v = case.next();
    let Some(out) = case.lend(&mut space) else {
        return false;
    };
    let answer = mesh::tile::coons_checked(boundary, n_u, n_v, out);
    is_grid(case, answer, out)
}

// Whether the rest of a case of a mesh is this answer and these outputs.
fn is_mesh(case: &mut Case, answer: Result<u32, Refusal>, points: &[f64], cells: &[u32]) -> bool {
    case.is_answer(answer) && case.is_written(points) && case.is_written(cells) && case.is_end()
}

pub(crate) fn mesh_tile_curves(case: &mut Case) -> bool {
    let mut curve_room = [0.0; 4 * CURVE];
    let mut point_space = [0.0; POINTS];
    let mut cell_space = [0u32; CELLS];
    let curves = sides(case, &mut curve_room);
    let n_u = case.next();
    let n_v = case.next();
    let Some(points) = case.lend(&mut point_space) else {
        return false;
    };
    let Some(cells) = case.lend(&mut cell_space) else {
        return false;
    };
    let answer = mesh::tile::mesh_tile_curves(curves, n_u, n_v, points, cells);
    is_mesh(case, answer, points, cells)
}

pub(crate) fn mesh_tile(case: &mut Case) -> bool {
    let mut boundary = [0.0; LOOP];
    let mut point_space = [0.0; POINTS];
    let mut cell_space = [0u32; CELLS];
    let boundary = case.list(&mut boundary);
    let n_u = case.next();
    let n_v = case.next();
    let Some(points) = case.lend(&mut point_space) else {
        return false;
    };
    let Some(cells) = case.lend(&mut cell_space) else {
        return false;
    };
    let answer = mesh::tile::mesh_tile(boundary, n_u, n_v, points, cells);
    is_mesh(case, answer, points, cells)
}
