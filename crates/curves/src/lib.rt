// The geometry above the counts: points, curves, their seams, the patch between them, its grid of points and quads, and lay, which grids a
// region by its counts. Public are `coons` and `lay`, with `sides`, and `limits` for the mesh.
#![tactic(auto)]

mod boundary;
mod columns;
pub mod coons;
mod crossing;
mod curve;
mod grid;
pub mod lay;
mod level;
pub mod limits;
mod patch;
mod point;
mod quad;
mod room;
mod rows;
mod seam;
pub mod sides;
mod stage;
