// The mesh of a tile, and the loops of points that a tile's boundary is given by. Public is `tile`.
#![tactic(auto)]

mod boundary;
mod cells;
pub mod tile;
