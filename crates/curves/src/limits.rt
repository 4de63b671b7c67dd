// 01's limits of the geometry, and the sizes of the tables, which follow from them. specs/Limits.antt has the same.

// Points of a curve.
pub(crate) const MAX_POINTS: usize = 1024;

// They are lent as x, y in turn.
// stays: C lends points as one list of numbers
pub(crate) const MAX_CURVE: usize = 2 * MAX_POINTS;

// Values of a seam.
pub(crate) const MAX_SEAM: usize = 1025;

// n_u and n_v.
pub const MAX_CELLS: u32 = 1024;

// The knots of four curves.
pub(crate) const MAX_KNOTS: usize = 4 * MAX_POINTS;

// Room is cleared before its use, which takes longer than a small grid if it is of the largest size. So there are two smaller sizes: for curves of
// at most 32 points or 128, and for seams of at most 16 cells or 64.
pub(crate) const TINY_POINTS: usize = 32;

pub(crate) const TINY_CURVE: usize = 2 * TINY_POINTS;

pub(crate) const TINY_SEAM: usize = 17;

pub(crate) const TINY_KNOTS: usize = 4 * TINY_POINTS;

pub(crate) const SMALL_POINTS: usize = 128;

pub(crate) const SMALL_CURVE: usize = 2 * SMALL_POINTS;

pub(crate) const SMALL_CELLS: u32 = 64;

pub(crate) const SMALL_SEAM: usize = SMALL_CELLS as usize + 1;

pub(crate) const SMALL_KNOTS: usize = 4 * SMALL_POINTS;
