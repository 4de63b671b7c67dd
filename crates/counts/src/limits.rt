// The solver's limits, and the sizes of its tables, which follow from those of the regions. specs/Values.antt, Solver.antt, Round.antt and
// inner/Tables.antt have the same.
use regions::region::{MAX_EDGES, MAX_REGIONS};

pub(crate) const MAX_COUNT: u32 = 1_000_000;

// Of a search: the greatest limit that may be stated, and the one where none is.
pub(crate) const MAX_LIMIT: u32 = 100_000;

pub(crate) const DEFAULT_LIMIT: u32 = 10_000;

// Moves of a solve.
pub(crate) const MAX_AUGMENTATIONS: u32 = 200_000;

// Each region gives two constraints.
pub(crate) const MAX_CONSTRAINTS: usize = 2 * MAX_REGIONS;

// Stands in a table where there is no constraint: a number that none has.
pub(crate) const NO_CONSTRAINT: usize = MAX_CONSTRAINTS;

pub(crate) const NO_ENTRY: u16 = NO_CONSTRAINT as u16;

// An edge is in two constraints at most, so it has two slots.
pub(crate) const EDGE_SLOTS: usize = 2 * MAX_EDGES;

// An edge has two changes, +1 and -1.
pub(crate) const CHANGES: usize = 2 * MAX_EDGES;

// A mark for each constraint, and one for none.
pub(crate) const MARKS: usize = MAX_CONSTRAINTS + 1;

// A path crosses each constraint at most once, so it has at most one edge more.
pub(crate) const PATH_SIZE: usize = MAX_CONSTRAINTS + 1;
