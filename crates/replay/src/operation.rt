// The operations of the cases.
use crate::reading::Case;
use crate::{geometry, solver};
use std::fmt;

// Their numbers in a file are those of this list; 0 stands for those that this program does not know.
#[derive(Clone, Copy)]
pub(crate) enum Operation {
    Other,
    Solve,
    Round,
    Rounds,
    Energy,
    Hold,
    Root,
    CoonsFromParameters,
    CoonsCurves,
    Lay,
    CoonsChecked,
    MeshTileCurves,
    MeshTile,
    SolveWithin,
    RoundsMixed,
}

impl Operation {
    pub(crate) const COUNT: usize = 15;

    // As they are told of.
    pub(crate) const ALL: [Operation; 15] = [
        Operation::Solve,
        Operation::Round,
        Operation::Rounds,
        Operation::Energy,
        Operation::Hold,
        Operation::Root,
        Operation::CoonsFromParameters,
        Operation::CoonsCurves,
        Operation::Lay,
        Operation::CoonsChecked,
        Operation::MeshTileCurves,
        Operation::MeshTile,
        Operation::SolveWithin,
        Operation::RoundsMixed,
        Operation::Other,
    ];

    // Whether the functions do on this case what it says.
    pub(crate) fn agrees(self, case: &mut Case) -> bool {
        match self {
            Operation::Other => false,
            Operation::Solve => solver::solve(case),
            Operation::Round | Operation::Rounds => solver::rounds(case, false),
            Operation::Energy => solver::energy(case),
            Operation::Hold => solver::hold(case),
            Operation::Root => geometry::root(case),
            Operation::CoonsFromParameters => geometry::coons_from_parameters(case),
            Operation::CoonsCurves => geometry::coons_curves(case),
            Operation::Lay => geometry::lay(case),
            Operation::CoonsChecked => geometry::coons_checked(case),
            Operation::MeshTileCurves => geometry::mesh_tile_curves(case),
            Operation::MeshTile => geometry::mesh_tile(case),
            Operation::SolveWithin => solver::solve_within(case),
            Operation::RoundsMixed => solver::rounds(case, true),
        }
    }
}

impl From<u32> for Operation {
    fn from(number: u32) -> Operation {
        match number {
            1 => Operation::Solve,
            2 => Operation::Round,
            3 => Operation::Rounds,
            4 => Operation::Energy,
            5 => Operation::Hold,
            6 => Operation::Root,
            7 => Operation::CoonsFromParameters,
            8 => Operation::CoonsCurves,
            9 => Operation::Lay,
            10 => Operation::CoonsChecked,
            11 => Operation::MeshTileCurves,
            12 => Operation::MeshTile,
            13 => Operation::SolveWithin,
            14 => Operation::RoundsMixed,
            _ => Operation::Other,
        }
    }
}

impl fmt::Display for Operation {
    fn fmt<W: fmt::Write>(&self, f: &mut fmt::Formatter<W>) -> fmt::Result {
        let name = match self {
            Operation::Other => "other",
            Operation::Solve => "solve",
            Operation::Round => "round",
            Operation::Rounds => "rounds",
            Operation::Energy => "energy",
            Operation::Hold => "hold",
            Operation::Root => "root",
            Operation::CoonsFromParameters => "coons_from_parameters",
            Operation::CoonsCurves => "coons_curves",
            Operation::Lay => "lay",
            Operation::CoonsChecked => "coons_checked",
            Operation::MeshTileCurves => "mesh_tile_curves",
            Operation::MeshTile => "mesh_tile",
            Operation::SolveWithin => "solve_within",
            Operation::RoundsMixed => "rounds_mixed",
        };
        write!(f, "{name}")
    }
}
