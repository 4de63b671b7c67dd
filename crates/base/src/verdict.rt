// The paper's number and two places of each refusal, for the programs that print, store or compare them. specs/Refusal.antt has the table.
ghost use Rattle.std.specs.Prelude.{◌≡◌};
ghost use Rattle.base.specs.Refusal.{passed, refused as refused_by, verdict_of};

use crate::refusal::Refusal;

// Number 0 stands for no refusal.
#[derive(Clone, Copy, PartialEq)]
pub struct Verdict {
    pub number: u32,
    pub first: u32,
    pub second: u32,
}

// No refusal.
pub fn accepted() -> Verdict
    ensures { result ≡ passed }
{
    Verdict {
        number: 0,
        first: 0,
        second: 0,
    }
}

fn refused(number: u32, first: u32, second: u32) -> Verdict
    ensures { result ≡ refused_by number first second }
{
    Verdict {
        number,
        first,
        second,
    }
}

impl From<Refusal> for Verdict {
    ghost from_gives = { λ refusal verdict. verdict ≡ verdict_of refusal };

    #[tactic(auto, unfolding(crate::specs::Refusal::verdict_of))]
    fn from(refusal: Refusal) -> Verdict {
        match refusal {
            Refusal::Malformed => refused(1, 0, 0),
            Refusal::BadIdeal(edge) => refused(2, edge, 0),
            Refusal::EdgeOutOfRange(region, side) => refused(3, region, side),
            Refusal::EdgeRepeated(region, side) => refused(4, region, side),
            Refusal::EdgeOnBothSides(region, side) => refused(5, region, side),
            Refusal::EdgeOverused(edge) => refused(6, edge, 0),
            Refusal::TooManyMoves => refused(7, 0, 0),
            Refusal::LengthsDiffer => refused(8, 0, 0),
            Refusal::CountTooLarge(edge) => refused(9, edge, 0),
            Refusal::LimitTooLarge => refused(10, 0, 0),
            Refusal::OutputTooShort => refused(11, 0, 0),
            Refusal::BadLoop => refused(12, 0, 0),
            Refusal::CurveTooShort(curve) => refused(13, curve, 0),
            Refusal::PointNotFinite(curve) => refused(14, curve, 0),
            Refusal::BadCurveLength(curve) => refused(15, curve, 0),
            Refusal::CurvesApart(corner) => refused(16, corner, 0),
            Refusal::CornersClockwise => refused(17, 0, 0),
            Refusal::SeamTooShort(seam) => refused(18, seam, 0),
            Refusal::SeamOutOfRange(seam, index) => refused(19, seam, index),
            Refusal::SeamFalling(seam, index) => refused(20, seam, index),
            Refusal::SeamEnds(seam) => refused(21, seam, 0),
            Refusal::SeamsUnequal(pair) => refused(22, pair, 0),
            Refusal::LinesParallel(i, j) => refused(23, i, j),
            Refusal::CrossingOutside(i, j) => refused(24, i, j),
            Refusal::BadQuadArea(i, j) => refused(25, i, j),
            Refusal::NoCells => refused(26, 0, 0),
            Refusal::BreaksMismatch(side) => refused(27, side, 0),
            Refusal::RootUndefined => refused(28, 0, 0),
            Refusal::RangeReversed(edge) => refused(35, edge, 0),
        }
    }
}
