// Where two lines of the logical grid cross in the unit square.
ghost use Rattle.std.specs.Prelude.{◌≡◌};
ghost use Rattle.base.specs.Answers.{answered};
ghost use Rattle.curves.specs.Crossing.{logical_intersection};

use crate::point::Point;
use base::refusal::Refusal;
use floats::scalar::{abs, clamp_unit, in_unit};

// The line from (0, a) to (1, b) and the line from (c, 0) to (d, 1), which are those of the grid point i, j.
#[tactic(auto, unfolding(base::specs::Refusal::verdict_of, crate::specs::Crossing::logical_intersection, crate::specs::Crossing::inside_or_refused))]
pub(crate) fn logical_intersection(
    a: f64,
    b: f64,
    c: f64,
    d: f64,
    i: u32,
    j: u32,
) -> Result<Point, Refusal>
    ensures { answered result ≡ logical_intersection a b c d i j }
{
    let da = b - a;
    let dc = d - c;
    let denominator = 1.0 - da * dc;
    let size = abs(denominator);
    if size < 1e-12 {
        return Err(Refusal::LinesParallel(i, j));
    }
    let v = (a + c * da) / denominator;
    let u = c + v * dc;
    if in_unit(u) && in_unit(v) {
        return Ok(Point {
            x: clamp_unit(u),
            y: clamp_unit(v),
        });
    }
    Err(Refusal::CrossingOutside(i, j))
}
