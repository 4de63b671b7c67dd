// 000's `from_loop`: a tile's boundary given as one closed loop of points, counter-clockwise, lent as x, y in turn. It is refused (1, 12), or falls
// into four curves: the sides between four corners, or quarters of the list. specs/Loop.antt has the definitions.
ghost use Rattle.std.specs.Prelude.{◌≡◌, ◌*◌, ◌<◌, ◌≤◌, length};
ghost use Rattle.curves.specs.Curve.{point_count};
ghost use Rattle.base.specs.Answers.{answered};
ghost use Rattle.mesh.specs.Loop.{points_used, in_fours, from_loop, piece};
ghost use Rattle.mesh.specs.inner.Curves.{PiecesIn, CurvesOf};
ghost use Rattle.mesh.specs.declared.boundary.Pieces.TheVariants.{Quarters};

use base::refusal::Refusal;
use curves::sides::Sides;

const MAX_POINTS: usize = 4_096;

// What a loop falls into: the sides between four corners, or four quarters of so many points each.
#[derive(Clone, Copy)]
pub(crate) enum Pieces {
    Corners,
    Quarters(usize),
}

impl Pieces {
    // The four curves of a loop. Of the sides between four corners, which share these, the last one ends where the loop begins: it alone does
    // not lie in the list, and is lent as `closing`.
    pub(crate) fn curves<'a>(self, points: &'a [f64], closing: &'a [f64; 4]) -> Sides<&'a [f64]>
        requires { PiecesIn self points.now closing.now }
        ensures { CurvesOf result self points.now }
    {
        match self {
            Pieces::Corners => Sides {
                bottom: &points[..4],
                right: &points[2..6],
                top: &points[4..8],
                left: closing,
            },
            Pieces::Quarters(n) => Sides {
                bottom: quarter(points, n, 0),
                right: quarter(points, n, 1),
                top: quarter(points, n, 2),
                left: quarter(points, n, 3),
            },
        }
    }
}

// The number of points once a last one equal to the first is dropped, in a loop of at least 5: the corners of a 4-point loop all stay. The natural
// loop of 8 points or more repeats its first point at the end.
fn points_used(points: &[f64]) -> usize
    ensures { result ≡ points_used points.now }
{
    let n = points.len() / 2;
    if n < 5 {
        return n;
    }
    // stays: C lends points as one list of numbers, x and y in turn, here and in `quarter`
    let last = 2 * (n - 1);
    if points[0] == points[last] && points[1] == points[last + 1] {
        return n - 1;
    }
    n
}

// 12: four corners, or four curves of at least two points each.
fn in_fours(used: usize) -> Result<Pieces, Refusal>
    ensures { answered result ≡ in_fours used }
{
    if used == 4 {
        return Ok(Pieces::Corners);
    }
    let over = used % 4;
    if used < 8 || over != 0 {
        return Err(Refusal::BadLoop);
    }
    Ok(Pieces::Quarters(used / 4))
}

// 1, then 12.
pub(crate) fn from_loop(points: &[f64]) -> Result<Pieces, Refusal>
    ensures { answered result ≡ from_loop points.now }
{
    let n = points.len() / 2;
    let odd = points.len() % 2;
    if n > MAX_POINTS || odd != 0 {
        return Err(Refusal::Malformed);
    }
    in_fours(points_used(points))
}

// Quarter k of a loop, of n points as they lie in the list: the curve of side k, bottom 0 to left 3.
fn quarter<'a>(points: &'a [f64], n: usize, k: usize) -> &'a [f64]
    requires { (k < 4) × (4 * n ≤ point_count points.now) }
    ensures { result.now ≡ piece (Quarters n) points.now k }
{
    let start = 2 * (k * n);
    let end = start + 2 * n;
    &points[start..end]
}
