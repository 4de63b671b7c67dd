// A boundary curve: a polyline, sampled by the length run along it. Its points are lent as x, y in turn, at most 1,024 of them. A curve that is
// made of them is its knots, each a point with the length run so far. Its ends are the first and the last point that were lent, bit for bit.
ghost use Rattle.std.specs.Prelude.{◌≡◌, true, ◌+◌, ◌-◌, ◌*◌, ◌<◌, ◌≤◌, length, IfOk};
ghost use Rattle.base.specs.Answers.{answered};
ghost use Rattle.base.specs.Refusal.{outcome};
ghost use Rattle.curves.specs.Point.{point};
ghost use Rattle.curves.specs.Curve.{point_count, point_at, distance, total_length, arc_curve, knot_count, stored_point};
ghost use Rattle.curves.specs.Curve.{toward, span, fraction, blend, segment, segment_at, target_of, curve_at, at_answer};
ghost use Rattle.curves.specs.Curve.{all_finite, curve_test};
ghost use Rattle.curves.specs.inner.Segments.{next_knot, Rising, Hinted, InSegment, SoundLength};

use crate::point::Point;
use base::refusal::Refusal;
use floats::root::sqrt;
use floats::scalar::{is_finite, is_positive};

// A point of the curve, with the length run so far.
#[derive(Clone, Copy)]
pub(crate) struct Knot {
    pub(crate) x: f64,
    pub(crate) y: f64,
    pub(crate) length: f64,
}

impl Knot {
    // What room for knots is cleared with.
    pub(crate) const NONE: Knot = Knot {
        x: 0.0,
        y: 0.0,
        length: 0.0,
    };

    // The point, as it was lent.
    fn point(self) -> Point
        ensures { result ≡ point self.x self.y }
    {
        Point {
            x: self.x,
            y: self.y,
        }
    }

    // The knot at the next point.
    fn next(self, p: Point) -> Knot
        ensures { result ≡ next_knot self p }
    {
        Knot {
            x: p.x,
            y: p.y,
            length: self.length + distance(self.point(), p),
        }
    }

    // The point at a fraction of the way to the next knot.
    fn toward(self, next: Knot, fraction: f64) -> Point
        ensures { result ≡ toward self next fraction }
    {
        Point {
            x: self.x + (next.x - self.x) * fraction,
            y: self.y + (next.y - self.y) * fraction,
        }
    }
}

#[derive(Clone, Copy)]
pub(crate) struct Segment {
    pub(crate) start: Knot,
    pub(crate) end: Knot,
}

impl Segment {
    fn span(self) -> f64
        ensures { result ≡ span self }
    {
        self.end.length - self.start.length
    }

    fn fraction(self, target: f64) -> f64
        ensures { result ≡ fraction self target }
    {
        let span = self.span();
        if span > 0.0 {
            return (target - self.start.length) / span;
        }
        0.0
    }

    // The point of the segment where the length `target` has been run.
    fn blend(self, target: f64) -> Point
        ensures { result ≡ blend self target }
    {
        let fraction = self.fraction(target);
        self.start.toward(self.end, fraction)
    }
}

// A point of a curve, with the number of its segment: a hint for the next one.
#[derive(Clone, Copy)]
pub(crate) struct Located {
    pub(crate) point: Point,
    pub(crate) segment: usize,
}

// A curve that has passed its tests: it has a segment, and no length is above the next.
#[derive(Clone, Copy)]
pub(crate) struct Curve<'a> {
    pub(crate) knots: &'a [Knot],
    ghost two: { 2 ≤ knot_count knots.now },
    ghost rising: { Rising knots.now },
}

impl<'a> Curve<'a> {
    // The point at the fraction t of the curve's length, asked with a hint, which may be any number. This is the innermost loop of a grid.
    pub(crate) fn near(self, t: f64, hint: usize) -> Located
        ensures { result.point ≡ curve_at self.entry.knots.now t }
    {
        curve_near(self.knots, t, hint)
    }
}

// The number of the segment in which the length `target` lies, by halving; an equal length goes right.
// stays: `curve_at` asks it of lists of knots that are no `Curve`
fn segment_at(knots: &[Knot], target: f64) -> usize
    requires { 2 ≤ knot_count knots.now }
    ensures value { result ≡ segment_at knots.now target }
    ensures result_bound { result + 1 < knot_count knots.now }
{
    let mut lo = 0usize;
    let mut hi = knots.len() - 1;
    while hi - lo > 1 {
        let mid = (lo + hi) / 2;
        if knots[mid].length <= target {
            lo = mid;
        } else {
            hi = mid;
        }
    }
    lo
}

// Whether the target lies in the segment k.
fn in_segment(knots: &[Knot], k: usize, target: f64) -> bool
    requires { k ≤ knot_count knots.now }
    ensures { result ≡ true → InSegment knots.now k target }
{
    k + 1 < knots.len() && knots[k].length <= target && target < knots[k + 1].length
}

// The same segment, looked for at the hint `near` and on either side of it before halving: along a seam the next target lies close by.
fn segment_near(knots: &[Knot], target: f64, near: usize) -> usize
    requires { Hinted knots.now near }
    ensures value { result ≡ segment_at knots.now target }
    ensures result_bound { result + 1 < knot_count knots.now }
{
    // any number may be lent as a hint, also one that has no next
    if near < knots.len() {
        if in_segment(knots, near, target) {
            return near;
        }
        if in_segment(knots, near + 1, target) {
            return near + 1;
        }
        if near > 0 && in_segment(knots, near - 1, target) {
            return near - 1;
        }
    }
    segment_at(knots, target)
}

// The point of the segment k where the length `target` has been run.
fn blend_at(knots: &[Knot], k: usize, target: f64) -> Point
    requires { k + 1 < knot_count knots.now }
    ensures { result ≡ blend (segment knots.now k) target }
{
    let segment = Segment {
        start: knots[k],
        end: knots[k + 1],
    };
    segment.blend(target)
}

// The length at a fraction of the curve.
// stays: as `segment_at`
#[tactic(auto, unfolding(crate::specs::Curve::target_of))]
fn length_along(knots: &[Knot], t: f64) -> f64
    requires { 2 ≤ knot_count knots.now }
    ensures { result ≡ target_of knots.now t }
{
    t * knots[knots.len() - 1].length
}

// The ends of a curve are the points that were lent: a blend may miss them by a bit, and a last segment of length 0 by more.
// stays: as `segment_at`
fn first_end(knots: &[Knot]) -> Located
    requires { 2 ≤ knot_count knots.now }
    ensures { result.point ≡ stored_point knots.now 0 }
{
    Located {
        point: knots[0].point(),
        segment: 0,
    }
}

// stays: as `segment_at`
fn last_end(knots: &[Knot]) -> Located
    requires { 2 ≤ knot_count knots.now }
    ensures { result.point ≡ stored_point knots.now (knot_count knots.now - 1) }
{
    let last = knots.len() - 1;
    Located {
        point: knots[last].point(),
        segment: last - 1,
    }
}

// The point at the fraction t of the curve's length, t clamped to 0..1, which between 0 and 1 leaves it as it is. A good hint `near` spares the
// halving; any number serves where no length is above the next, and one past the list is none.
fn curve_near(knots: &[Knot], t: f64, near: usize) -> Located
    requires { Hinted knots.now near }
    ensures { result.point ≡ curve_at knots.now t }
{
    if t <= 0.0 {
        return first_end(knots);
    }
    if 1.0 <= t {
        return last_end(knots);
    }
    let target = length_along(knots, t);
    let k = segment_near(knots, target, near);
    let point = blend_at(knots, k, target);
    Located { point, segment: k }
}

// 000's `at`: the point of any list of knots, that of a side, without a hint. Where they make no segment, the curve is refused (13).
pub(crate) fn curve_at(knots: &[Knot], side: u32, t: f64) -> Result<Point, Refusal>
    ensures { answered result ≡ at_answer knots.now side t }
{
    if knots.len() < 2 {
        return Err(Refusal::CurveTooShort(side));
    }
    Ok(curve_near(knots, t, knots.len()).point)
}

pub(crate) fn point_at(points: &[f64], k: usize) -> Point
    requires { 2 * k + 1 < length points.now }
    ensures { result ≡ point_at points.now k }
{
    let i = 2 * k;
    let x = points[i];
    let y = points[i + 1];
    Point { x, y }
}

fn distance(p: Point, q: Point) -> f64
    ensures { result ≡ distance p q }
{
    let dx = q.x - p.x;
    let dy = q.y - p.y;
    sqrt(dx * dx + dy * dy)
}

// Writes the knots of a curve, for which there is just room, and returns its whole length.
fn fill_knots(points: &[f64], knots: &mut [Knot]) -> f64
    requires some { 0 < point_count points.now }
    requires room { length knots.old ≡ point_count points.now }
    ensures value { result ≡ total_length points.now }
    ensures knots_after { knots.new ≡ arc_curve points.now }
{
    let first = point_at(points, 0);
    let mut knot = Knot {
        x: first.x,
        y: first.y,
        length: 0.0,
    };
    knots[0] = knot;
    for k in 1..knots.len() {
        knot = knot.next(point_at(points, k));
        knots[k] = knot;
    }
    knot.length
}

fn all_finite(values: &[f64]) -> bool
    ensures { result ≡ all_finite values.now }
{
    values.iter().all(|x| is_finite(*x))
}

// Whether its length shows that a curve passes: where that is finite, so is each point, and of an even number of values each is one of a point.
fn is_sound(total: f64, values: usize) -> bool
    ensures { result ≡ true → SoundLength total values }
{
    values % 2 == 0 && is_positive(total)
}

// Tests the curve of a side (13 to 15), and makes it of its knots, for which there is just room.
pub(crate) fn new_curve<'a>(
    points: &[f64],
    side: u32,
    room: &'a mut [Knot],
) -> Result<Curve<'a>, Refusal>
    requires { length room.old ≡ point_count points.now }
    ensures told { outcome result ≡ curve_test points.now side }
    ensures knots { IfOk result (λ c. c.knots.now ≡ arc_curve points.now) }
{
    if points.len() / 2 < 2 {
        return Err(Refusal::CurveTooShort(side));
    }
    let total = fill_knots(points, room);
    if !is_sound(total, points.len()) {
        if !all_finite(points) {
            return Err(Refusal::PointNotFinite(side));
        }
        if !is_positive(total) {
            return Err(Refusal::BadCurveLength(side));
        }
    }
    Ok(Curve { knots: room })
}
