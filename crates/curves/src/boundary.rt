// The four boundary curves of a patch, counter-clockwise: bottom left to right, right bottom to top, top right to left, left top to
// bottom. Each is tested by itself (13 to 15), then whether they join (16) and how they wind (17).
ghost use Rattle.std.specs.Prelude.{◌≡◌};
ghost use Rattle.std.specs.Coded.{Coded-set};
ghost use Rattle.base.specs.Refusal.{outcome};
ghost use Rattle.curves.specs.Boundary.{boundary, curve_ends, boundary_ends, lowest, highest, tolerance, corner_test, winding_test, ends_test};

use crate::curve::{Curve, Knot, curve_at, new_curve};
use crate::point::Point;
use crate::quad::Quad;
use crate::sides::Sides;
use base::refusal::Refusal;
use floats::scalar::{abs, max, min};

// Where a curve begins and ends.
#[derive(Clone, Copy)]
pub(crate) struct Ends {
    pub(crate) start: Point,
    pub(crate) end: Point,
}

// Four curves that join, and the ends of bottom and top, by which every point of the patch goes.
#[derive(Clone, Copy)]
pub(crate) struct Patch<'a> {
    pub(crate) curves: Sides<Curve<'a>>,
    pub(crate) bottom: Ends,
    pub(crate) top: Ends,
    ghost bottom_ends: { bottom ≡ curve_ends curves.bottom.knots.now } by { Coded-set bottom-code bottom (curve_ends curves.bottom.knots.now) },
    ghost top_ends: { top ≡ curve_ends curves.top.knots.now } by { Coded-set top-code top (curve_ends curves.top.knots.now) },
}

#[tactic(auto, unfolding(crate::specs::Boundary::lowest))]
fn lowest(a: f64, b: f64, c: f64, d: f64) -> f64
    ensures { result ≡ lowest a b c d }
{
    min(min(min(min(f64::INFINITY, a), b), c), d)
}

// stays: `lowest` with another start and another function: a function over both would be lent as much as it says
fn highest(a: f64, b: f64, c: f64, d: f64) -> f64
    ensures { result ≡ highest a b c d }
{
    max(max(max(max(f64::NEG_INFINITY, a), b), c), d)
}

// How far apart the curves may be at a corner, by the size of the corner polygon.
#[tactic(auto, unfolding(crate::specs::Boundary::tolerance))]
fn tolerance(corners: Quad) -> f64
    ensures { result ≡ tolerance corners.lower_left corners.lower_right corners.upper_right corners.upper_left }
{
    let bl = corners.lower_left;
    let br = corners.lower_right;
    let tr = corners.upper_right;
    let tl = corners.upper_left;
    let min_x = lowest(bl.x, br.x, tr.x, tl.x);
    let max_x = highest(bl.x, br.x, tr.x, tl.x);
    let min_y = lowest(bl.y, br.y, tr.y, tl.y);
    let max_y = highest(bl.y, br.y, tr.y, tl.y);
    let size = max(max_x - min_x, max_y - min_y);
    1e-9 * max(size, 1.0)
}

#[tactic(auto, unfolding(base::specs::Refusal::verdict_of, crate::specs::Boundary::corner_test, crate::specs::Boundary::points_apart))]
fn check_corner(tolerance: f64, got: Point, expected: Point, corner: u32) -> Result<(), Refusal>
    ensures { outcome result ≡ corner_test tolerance got expected corner }
{
    if abs(got.x - expected.x) > tolerance || abs(got.y - expected.y) > tolerance {
        return Err(Refusal::CurvesApart(corner));
    }
    Ok(())
}

#[tactic(auto, unfolding(base::specs::Refusal::verdict_of, crate::specs::Boundary::winding_test))]
fn check_winding(corners: Quad) -> Result<(), Refusal>
    ensures { outcome result ≡ winding_test corners.lower_left corners.lower_right corners.upper_right corners.upper_left }
{
    let area = corners.signed_area();
    // a NaN is let by
    if area <= 0.0 {
        return Err(Refusal::CornersClockwise);
    }
    Ok(())
}

fn check_ends(e: Sides<Ends>) -> Result<(), Refusal>
    ensures { outcome result ≡ ends_test e }
{
    let corners = Quad {
        lower_left: e.bottom.start,
        lower_right: e.bottom.end,
        upper_right: e.right.end,
        upper_left: e.left.start,
    };
    let allowed = tolerance(corners);
    check_corner(allowed, e.right.start, corners.lower_right, 0)?;
    check_corner(allowed, e.top.start, corners.upper_right, 1)?;
    check_corner(allowed, e.top.end, corners.upper_left, 2)?;
    check_corner(allowed, e.left.start, corners.upper_left, 3)?;
    check_corner(allowed, e.left.end, corners.lower_left, 4)?;
    check_winding(corners)
}

// Where the curve of a side begins and ends. It has a segment, so that it is not refused.
fn curve_ends(curve: Curve, side: u32) -> Ends
    ensures { result ≡ curve_ends curve.entry.knots.now }
{
    Ends {
        start: curve_at(curve.knots, side, 0.0).unwrap(),
        end: curve_at(curve.knots, side, 1.0).unwrap(),
    }
}

fn boundary_ends(c: Sides<Curve>) -> Sides<Ends>
    ensures { let e = c.entry in
        result ≡ boundary_ends (boundary e.bottom.knots.now e.right.knots.now e.top.knots.now e.left.knots.now) }
{
    Sides {
        bottom: curve_ends(c.bottom, 0),
        right: curve_ends(c.right, 1),
        top: curve_ends(c.top, 2),
        left: curve_ends(c.left, 3),
    }
}

impl<'a> Patch<'a> {
    ghost use Rattle.std.specs.Prelude.{IfOk};
    ghost use Rattle.curves.specs.inner.Curves.{lent, curves_on, checked_on, curves_of, KnotsFit};

    // 000's `checked_curves`: tests the curves of sides 0 to 3 (13 to 17), and makes a patch of them, for whose knots room is lent.
    pub(crate) fn new(points: Sides<&[f64]>, room: &'a mut [Knot]) -> Result<Patch<'a>, Refusal>
        requires { KnotsFit (lent points) room.old }
        ensures told { outcome result ≡ checked_on (lent points.entry) }
        ensures curves { IfOk result (λ p. curves_of p ≡ curves_on (lent points.entry)) }
    {
        let (of_bottom, room) = room.split_at_mut(points.bottom.len() / 2);
        let (of_right, room) = room.split_at_mut(points.right.len() / 2);
        let (of_top, room) = room.split_at_mut(points.top.len() / 2);
        let (of_left, _) = room.split_at_mut(points.left.len() / 2);
        let bottom = new_curve(points.bottom, 0, of_bottom)?;
        let right = new_curve(points.right, 1, of_right)?;
        let top = new_curve(points.top, 2, of_top)?;
        let left = new_curve(points.left, 3, of_left)?;
        let curves = Sides {
            bottom,
            right,
            top,
            left,
        };
        let ends = boundary_ends(curves);
        check_ends(ends)?;
        Ok(Patch {
            curves,
            bottom: ends.bottom,
            top: ends.top,
        })
    }
}
