// One point of the Coons patch, split into what u decides (a column), what v decides (a row), and the rest, since the points of a grid
// share columns and rows.
ghost use Rattle.std.specs.Prelude.{◌≡◌};
ghost use Rattle.curves.specs.Patch.{lerp2, combined, coons_point};
ghost use Rattle.curves.specs.inner.Curves.{curves_of};
ghost use Rattle.curves.specs.inner.Columns.{column_at, row_at, patch_point};

use crate::boundary::Patch;
use crate::point::Point;
use crate::sides::Sides;

#[derive(Clone, Copy)]
pub(crate) struct Column {
    pub(crate) u: f64,
    pub(crate) bottom: Point,
    pub(crate) top: Point,
    pub(crate) low: Point,
    pub(crate) high: Point,
}

impl Column {
    // What room for columns is cleared with.
    pub(crate) const NONE: Column = Column {
        u: 0.0,
        bottom: Point::ORIGIN,
        top: Point::ORIGIN,
        low: Point::ORIGIN,
        high: Point::ORIGIN,
    };
}

#[derive(Clone, Copy)]
pub(crate) struct Row {
    pub(crate) right: Point,
    pub(crate) left: Point,
}

#[tactic(auto, unfolding(crate::specs::Patch::lerp2))]
fn lerp2(t: f64, a: Point, b: Point) -> Point
    ensures { result ≡ lerp2 t a b }
{
    Point {
        x: (1.0 - t) * a.x + t * b.x,
        y: (1.0 - t) * a.y + t * b.y,
    }
}

// Two ruled patches, less the bilinear one.
#[tactic(auto, unfolding(crate::specs::Patch::combined))]
fn combined(p: Point, q: Point, r: Point) -> Point
    ensures { result ≡ combined p q r }
{
    Point {
        x: p.x + q.x - r.x,
        y: p.y + q.y - r.y,
    }
}

// What u decides. A hint for each side is lent, and its segment left there: it may be any number.
#[tactic(auto, unfolding(crate::specs::inner::Columns::column_on))]
pub(crate) fn column_at(patch: &Patch, u: f64, hints: &mut Sides<usize>) -> Column
    ensures { result ≡ column_at patch.now u }
{
    let on_bottom = patch.curves.bottom.near(u, hints.bottom);
    hints.bottom = on_bottom.segment;
    // the top runs right to left
    let on_top = patch.curves.top.near(1.0 - u, hints.top);
    hints.top = on_top.segment;
    Column {
        u,
        bottom: on_bottom.point,
        top: on_top.point,
        low: lerp2(u, patch.bottom.start, patch.bottom.end),
        high: lerp2(u, patch.top.end, patch.top.start),
    }
}

// What v decides, with hints as above.
#[tactic(auto, unfolding(crate::specs::inner::Columns::row_on))]
pub(crate) fn row_at(patch: &Patch, v: f64, hints: &mut Sides<usize>) -> Row
    ensures { result ≡ row_at patch.now v }
{
    let on_right = patch.curves.right.near(v, hints.right);
    hints.right = on_right.segment;
    // the left runs top to bottom
    let on_left = patch.curves.left.near(1.0 - v, hints.left);
    hints.left = on_left.segment;
    Row {
        right: on_right.point,
        left: on_left.point,
    }
}

#[tactic(auto, unfolding(crate::specs::inner::Columns::patch_point))]
pub(crate) fn patch_point(column: Column, row: Row, v: f64) -> Point
    ensures { result ≡ patch_point column row v }
{
    let ruled_v = lerp2(v, column.bottom, column.top);
    let ruled_u = lerp2(column.u, row.left, row.right);
    let bilinear = lerp2(v, column.low, column.high);
    combined(ruled_v, ruled_u, bilinear)
}

// 000's `coons_point`, with hints as above. The curves have passed their tests, so there is nothing to refuse.
pub(crate) fn coons_point(patch: &Patch, u: f64, v: f64, hints: &mut Sides<usize>) -> Point
    ensures { result ≡ coons_point (curves_of patch.now) u v }
{
    let column = column_at(patch, u, hints);
    let row = row_at(patch, v, hints);
    patch_point(column, row, v)
}
