// Points of the plane.
ghost use Rattle.std.specs.Prelude.{◌≡◌};
ghost use Rattle.curves.specs.Point.{cross};

#[derive(Clone, Copy)]
pub(crate) struct Point {
    pub(crate) x: f64,
    pub(crate) y: f64,
}

impl Point {
    // What room for points is cleared with.
    pub(crate) const ORIGIN: Point = Point { x: 0.0, y: 0.0 };
}

// Twice the signed area of the triangle from the origin to p and q.
pub(crate) fn cross_product(p: Point, q: Point) -> f64
    ensures { result ≡ cross p q }
{
    p.x * q.y - q.x * p.y
}
